// The part of the recording that lies in the block: the mode and the steps that it shows, and reading on where it runs short.
ghost use Rattle.std.specs.Prelude.{◌≡◌, ℕ, ◌+◌, ◌-◌, ◌≤◌, List, length, take, drop};
ghost use Rattle.rules.specs.TheWord.{at_front};
ghost use Rattle.recording.specs.Recordings.{step_at, begin as begin_of};
ghost use Rattle.playing.specs.Parts.{IsPart, Enough, ReadOn, shown_in, short, later};

use crate::say;
use recording::{Begun, Progress, Stepped};
use rules::Refusal;
use std::io::Read;

// A step is two numbers, each of at most five bytes.
const STEP: usize = 10;

// Where in the recording the block starts, the place of the next step in the block, how many bytes the block holds, and whether the
// recording ends with them.
#[derive(Clone, Copy, Default)]
pub(crate) struct Window {
    pub(crate) start: u64,
    pub(crate) at: usize,
    end: usize,
    last: bool,
}

impl Window {
    // The mode, in front of all steps. Where the block shows the front of a recording with enough bytes for it, it is that of the whole recording.
    pub(crate) fn first_mode(self, block: &[u8]) -> Result<Begun, Refusal>
        ensures { (s rest : List ℕ) → IsPart s 0 (shown_in self block.now) rest → Enough 0 (shown_in self block.now) rest → begin_of s ≡ result }
    {
        let n = self.end.min(block.len());
        recording::begin(&block[..n])
    }

    // The next step. Where the block shows a part of a recording with enough bytes for a step, it is the step of the whole recording there.
    pub(crate) fn next_step(self, block: &[u8], progress: Progress) -> Stepped
        ensures { (s rest : List ℕ) → IsPart s self.start (shown_in self block.now) rest → Enough self.at (shown_in self block.now) rest → step_at s (self.start + self.at) progress ≡ later self.start result }
    {
        let n = self.end.min(block.len());
        recording::step_at(&block[..n], self.at, progress)
    }

    // Fewer bytes than a step can have, and more of them may come.
    pub(crate) fn is_short(self) -> bool
        ensures { result ≡ short self }
    {
        !self.last && (self.end <= self.at || self.end - self.at < STEP)
    }

    // The rest of the block at its front, and what a read brings behind it. None where the read fails.
    pub(crate) fn fill(self, rt: &HostRuntime, block: &mut [u8]) -> Option<Window>
        ensures { self.at ≤ self.end → self.end ≤ length block.old → ReadOn self block.old block.new result }
    {
        let end = self.end.min(block.len());
        let at = self.at.min(end);
        let rest = to_front(block, at, end);
        let Ok(more) = rt.stdin().read(&mut block[rest..]) else {
            say(rt, b"replay: cannot read\n");
            return None;
        };
        Some(Window {
            start: self.start.wrapping_add(at as u64),
            at: 0,
            end: rest + more,
            last: more == 0,
        })
    }
}

// The bytes between two places of a block, moved to its front; how many they are.
fn to_front(block: &mut [u8], at: usize, end: usize) -> usize
    requires { (at ≤ end) × (end ≤ length block.old) }
    ensures { (result ≡ end - at) × (block.new ≡ at_front (take (end - at) (drop at block.old)) block.old) }
{
    block.copy_within(at..end, 0);
    end - at
}
