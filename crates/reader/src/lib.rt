// A reader: it holds a lent recording, and the place of the next step. Thin methods over `recording`, which works on slice and number.
#![tactic(auto)]

ghost use Rattle.std.specs.Prelude.{◌≡◌};
ghost use Rattle.recording.specs.Recordings.{begin as begin_of};
ghost use Rattle.reader.specs.Standing.{step_from, place_after};

use recording::{Begun, Progress, Stepped};
use rules::Refusal;

#[derive(Clone, Copy)]
pub struct Reader<'a> {
    pub recording: &'a [u8],
    pub at: usize,
}

impl<'a> Reader<'a> {
    // A reader at the start of a recording.
    pub fn new(recording: &'a [u8]) -> Reader<'a>
        ensures { (result.recording ≡ recording.entry) × (result.at ≡ 0) }
    {
        Reader { recording, at: 0 }
    }

    // The mode in front of the recording, wherever the reader stands. Refusals: 10, 1, at place 0.
    pub fn begin(self) -> Result<Begun, Refusal>
        ensures { result ≡ begin_of self.entry.recording.now }
    {
        recording::begin(self.recording)
    }

    // The same reader at another place.
    pub fn moved(self, at: usize) -> Reader<'a>
        ensures { (result.recording ≡ self.entry.recording) × (result.at ≡ at) }
    {
        Reader { at, ..self }
    }

    // What the next step meets. Refusals: 10, 2, 3, 11 with their places.
    pub fn next(self, progress: Progress) -> Stepped
        ensures { result ≡ step_from self.entry.recording.now self.entry.at progress }
    {
        recording::step_at(self.recording, self.at, progress)
    }

    // The next step, after which the reader stands behind it; after a refused step, and at the end, it stands where it stood.
    pub fn next_in(&mut self, progress: Progress) -> Stepped
        ensures { (result ≡ step_from self.old.recording.now self.old.at progress) × (self.new.recording ≡ self.old.recording) × (self.new.at ≡ place_after self.old.recording.now self.old.at progress) }
    {
        let t = recording::step_at(self.recording, self.at, progress);
        self.at = t.at;
        t
    }
}
