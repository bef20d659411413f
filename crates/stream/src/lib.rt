// A stream of a program's lines through fixed buffers: lines of any length, in blocks cut anywhere.
#![tactic(auto)]

ghost use Rattle.std.specs.Prelude.{◌≡◌, ◌-◌, ◌≤◌, length, drop};
ghost use Rattle.rules.specs.TheWord.{at_front};
ghost use Rattle.output.specs.Front.{put};
ghost use Rattle.lines.specs.Programs.{header_of};
ghost use Rattle.lines.specs.declared.Program.{Program};
ghost use Rattle.stream.specs.Feeding.{none_begun, line_of, kept, byte_fed, place_after, feeding, put_at, fed_of, finishing};

use lines::Program;
use rules::Refusal;

// The program, and the line that has begun: its first bytes, as many as an answer can depend on, and how many they are. An array with its
// count, since nothing is allocated; any length may be handed in, so the type has no invariant.
#[derive(Clone, Copy)]
pub struct Begun {
    pub program: Program,
    pub line: [u8; Begun::MOST],
    pub length: usize,
}

// After a block or a part of it: the state, the place in the block where the next byte stands, and the bytes written.
#[derive(Clone, Copy)]
pub struct Fed {
    pub state: Begun,
    pub taken: usize,
    pub written: usize,
}

impl Begun {
    pub const MOST: usize = 99;

    pub fn new(program: Program) -> Begun
        ensures { result ≡ none_begun program }
    {
        Begun {
            program,
            line: [0; Begun::MOST],
            length: 0,
        }
    }

    // The line that has begun, as far as it is kept.
    fn held(&self) -> &[u8]
        ensures { result.now ≡ line_of self.now }
    {
        &self.line[..self.length.min(Begun::MOST)]
    }

    fn keep(&mut self, b: u8)
        ensures { self.new ≡ kept self.old b }
    {
        if self.length < Begun::MOST {
            self.line[self.length] = b;
            self.length += 1;
        }
    }

    // One byte: the place in the output behind what is written, or none where there is no room for the answer.
    // The state is lent and changed where it lies: handed on by value it is copied each time.
    fn feed_byte(&mut self, b: u8, out: &mut [u8], at: usize) -> Option<usize>
        requires { at ≤ length out.old }
        ensures { (result ≡ place_after at (byte_fed self.old b (length out.old - at))) × (self.new ≡ (byte_fed self.old b (length out.old - at)).state) × (out.new ≡ put_at at (byte_fed self.old b (length out.old - at)).text out.old) }
    {
        if b != b'\n' {
            self.keep(b);
            return Some(at);
        }
        let answer = lines::answer_line(self.program, self.held(), &mut out[at..]);
        let Ok(written) = answer else {
            return None;
        };
        self.length = 0;
        Some(at + written)
    }
}

// What stands in front of all answers, at the front of the output: the drill's first line, and nothing for the speller. Refusals: 4 with the bytes needed; the output is then as it was.
// The clause says of which program it is: no function is handed in.
pub fn header(program: Program, out: &mut [u8]) -> Result<usize, Refusal>
    ensures { (result ≡ (put (header_of program) out.old).answer) × (out.new ≡ (put (header_of program) out.old).output) }
{
    match program {
        Program::Drill => output::write(b"shown commit verdict tone place decision\n", out),
        Program::DrillWithKeys => {
            output::write(
                b"shown commit verdict tone place decision letters tonekey\n",
                out,
            )
        }
        Program::Spell => output::write(b"", out),
    }
}

// The bytes of a block from a place on, until it ends or the output has no room for the next answer.
pub fn feed(mut state: Begun, block: &[u8], from: usize, out: &mut [u8]) -> Fed
    ensures { (result ≡ fed_of from (feeding state (drop from block.now) (length out.old))) × (out.new ≡ at_front (feeding state (drop from block.now) (length out.old)).text out.old) }
{
    let mut at = 0;
    // By places: the one where the room ends is handed back, and `from` may lie past the block.
    for i in from..block.len() {
        let Some(behind) = state.feed_byte(block[i], out, at) else {
            return Fed {
                state,
                taken: i,
                written: at,
            };
        };
        at = behind;
    }
    Fed {
        state,
        taken: from.max(block.len()),
        written: at,
    }
}

// The end of the input: a last line without a newline, if one has begun. Refusals: 4 with the bytes needed; the output is then as it was.
pub fn finish(state: Begun, out: &mut [u8]) -> Result<usize, Refusal>
    ensures { (result ≡ (finishing state out.old).answer) × (out.new ≡ (finishing state out.old).output) }
{
    if state.length == 0 {
        return Ok(0);
    }
    lines::answer_line(state.program, state.held(), out)
}
