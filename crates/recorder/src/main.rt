// The recorder: lines that a person can write, from standard input, made into the recording of a drill on standard output.
// The first line is T or V. A further line is milliseconds, or milliseconds, a space and keys; empty lines are passed over.
// What is wrong is said on standard error, and then nothing is written.
#![tactic(auto)]

ghost use Rattle.std.specs.Prelude.{◌≤◌};
ghost use Rattle.recorder.specs.declared.TheConstants.{MOST};

use messages::{say, say_fault, say_refused};
use recording::SPACE;
use rules::Word;
use std::io::{ErrorKind, Read};
use std::process::ExitCode;

mod messages;

const BLOCK: usize = 16384;

// The most keys of a drill, spaces among them.
const MOST: usize = 16384;

// Room for the mode, and for each key: five bytes of its time, and one of the key.
const ROOM: usize = 1 + 6 * MOST;

// Milliseconds from here on are refused by the writer, however many there are.
const TOO_LONG: u64 = 4294967296;

// How much of a line has been read, or what is wrong with it. A `match` on it is the plainest: each stage takes a byte and the end of a line its own way.
#[derive(Clone, Copy)]
enum Stage {
    NoMode,
    ModeRead,
    LineStart,
    Time,
    TimeAndSpace,
    Keys,
    Wrong(Fault),
}

#[derive(Clone, Copy)]
enum Fault {
    NotAMode,
    NotATime,
    NoKeys,
    TooMany,
}

// The drill so far: its mode, its keys and the line of each; the line that is read, its stage and its milliseconds; and whether a
// carriage return waits, which is passed over where the line ends behind it.
// The keys and their lines are two arrays, since the writer takes the keys alone.
#[derive(Drop)]
struct Drill {
    mode: u8,
    presses: [u64; MOST],
    lines: [u64; MOST],
    count: usize,
    line: u64,
    stage: Stage,
    milliseconds: u64,
    returned: bool,
    ghost in_room: { count ≤ MOST },
}

impl Drill {
    fn new() -> Drill {
        Drill {
            mode: Word::TELEX,
            presses: [0; MOST],
            lines: [0; MOST],
            count: 0,
            line: 1,
            stage: Stage::NoMode,
            milliseconds: 0,
            returned: false,
        }
    }

    fn is_wrong(&self) -> bool {
        matches!(self.stage, Stage::Wrong(_))
    }

    fn begin(&mut self, mode: u8) {
        self.mode = mode;
        self.stage = Stage::ModeRead;
    }

    // The milliseconds with a digit more. From the writer's limit on it does not matter how many they are.
    fn digit(&mut self, b: u8) {
        match b {
            b'0'..=b'9' => {
                self.milliseconds = 10 * self.milliseconds.min(TOO_LONG) + (b - b'0') as u64;
                self.stage = Stage::Time;
            }
            _ => self.stage = Stage::Wrong(Fault::NotATime),
        }
    }

    // One key more, with its time as the writer takes them, and the line that it stands in.
    fn press(&mut self, key: u8, stage: Stage) {
        let n = self.count;
        if n == MOST {
            self.stage = Stage::Wrong(Fault::TooMany);
            return;
        }
        self.presses[n] = key as u64 + 256 * self.milliseconds.min(TOO_LONG);
        self.lines[n] = self.line;
        self.count = n + 1;
        self.stage = stage;
    }

    // A byte within a line.
    fn byte(&mut self, b: u8) {
        match self.stage {
            Stage::NoMode => match b {
                b'T' => self.begin(Word::TELEX),
                b'V' => self.begin(Word::VNI),
                _ => self.stage = Stage::Wrong(Fault::NotAMode),
            },
            Stage::ModeRead => self.stage = Stage::Wrong(Fault::NotAMode),
            Stage::LineStart => {
                self.milliseconds = 0;
                self.digit(b);
            }
            Stage::Time if b == SPACE => self.stage = Stage::TimeAndSpace,
            Stage::Time => self.digit(b),
            Stage::TimeAndSpace | Stage::Keys => self.press(b, Stage::Keys),
            Stage::Wrong(_) => {}
        }
    }

    // A line that ended. Milliseconds alone are the time of a space.
    fn end_line(&mut self) {
        match self.stage {
            Stage::NoMode | Stage::LineStart | Stage::Wrong(_) => {}
            Stage::ModeRead | Stage::Keys => self.stage = Stage::LineStart,
            Stage::Time => self.press(SPACE, Stage::LineStart),
            Stage::TimeAndSpace => self.stage = Stage::Wrong(Fault::NoKeys),
        }
    }

    // The line behind one that ended well. No input has so many lines that their number wraps.
    fn newline(&mut self) {
        self.end_line();
        if !self.is_wrong() {
            self.returned = false;
            self.line = self.line.wrapping_add(1);
        }
    }

    // A carriage return that did not end its line is a byte of the line.
    fn feed_byte(&mut self, b: u8) {
        if b == b'\n' {
            return self.newline();
        }
        if self.returned {
            self.returned = false;
            self.byte(b'\r');
        }
        if b == b'\r' {
            self.returned = true;
        } else {
            self.byte(b);
        }
    }

    fn feed(&mut self, block: &[u8]) {
        for &b in block {
            self.feed_byte(b);
        }
    }
}

// The input read, all of it or as far as nothing is wrong; false where it could not be.
// Nothing says that it ends, so the loop counts its turns, up to a number that no run uses up.
fn read_all(rt: &HostRuntime, drill: &mut Drill) -> bool {
    let mut block = [0; BLOCK];
    for _ in 0..u64::MAX {
        let Ok(n) = rt.stdin().read(&mut block) else {
            say(rt, b"record: cannot read\n");
            return false;
        };
        if n == 0 {
            drill.end_line();
            return true;
        }
        drill.feed(&block[..n]);
        if drill.is_wrong() {
            return true;
        }
    }
    false
}

// The recording, written; a failure where it could not be. Nothing is said of it where nobody reads any more.
fn write(rt: &HostRuntime, drill: &Drill) -> ExitCode {
    let mut out = [0; ROOM];
    match recording::write(drill.mode, &drill.presses[..drill.count], &mut out) {
        Ok(written) => {
            let Err(e) = rt.stdout().write_all(&out[..written]) else {
                return ExitCode::SUCCESS;
            };
            if e.kind() != ErrorKind::BrokenPipe {
                say(rt, b"record: cannot write\n");
            }
            ending::status(e)
        }
        Err(r) => {
            say_refused(rt, r, &drill.lines);
            ExitCode::SUCCESS
        }
    }
}

fn finish(rt: &HostRuntime, drill: &Drill) -> ExitCode {
    let fault = match drill.stage {
        Stage::Wrong(fault) => fault,
        Stage::NoMode => Fault::NotAMode,
        _ => return write(rt, drill),
    };
    say_fault(rt, drill.line, fault);
    ExitCode::SUCCESS
}

// A failure where something could not be read or written. A drill that is refused is none, and said on standard error.
fn main(rt: HostRuntime) -> ExitCode {
    let mut drill = Drill::new();
    if read_all(&rt, &mut drill) {
        finish(&rt, &drill)
    } else {
        ExitCode::FAILURE
    }
}
