// A replay of any length: the recording on standard input played key by key, what it commits or what each key did on standard output, and the summary behind it.
// Reads, plays and writes in blocks; a failed read or write ends the run, with what was played so far written out and a message on standard error.
#![tactic(auto)]

use blocks::Window;
use columns::Output;
use recording::{KeyPress, Progress, SPACE};
use replay::WordDone;
use rules::{Decision, Refusal, Word};
use std::process::ExitCode;

mod blocks;
mod columns;

const BLOCK: usize = 16384;

// The words so far: how many, how many of them kept and restored, and how many of their keys acted, undid and were appended.
// Each of these numbers is at most that of the bytes read, of which no run reads 2 to the 64, so none of them wraps.
#[derive(Clone, Copy, Default)]
struct Totals {
    words: u64,
    kept: u64,
    restored: u64,
    acted: u64,
    undone: u64,
    appended: u64,
}

impl Totals {
    fn add(&mut self, done: WordDone) {
        self.words = self.words.wrapping_add(1);
        match done.decision {
            Decision::Keep => self.kept = self.kept.wrapping_add(1),
            Decision::Restore => self.restored = self.restored.wrapping_add(1),
        }
        self.acted = self.acted.wrapping_add(done.acted as u64);
        self.undone = self.undone.wrapping_add(done.undone as u64);
        self.appended = self.appended.wrapping_add(done.appended as u64);
    }
}

// How far the replay has come. The mode is read before anything else. Of the word that has begun there are the keys, and where each
// key has a line the record.
#[derive(Drop)]
struct Play<'a> {
    out: Output<'a>,
    with_keys: bool,
    begun: bool,
    block: [u8; BLOCK],
    window: Window,
    progress: Progress,
    keys: [u8; Word::KEYS],
    word: [u8; layout::LENGTH],
    totals: Totals,
}

// What follows a turn: another, or nothing but what waits, at the end of the recording or where a read failed. Three ways and no value: no `Result`.
#[derive(Clone, Copy)]
enum Next {
    More,
    Done,
    Failed,
}

impl Play<'_> {
    fn new(rt: &HostRuntime, with_keys: bool) -> Play<'_> {
        Play {
            out: Output::new(rt),
            with_keys,
            begun: false,
            block: [0; BLOCK],
            window: Window::default(),
            progress: Progress {
                mode: Word::TELEX,
                in_word: 0,
                milliseconds: 0,
            },
            keys: [0; Word::KEYS],
            word: [0; layout::LENGTH],
            totals: Totals::default(),
        }
    }

    // The word that has begun, committed. None is refused: the steps asked that of its keys.
    fn commit(&mut self) {
        let n = self.progress.in_word.min(Word::KEYS);
        let mut line = [0; replay::LINE];
        let Ok(done) = replay::commit_word(self.progress.mode, &self.keys[..n], &mut line) else {
            return;
        };
        self.out
            .put_committed(self.with_keys, done.decision, &line[..done.bytes]);
        self.totals.add(done);
    }

    fn space(&mut self, milliseconds: u32) {
        if self.with_keys {
            self.out.put_column(milliseconds as u64);
            self.out.put(b"space ");
        }
        self.commit();
    }

    // A key typed into the word that has begun, and its line. The word takes the key: the step asked that of the recording.
    fn type_key(&mut self, x: KeyPress) {
        let Ok(outcome) = step::step_at(&mut self.word, x.key) else {
            return;
        };
        self.out.put_column(x.milliseconds as u64);
        self.out.put(&[x.key]);
        self.out.put(b" ");
        self.out.put_outcome(outcome);
        if let Some(w) = layout::read(&self.word) {
            self.out.put_shown(w);
        }
    }

    // A key that is no space: kept for the word's end, and with keys typed at once.
    fn key(&mut self, x: KeyPress) {
        let n = self.progress.in_word;
        if n < Word::KEYS {
            self.keys[n] = x.key;
        }
        if self.with_keys {
            if n == 0 {
                let start = word::start(self.progress.mode);
                layout::write(start.word, &mut self.word);
            }
            self.type_key(x);
        }
    }

    // The end of the recording: a last word, if one has begun, and the summary.
    fn end(&mut self) {
        if self.progress.in_word != 0 {
            if self.with_keys {
                self.out.put(b"- end ");
            }
            self.commit();
        }
        self.out
            .put_summary(self.totals, self.progress.milliseconds);
    }

    fn go_on(&mut self, at: usize, progress: Progress) -> Next {
        self.begun = true;
        self.window.at = at;
        self.progress = progress;
        Next::More
    }

    fn refuse(&mut self, r: Refusal) -> Next {
        self.out.put_refused(self.window.start, r);
        Next::Done
    }

    fn begin(&mut self) -> Next {
        match self.window.first_mode(&self.block) {
            Ok(b) => self.go_on(b.at, b.progress),
            Err(r) => self.refuse(r),
        }
    }

    fn step(&mut self) -> Next {
        let s = self.window.next_step(&self.block, self.progress);
        match s.press {
            Ok(Some(x)) => {
                if x.key == SPACE {
                    self.space(x.milliseconds);
                } else {
                    self.key(x);
                }
                self.go_on(s.at, s.progress)
            }
            Ok(None) => {
                self.end();
                Next::Done
            }
            Err(r) => self.refuse(r),
        }
    }

    // One turn: a read where the block runs short, else the mode or a step.
    fn turn(&mut self) -> Next {
        if self.window.is_short() {
            let Some(window) = self.window.fill(self.out.rt, &mut self.block) else {
                return Next::Failed;
            };
            self.window = window;
            return Next::More;
        }
        if self.begun {
            self.step()
        } else {
            self.begin()
        }
    }

    // The recording played until it ends or a write fails; false where it could not be read on.
    // Nothing says that the input ends, so the loop counts its turns, up to a number that no run uses up.
    fn turns(&mut self) -> bool {
        if self.with_keys {
            self.out.put(b"ms key did shown\n");
        }
        for _ in 0..u64::MAX {
            match self.turn() {
                Next::Done => return true,
                Next::Failed => return false,
                Next::More => {}
            }
            if self.out.failed.is_some() {
                return true;
            }
        }
        false
    }
}

// One line, as in the recorder: nothing more is the same there.
fn say(rt: &HostRuntime, text: &[u8]) {
    let _ = rt.stderr().write_all(text);
}

// The whole run of a player, with a line for each key or only for each word; a failure where something could not be read or written.
// No contract can say what is read and written.
pub fn run(rt: &HostRuntime, with_keys: bool) -> ExitCode {
    let mut play = Play::new(rt, with_keys);
    let was_read = play.turns();
    play.out.flush();
    match play.out.failed {
        Some(e) => ending::status(e),
        None if was_read => ExitCode::SUCCESS,
        None => ExitCode::FAILURE,
    }
}
