// What a replay writes: texts, numbers and the lines made of them, collected in the output and written in large pieces.
ghost use Rattle.std.specs.Prelude.{◌≤◌};
ghost use Rattle.playing.specs.declared.columns.TheConstants.{OUTPUT};

use crate::{Totals, say};
use rules::{Act, Decision, Outcome, Refusal, Word};
use std::fmt::InlineText;
use std::io;
use std::io::ErrorKind;

const OUTPUT: usize = 65536;

// The bytes that wait to be written, and the error of a write that failed, behind which no more is written.
#[derive(Drop)]
pub(crate) struct Output<'a> {
    pub(crate) rt: &'a HostRuntime,
    bytes: [u8; OUTPUT],
    count: usize,
    pub(crate) failed: Option<io::Error>,
    ghost in_room: { count ≤ OUTPUT },
}

impl Output<'_> {
    pub(crate) fn new(rt: &HostRuntime) -> Output<'_> {
        Output {
            rt,
            bytes: [0; OUTPUT],
            count: 0,
            failed: None,
        }
    }

    // What waits, written, unless a write has failed before. Nothing is said where nobody reads any more.
    pub(crate) fn flush(&mut self) {
        if self.failed.is_none()
            && let Err(e) = self.rt.stdout().write_all(&self.bytes[..self.count])
        {
            if e.kind() != ErrorKind::BrokenPipe {
                say(self.rt, b"replay: cannot write\n");
            }
            self.failed = Some(e);
        }
        self.count = 0;
    }

    // A text behind what waits, which is written first where there is no room for both. No text is longer than the output.
    pub(crate) fn put(&mut self, text: &[u8]) {
        if OUTPUT - self.count < text.len() {
            self.flush();
        }
        let at = self.count;
        if text.len() <= OUTPUT - at {
            let end = at + text.len();
            self.bytes[at..end].copy_from_slice(text);
            self.count = end;
        }
    }

    fn put_number(&mut self, n: u64) {
        let digits = InlineText::<20>::of(n);
        self.put(digits.as_str().as_bytes());
    }

    // A number and a space.
    pub(crate) fn put_column(&mut self, n: u64) {
        self.put_number(n);
        self.put(b" ");
    }

    // A line of the summary: a name and a space, and the number.
    fn put_named(&mut self, name: &[u8], n: u64) {
        self.put(name);
        self.put_number(n);
        self.put(b"\n");
    }

    pub(crate) fn put_summary(&mut self, t: Totals, milliseconds: u64) {
        self.put_named(b"words ", t.words);
        self.put_named(b"kept ", t.kept);
        self.put_named(b"restored ", t.restored);
        self.put_named(b"acted ", t.acted);
        self.put_named(b"undone ", t.undone);
        self.put_named(b"appended ", t.appended);
        self.put_named(b"milliseconds ", milliseconds);
    }

    // The line of a refusal. Its place is counted from the start of the recording.
    pub(crate) fn put_refused(&mut self, start: u64, r: Refusal) {
        self.put(b"! ");
        self.put_column(r.number as u64);
        self.put_number(start.wrapping_add(r.value as u64));
        self.put(b"\n");
    }

    // What a key did, and a space.
    pub(crate) fn put_outcome(&mut self, outcome: Outcome) {
        match outcome {
            Outcome::Acted(Act::Tone(_)) => self.put(b"tone "),
            Outcome::Acted(Act::Shape(_)) => self.put(b"shape "),
            Outcome::Acted(Act::Stroke) => self.put(b"stroke "),
            Outcome::Acted(Act::Clear) => self.put(b"clear "),
            Outcome::Undone => self.put(b"undone "),
            Outcome::Appended => self.put(b"appended "),
        }
    }

    fn put_decision(&mut self, decision: Decision) {
        match decision {
            Decision::Keep => self.put(b"keep "),
            Decision::Restore => self.put(b"restore "),
        }
    }

    // The shown text of a word and a newline.
    pub(crate) fn put_shown(&mut self, w: Word) {
        let mut text = [0; Word::TEXT];
        let Ok(n) = show::show(w, &mut text) else {
            return;
        };
        self.put(&text[..n]);
        self.put(b"\n");
    }

    // What is committed: its line, and with keys the decision in front of it and a hyphen for no text.
    pub(crate) fn put_committed(&mut self, with_keys: bool, decision: Decision, line: &[u8]) {
        if with_keys {
            self.put_decision(decision);
            if line.len() < 2 {
                return self.put(b"-\n");
            }
        }
        self.put(line);
    }
}
