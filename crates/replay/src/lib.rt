// A recorded drill replayed: each word typed by itself and committed, and the summary of all of them.
#![tactic(auto)]

ghost use Rattle.std.specs.Prelude.{◌≡◌, false, [], ◌≤◌, ◌<◌, T, length, take};
ghost use Rattle.rules.specs.TheWord.{word_of, at_front};
ghost use Rattle.rules.specs.KeyRoles.{is_key};
ghost use Rattle.rules.specs.Decision.{handed_back};
ghost use Rattle.rules.specs.Refusals.{all, is_mode, out_of_range};
ghost use Rattle.rules.specs.WhatComesBack.{typed};
ghost use Rattle.show.specs.Filling.{room_text};
ghost use Rattle.recording.specs.Recordings.{is_space, begin};
ghost use Rattle.replay.specs.Replays.{committed_line, done_of, word_replayed, replayed};
ghost use Rattle.replay.specs.Passes.{throughout, passage_of, told, LinesPut, with_done, Fits, FitsKeys, line_at, some_keys, total_if, keys_unless, output_if};

use recording::{Begun, Progress, SPACE};
use rules::{Decision, Refusal, Word, refuse};

// The words, those kept and restored, the keys that acted, undid and were appended, and all milliseconds.
#[derive(Clone, Copy, Default)]
pub struct Summary {
    pub words: usize,
    pub kept: usize,
    pub restored: usize,
    pub acted: usize,
    pub undone: usize,
    pub appended: usize,
    pub milliseconds: u32,
}

#[derive(Clone, Copy)]
pub struct ReplayAnswer {
    pub answer: Result<usize, Refusal>,
    pub summary: Summary,
}

// One word: the bytes of its line, the decision, and what its keys did.
#[derive(Clone, Copy)]
pub struct WordDone {
    pub bytes: usize,
    pub decision: Decision,
    pub acted: u8,
    pub undone: u8,
    pub appended: u8,
}

// The most that a word's line has: a text of 96 bytes, and a newline.
pub const LINE: usize = 97;

const NEWLINE: u8 = b'\n';

// What a pass finds: the bytes of the words' lines, and the summary, of which the milliseconds are known at the end.
#[derive(Clone, Copy, Default)]
struct Found {
    written: usize,
    summary: Summary,
}

// What is committed, the shown text of the letters or the keys, made at the front of the line itself: it has room for any text.
fn committed_text(
    decision: Decision,
    letters: &[u16],
    tone: u8,
    keys: &[u8],
    line: &mut [u8; LINE],
) -> usize
    requires { length keys.now ≤ 32 }
    ensures { (result ≡ length (handed_back decision (room_text letters.now tone line.old) keys.now)) × (line.new ≡ at_front (handed_back decision (room_text letters.now tone line.old) keys.now) line.old) × (length line.old ≡ 97) }
{
    match decision {
        Decision::Keep => show::in_room(letters, tone, line),
        Decision::Restore => {
            line[..keys.len()].copy_from_slice(keys);
            keys.len()
        }
    }
}

// The line of a word in range, and what its keys did.
fn line_of(w: Word, line: &mut [u8; LINE]) -> WordDone
    requires { out_of_range w ≡ false }
    ensures { (result ≡ done_of (word_of w)) × (line.new ≡ at_front (committed_line (word_of w)) line.old) }
{
    let letters = &w.letters[..w.count as usize];
    let verdict = syllable::verdict(letters, w.tone);
    let untouched = (w.acted == 0) & (w.undone == 0);
    let decision = word::decided(letters, untouched, w.closed, verdict);
    let keys = &w.keys[..w.typed as usize];
    let n = committed_text(decision, letters, w.tone, keys, line);
    line[n] = NEWLINE;
    WordDone {
        bytes: n + 1,
        decision,
        acted: w.acted,
        undone: w.undone,
        appended: w.appended,
    }
}

// One word typed and committed: its line at the front of `line`, a newline behind it. Refusals: 1, 2, 3; the line is then as it was.
pub fn commit_word(mode: u8, keys: &[u8], line: &mut [u8; LINE]) -> Result<WordDone, Refusal>
    ensures { (result ≡ (word_replayed mode keys.now line.old).answer) × (line.new ≡ (word_replayed mode keys.now line.old).line) }
{
    let all = word::type_all(mode, keys);
    all.answer?;
    Ok(line_of(all.word, line))
}

// A line at a place of the output, where there is room for it; else nothing.
fn put_line(line: &[u8], out: &mut [u8], at: usize)
    ensures { out.new ≡ line_at at line.now out.old }
{
    if at <= out.len() && line.len() <= out.len() - at {
        out[at..at + line.len()].copy_from_slice(line);
    }
}

impl Found {
    // One word more.
    fn add(&mut self, word: WordDone)
        requires { Fits self.old word.bytes word.acted word.undone word.appended }
        ensures { self.new ≡ with_done self.old word }
    {
        self.written += word.bytes;
        let summary = &mut self.summary;
        summary.words += 1;
        match word.decision {
            Decision::Keep => summary.kept += 1,
            Decision::Restore => summary.restored += 1,
        }
        summary.acted += word.acted as usize;
        summary.undone += word.undone as usize;
        summary.appended += word.appended as usize;
    }

    // A word of allowed keys: typed, committed, and counted.
    fn add_word(&mut self, mode: u8, keys: &[u8], out: &mut [u8])
        requires { T (is_mode mode) × (length keys.now ≤ 32) × T (all (is_key mode) keys.now) × FitsKeys self.old (length keys.now) }
        ensures { (self.new ≡ with_done self.old (done_of (typed mode keys.now))) × (out.new ≡ line_at self.old.written (committed_line (typed mode keys.now)) out.old) }
    {
        let all = word::type_all(mode, keys);
        let mut line = [0; LINE];
        let word = line_of(all.word, &mut line);
        put_line(&line[..word.bytes], out, self.written);
        self.add(word);
    }

    // What is left at the end: the keys after the last space, if there are any.
    fn add_last(&mut self, mode: u8, keys: &[u8], out: &mut [u8])
        requires { T (is_mode mode) × (length keys.now ≤ 32) × T (all (is_key mode) keys.now) × FitsKeys self.old (length keys.now) }
        ensures { (self.new ≡ total_if (some_keys keys.now) mode keys.now self.old) × (out.new ≡ output_if (some_keys keys.now) mode keys.now self.old out.old) }
    {
        if keys.is_empty() {
            return;
        }
        self.add_word(mode, keys, out);
    }
}

// A press more: a key goes to those of the word that has begun, and a space commits it.
fn press(
    progress: Progress,
    key: u8,
    keys: &mut [u8; Word::KEYS],
    found: &mut Found,
    out: &mut [u8],
)
    requires { T (is_mode progress.mode) × (progress.in_word ≤ 32) × T (all (is_key progress.mode) (take progress.in_word keys.old)) × FitsKeys found.old progress.in_word × ((key ≡ 32 → ⊥) → progress.in_word < 32) }
    ensures { (found.new ≡ total_if (is_space key) progress.mode (take progress.in_word keys.old) found.old) × (keys.new ≡ keys_unless (is_space key) keys.old progress.in_word key) × (out.new ≡ output_if (is_space key) progress.mode (take progress.in_word keys.old) found.old out.old) }
{
    let n = progress.in_word;
    if key != SPACE {
        keys[n] = key;
        return;
    }
    found.add_word(progress.mode, &keys[..n], out);
}

// All of a recording behind its mode, each line put where there is room for it.
fn pass(recording: &[u8], begun: Begun, out: &mut [u8]) -> Result<Found, Refusal>
    requires { begin recording.now ≡ Ok begun }
    ensures { (result ≡ passage_of (throughout recording.now begun)) × LinesPut (throughout recording.now begun) out.old out.new }
{
    let mut at = begun.at;
    let mut progress = begun.progress;
    let mut keys = [0; Word::KEYS];
    let mut found = Found::default();
    loop {
        let step = recording::step_at(recording, at, progress);
        let Some(x) = step.press? else {
            break;
        };
        press(progress, x.key, &mut keys, &mut found, out);
        at = step.at;
        progress = step.progress;
    }
    found.add_last(progress.mode, &keys[..progress.in_word], out);
    found.summary.milliseconds = progress.milliseconds as u32;
    Ok(found)
}

// The first pass writes nothing: it finds what is refused, the bytes needed and the summary. Only then is the output touched.
fn played(recording: &[u8], out: &mut [u8]) -> Result<Found, Refusal>
    ensures { (told result ≡ (replayed recording.now out.old).result) × (out.new ≡ (replayed recording.now out.old).output) }
{
    let begun = recording::begin(recording)?;
    let found = pass(recording, begun, &mut out[..0])?;
    if out.len() < found.written {
        return refuse(4, found.written);
    }
    pass(recording, begun, out)
}

// The committed words of a recording at the front of the output, each with a newline, and the summary.
// Refusals: 10, 1, 2, 3, 11 with the place where the refused number starts; 4 with the bytes needed. The output is then as it was, and the summary is all zeros.
pub fn replay(recording: &[u8], out: &mut [u8]) -> ReplayAnswer
    ensures { (result ≡ (replayed recording.now out.old).result) × (out.new ≡ (replayed recording.now out.old).output) }
{
    match played(recording, out) {
        Ok(found) => ReplayAnswer {
            answer: Ok(found.written),
            summary: found.summary,
        },
        Err(refusal) => ReplayAnswer {
            answer: Err(refusal),
            summary: Summary::default(),
        },
    }
}
