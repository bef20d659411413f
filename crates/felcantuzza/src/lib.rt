// The calls that the box links, as felcantuzza_c exports them. Each takes numbers, and lent bytes and numbers, alone: no struct, enum or bool crosses.
// It returns 0 where it is answered, else the refusal's number; `value` then holds the answer's number, or the refusal's, and is always written.
// A word's record is lent as the 169 bytes of crate `layout`; bytes that are no record are refusal 8 with 0. A refused call leaves every lent byte as it was, and every number that is lent for a recording.
#![tactic(auto)]

ghost use Rattle.std.specs.Prelude.{◌≡◌};
ghost use Rattle.rules.specs.AnswersInNumbers.{outcome_numbers, write_says, decision_number as decision_number_of};
ghost use Rattle.felcantuzza.specs.Calls as Calls;
ghost use Rattle.felcantuzza.specs.Recordings as Recordings;

use commit::Ruling;
use recording::{KeyPress, Progress};
use rules::{Act, Decision, Outcome, Refusal, Word};

// An answer as a call gives it: 0 and its number, or the refusal's number and value.
fn returned(answer: Result<usize, Refusal>, value: &mut usize) -> u8
    ensures { (result ≡ Calls.returned (write_says answer)) × (value.new ≡ Calls.value_by Calls.only_one (write_says answer)) }
{
    match answer {
        Ok(number) => {
            *value = number;
            0
        }
        Err(refusal) => {
            *value = refusal.value;
            refusal.number
        }
    }
}

fn no_record() -> Refusal
    ensures { result ≡ Calls.no_record }
{
    Refusal {
        number: 8,
        value: 0,
    }
}

// C's own numbers for what a key did, which no type says: a function, and no `From`.
fn act_number(act: Act) -> usize
    ensures { result ≡ Calls.in_one (outcome_numbers (Outcome.Acted act)) }
{
    match act {
        Act::Tone(tone) => 16 + tone as usize,
        Act::Shape(shape) => 32 + shape as usize,
        Act::Stroke => 48,
        Act::Clear => 64,
    }
}

// What a key did: 16 times its kind, and the tone or the shape.
fn outcome_number(outcome: Outcome) -> usize
    ensures { result ≡ Calls.in_one (outcome_numbers outcome) }
{
    match outcome {
        Outcome::Acted(act) => act_number(act),
        Outcome::Undone => 80,
        Outcome::Appended => 96,
    }
}

// C's own numbers too.
fn decision_number(decision: Decision) -> usize
    ensures { result ≡ decision_number_of decision }
{
    match decision {
        Decision::Keep => 0,
        Decision::Restore => 1,
    }
}

fn started(mode: u8, lent: &mut [u8]) -> Result<usize, Refusal>
    ensures { (result ≡ Calls.number_by Calls.only_one (Calls.start mode lent.old)) × (lent.new ≡ Calls.start_word mode lent.old) }
{
    if lent.len() != layout::LENGTH {
        return Err(no_record());
    }
    let started = word::start(mode);
    started.answer?;
    layout::write(started.word, lent);
    Ok(0)
}

// A new word in a mode. Refusals: 8, 1.
pub fn fz_start(mode: u8, lent: &mut [u8], value: &mut usize) -> u8
    ensures { (result ≡ Calls.returned (Calls.start mode lent.old)) × (value.new ≡ Calls.value_by Calls.only_one (Calls.start mode lent.old)) × (lent.new ≡ Calls.start_word mode lent.old) }
{
    returned(started(mode, lent), value)
}

fn typed(lent: &mut [u8], key: u8) -> Result<usize, Refusal>
    ensures { (result ≡ Calls.number_by Calls.in_one (Calls.type lent.old key)) × (lent.new ≡ Calls.type_word lent.old key) }
{
    let outcome = step::step_at(lent, key)?;
    Ok(outcome_number(outcome))
}

// A key typed; the value is what it did. Refusals: 8, 2, 3.
pub fn fz_type(lent: &mut [u8], key: u8, value: &mut usize) -> u8
    ensures { (result ≡ Calls.returned (Calls.type lent.old key)) × (value.new ≡ Calls.value_by Calls.in_one (Calls.type lent.old key)) × (lent.new ≡ Calls.type_word lent.old key) }
{
    returned(typed(lent, key), value)
}

// Into an output with room for any text the key is typed where the bytes lie, and of the new word no more is read than is shown; into a shorter
// one, in a copy.
fn typed_and_shown(lent: &mut [u8], key: u8, out: &mut [u8]) -> Result<(Outcome, usize), Refusal>
    ensures { (Calls.shown_says result ≡ Calls.type_and_show lent.old key out.old) × (lent.new ≡ Calls.type_and_show_word lent.old key out.old) × (out.new ≡ Calls.type_and_show_output lent.old key out.old) }
{
    if out.len() < Word::TEXT {
        return press::press_at(lent, key, out);
    }
    let outcome = step::step_at(lent, key)?;
    // A key that is taken leaves a record.
    let w = layout::read(lent).unwrap();
    let letters = layout::letters_of(lent);
    let bytes = show::in_room(&letters[..w.count as usize], w.tone, out);
    Ok((outcome, bytes))
}

// A key typed and the word shown, with one range check; `did` is what the key did, as fz_type's value, and 0 where the call is refused;
// the value is the bytes written. Refusals: 8, 2, 3, 4.
pub fn fz_type_and_show(
    lent: &mut [u8],
    key: u8,
    out: &mut [u8],
    did: &mut usize,
    value: &mut usize,
) -> u8
    ensures { (result ≡ Calls.returned (Calls.type_and_show lent.old key out.old)) × (did.new ≡ Calls.did (Calls.type_and_show lent.old key out.old)) × (value.new ≡ Calls.value_by Calls.only_one (Calls.type_and_show lent.old key out.old)) × (lent.new ≡ Calls.type_and_show_word lent.old key out.old) × (out.new ≡ Calls.type_and_show_output lent.old key out.old) }
{
    match typed_and_shown(lent, key, out) {
        Ok((outcome, bytes)) => {
            *did = outcome_number(outcome);
            returned(Ok(bytes), value)
        }
        Err(refusal) => {
            *did = 0;
            returned(Err(refusal), value)
        }
    }
}

fn shown(lent: &[u8], out: &mut [u8]) -> Result<usize, Refusal>
    ensures { (result ≡ Calls.number_by Calls.only_one (Calls.show lent.now out.old)) × (out.new ≡ Calls.show_output lent.now out.old) }
{
    let Some(w) = layout::read(lent) else {
        return Err(no_record());
    };
    show::show_in(&w, out)
}

// The word shown; the value is the bytes written. Refusals: 8, 4.
pub fn fz_show(lent: &[u8], out: &mut [u8], value: &mut usize) -> u8
    ensures { (result ≡ Calls.returned (Calls.show lent.now out.old)) × (value.new ≡ Calls.value_by Calls.only_one (Calls.show lent.now out.old)) × (out.new ≡ Calls.show_output lent.now out.old) }
{
    returned(shown(lent, out), value)
}

fn verdict(lent: &[u8]) -> Result<usize, Refusal>
    ensures { result ≡ Calls.number_by Calls.only_one (Calls.verdict lent.now) }
{
    let Some(w) = layout::read(lent) else {
        return Err(no_record());
    };
    let verdict = word::verdict(w)?;
    Ok(verdict as usize)
}

// The verdict on the word. Refusals: 8.
pub fn fz_verdict(lent: &[u8], value: &mut usize) -> u8
    ensures { (result ≡ Calls.returned (Calls.verdict lent.now)) × (value.new ≡ Calls.value_by Calls.only_one (Calls.verdict lent.now)) }
{
    returned(verdict(lent), value)
}

fn place(lent: &[u8]) -> Result<usize, Refusal>
    ensures { result ≡ Calls.number_by Calls.placed (Calls.place lent.now) }
{
    let Some(w) = layout::read(lent) else {
        return Err(no_record());
    };
    let place = word::place(w)?;
    Ok(place.unwrap_or(255))
}

// The place of the tone, 255 where there is none. Refusals: 8.
pub fn fz_place(lent: &[u8], value: &mut usize) -> u8
    ensures { (result ≡ Calls.returned (Calls.place lent.now)) × (value.new ≡ Calls.value_by Calls.placed (Calls.place lent.now)) }
{
    returned(place(lent), value)
}

fn decision(lent: &[u8]) -> Result<usize, Refusal>
    ensures { result ≡ Calls.number_by Calls.only_one (Calls.decision lent.now) }
{
    let Some(w) = layout::read(lent) else {
        return Err(no_record());
    };
    let decision = word::decision(w)?;
    Ok(decision_number(decision))
}

// The decision on the word: 0 keep, 1 restore. Refusals: 8.
pub fn fz_decision(lent: &[u8], value: &mut usize) -> u8
    ensures { (result ≡ Calls.returned (Calls.decision lent.now)) × (value.new ≡ Calls.value_by Calls.only_one (Calls.decision lent.now)) }
{
    returned(decision(lent), value)
}

fn ruling(mode: u8, keys: &[u8], text: &[u8]) -> Result<usize, Refusal>
    ensures { result ≡ Calls.number_by Calls.only_one (Calls.commit mode keys.now text.now) }
{
    let ruling = commit::rule(mode, keys, text)?;
    match ruling {
        Ruling::Keep(_) => Ok(0),
        Ruling::Restore => Ok(1),
    }
}

// Commit and its question in one: 0 the text is kept, 1 the keys are handed back. Refusals: 1, 2 (32), 2 (96), 3, 5.
pub fn fz_commit(mode: u8, keys: &[u8], text: &[u8], value: &mut usize) -> u8
    ensures { (result ≡ Calls.returned (Calls.commit mode keys.now text.now)) × (value.new ≡ Calls.value_by Calls.only_one (Calls.commit mode keys.now text.now)) }
{
    returned(ruling(mode, keys, text), value)
}

// A shown syllable as its standard key list; the value is the keys written. Refusals: 1, 2 (96), 6, 7, 4.
pub fn fz_spell(mode: u8, text: &[u8], out: &mut [u8], value: &mut usize) -> u8
    ensures { (result ≡ Calls.returned (Calls.spell mode text.now out.old)) × (value.new ≡ Calls.value_by Calls.only_one (Calls.spell mode text.now out.old)) × (out.new ≡ Calls.spell_output mode text.now out.old) }
{
    returned(speller::spell(mode, text, out), value)
}

// A drill as a recording; each press is one number, its key and 256 times its milliseconds; the value is the bytes written. Refusals: 1; 2, 3, 11 with the press's place; 4.
pub fn fz_record(mode: u8, presses: &[u64], out: &mut [u8], value: &mut usize) -> u8
    ensures { (result ≡ Calls.returned (Recordings.record_drill mode presses.now out.old)) × (value.new ≡ Calls.value_by Calls.only_one (Recordings.record_drill mode presses.now out.old)) × (out.new ≡ Recordings.record_output mode presses.now out.old) }
{
    returned(recording::write(mode, presses, out), value)
}

fn begun(recording: &[u8], at: &mut usize) -> Result<usize, Refusal>
    ensures { (result ≡ Calls.number_by Calls.only_one (Recordings.begin recording.now)) × (at.new ≡ Recordings.begin_at recording.now at.old) }
{
    let begun = recording::begin(recording)?;
    *at = begun.at;
    Ok(begun.progress.mode as usize)
}

// The mode in front of a recording is the value, and `at` the place of the first press. Refusals: 10, 1, at place 0.
pub fn fz_begin(recording: &[u8], at: &mut usize, value: &mut usize) -> u8
    ensures { (result ≡ Calls.returned (Recordings.begin recording.now)) × (value.new ≡ Calls.value_by Calls.only_one (Recordings.begin recording.now)) × (at.new ≡ Recordings.begin_at recording.now at.old) }
{
    returned(begun(recording, at), value)
}

// A press as its number; the end, where no press is, as 0: there is no key 0.
fn press_number(press: Result<Option<KeyPress>, Refusal>) -> Result<usize, Refusal>
    ensures { result ≡ Calls.number_by Calls.only_one (Recordings.press_says press) }
{
    match press? {
        Some(x) => Ok(x.key as usize + 256 * (x.milliseconds as usize)),
        None => Ok(0),
    }
}

// The press at a place; the value is its number, and 0 at the end. Place, keys of the word that has begun and milliseconds so far move on behind it,
// and stay at the end and where the step is refused. Refusals: 10, 2, 3, 11 with their places.
pub fn fz_next(
    recording: &[u8],
    mode: u8,
    at: &mut usize,
    in_word: &mut usize,
    milliseconds: &mut usize,
    value: &mut usize,
) -> u8
    ensures { (result ≡ Calls.returned (Recordings.next recording.now mode at.old in_word.old milliseconds.old)) × (value.new ≡ Calls.value_by Calls.only_one (Recordings.next recording.now mode at.old in_word.old milliseconds.old)) × (at.new ≡ Recordings.next_at recording.now mode at.old in_word.old milliseconds.old) × (in_word.new ≡ Recordings.next_in_word recording.now mode at.old in_word.old milliseconds.old) × (milliseconds.new ≡ Recordings.next_milliseconds recording.now mode at.old in_word.old milliseconds.old) }
{
    let progress = Progress {
        mode,
        in_word: *in_word,
        milliseconds: *milliseconds as u64,
    };
    let step = recording::step_at(recording, *at, progress);
    let onward = step.progress;
    *at = step.at;
    *in_word = onward.in_word;
    *milliseconds = onward.milliseconds as usize;
    returned(press_number(step.press), value)
}

fn replayed(recording: &[u8], out: &mut [u8], summary: &mut [usize; 7]) -> Result<usize, Refusal>
    ensures { (result ≡ Calls.number_by Calls.only_one (Recordings.replay recording.now out.old)) × (out.new ≡ Recordings.replay_output recording.now out.old) × (summary.new ≡ Recordings.replay_summary recording.now out.old summary.old) }
{
    let replayed = replay::replay(recording, out);
    let bytes = replayed.answer?;
    let all = replayed.summary;
    *summary = [
        all.words,
        all.kept,
        all.restored,
        all.acted,
        all.undone,
        all.appended,
        all.milliseconds as usize,
    ];
    Ok(bytes)
}

// The words of a recording, each committed and with a newline, and the summary; the value is the bytes written. Refusals: 10, 1, 2, 3, 11 with the place; 4.
pub fn fz_replay(
    recording: &[u8],
    out: &mut [u8],
    summary: &mut [usize; 7],
    value: &mut usize,
) -> u8
    ensures { (result ≡ Calls.returned (Recordings.replay recording.now out.old)) × (value.new ≡ Calls.value_by Calls.only_one (Recordings.replay recording.now out.old)) × (out.new ≡ Recordings.replay_output recording.now out.old) × (summary.new ≡ Recordings.replay_summary recording.now out.old summary.old) }
{
    returned(replayed(recording, out, summary), value)
}
