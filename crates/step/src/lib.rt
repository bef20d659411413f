// One key typed into a word: refused, or acted, undone or appended by the rules of its role, and counted.
#![tactic(auto)]

ghost use Rattle.std.specs.Prelude.{◌≡◌, ◌≤◌, ◌<◌};
ghost use Rattle.rules.specs.TheWord.{appended as appended_of, undone as undone_of};
ghost use Rattle.rules.specs.KeyRoles.{letter_of_key, asks_second_horn as asks_second_horn_of, undo as undo_of, tone_does, unless_closed, role as role_of};
ghost use Rattle.rules.specs.LettersOfAMode.{AllFine};
ghost use Rattle.rules.specs.WhatComesBack.{step as step_of};
ghost use Rattle.step.specs.LentLetters.{LettersInFront, RoomForLetter, NoSecondHorn, appended_plainly, second_horn_on, with_second_horn, LeavesState, DoesAsRuled, state_in, after_edit, rest_with_tone, counted_in, unless_closed_role};
ghost use Rattle.step.specs.InPlace.{held_in, ReadyAt, TypedAt, not_taken as not_taken_of, step_at as step_at_of};

use records::Numbers;
use rules::{Act, HORN, NO_TONE, Outcome, Refusal, Role, Step, ToneKey, Touched, Word, refuse};

mod edits;
mod keeping;

// What a shape or stroke key did to the letters: nothing, a mark taken off, or a change; and on which of them.
#[derive(Clone, Copy)]
enum Edit {
    Nothing,
    Off(Touched),
    Change(Act, Touched),
}

// A word's state beside its letters. These stay lent: by value in one struct with it they would be copied.
#[derive(Clone, Copy)]
struct Rest {
    count: u8,
    tone: u8,
    closed: bool,
}

impl Rest {
    fn with_tone(self, tone: u8) -> Rest
        ensures { result ≡ rest_with_tone self tone }
    {
        Rest { tone, ..self }
    }
}

// What a key did, on which letters, and the state beside the letters then, before the key is kept and counted.
#[derive(Clone, Copy)]
struct Done {
    outcome: Outcome,
    touched: Touched,
    rest: Rest,
}

// The key as a plain letter after the others.
fn append(letters: &mut [u16], rest: Rest, key: u8) -> Rest
    requires { RoomForLetter letters.old rest.count }
    ensures { LeavesState (appended_plainly (state_in letters.old rest) (letter_of_key key)) letters.old result letters.new }
{
    let n = rest.count as usize;
    letters[n] = keys::letter_of_key(key);
    Rest {
        count: rest.count + 1,
        ..rest
    }
}

fn appended(letters: &mut [u16], rest: Rest, key: u8, touched: Touched) -> Done
    requires { RoomForLetter letters.old rest.count }
    ensures { DoesAsRuled (appended_of touched (appended_plainly (state_in letters.old rest) (letter_of_key key))) letters.old result letters.new }
{
    Done {
        outcome: Outcome::Appended,
        touched,
        rest: append(letters, rest, key),
    }
}

// What is left once the mark is off: the key is appended and the word closed.
fn undone(letters: &mut [u16], rest: Rest, key: u8, touched: Touched) -> Done
    requires { RoomForLetter letters.old rest.count }
    ensures { DoesAsRuled (undone_of touched (undo_of (state_in letters.old rest) (letter_of_key key))) letters.old result letters.new }
{
    let next = append(letters, rest, key);
    Done {
        outcome: Outcome::Undone,
        touched,
        rest: Rest {
            closed: true,
            ..next
        },
    }
}

// Tone key: an undo if that tone is there already; else the tone, if the letters are admitted and it fits the final.
// Clear: no tone, if there was one.
fn tone_key(letters: &mut [u16], rest: Rest, key: u8, role: ToneKey) -> Done
    requires { RoomForLetter letters.old rest.count × NoSecondHorn key }
    ensures { DoesAsRuled (tone_does role (state_in letters.old rest) (letter_of_key key)) letters.old result letters.new }
{
    let tone = rest.tone;
    let ToneKey::SetTone(wanted) = role else {
        if tone == NO_TONE {
            return appended(letters, rest, key, Touched::NoLetter);
        }
        return Done {
            outcome: Outcome::Acted(Act::Clear),
            touched: Touched::NoLetter,
            rest: rest.with_tone(NO_TONE),
        };
    };
    if tone == wanted {
        return undone(letters, rest.with_tone(NO_TONE), key, Touched::NoLetter);
    }
    let n = rest.count as usize;
    if syllable::takes_tone(&letters[..n], wanted) {
        return Done {
            outcome: Outcome::Acted(Act::Tone(wanted)),
            touched: Touched::NoLetter,
            rest: rest.with_tone(wanted),
        };
    }
    appended(letters, rest, key, Touched::NoLetter)
}

// What an edit of the letters does: nothing is an appended key, a mark taken off an undo, a change an act.
fn edit_does(letters: &mut [u16], rest: Rest, key: u8, edit: Edit) -> Done
    requires { RoomForLetter letters.old rest.count × NoSecondHorn key }
    ensures { DoesAsRuled (after_edit edit (state_in letters.old rest) (letter_of_key key)) letters.old result letters.new }
{
    match edit {
        Edit::Off(touched) => undone(letters, rest, key, touched),
        Edit::Change(act, touched) => Done {
            outcome: Outcome::Acted(act),
            touched,
            rest,
        },
        Edit::Nothing => appended(letters, rest, key, Touched::NoLetter),
    }
}

// In a closed word no key has a role.
fn role_in(closed: bool, mode: u8, key: u8) -> Role
    ensures { result ≡ unless_closed_role closed (role_of mode key) }
{
    if closed {
        return Role::NoRole;
    }
    keys::role(mode, key)
}

// The letters that, after huơ, ask for the horn on its u too.
fn asks_second_horn(b: u8) -> bool
    ensures { result ≡ asks_second_horn_of b }
{
    matches!(b, b'i' | b'u') | classes::is_final(b)
}

// The horn that an appended letter puts on the u of an open huơ, khuơ or thuơ, and that u. Only letters without a role put it on.
fn second_horn(letters: &mut [u16], rest: Rest, key: u8) -> Touched
    requires { LettersInFront letters.old rest.count }
    ensures { (result ≡ second_horn_on letters.old rest (letter_of_key key)) × (letters.new ≡ with_second_horn letters.old rest (letter_of_key key)) }
{
    let n = rest.count as usize;
    if !targets::awaits_second_horn(&letters[..n])
        || rest.closed
        || !asks_second_horn(rules::base(keys::letter_of_key(key)))
    {
        return Touched::NoLetter;
    }
    letters[n - 2] = rules::reshaped(letters[n - 2], HORN);
    Touched::OneLetter(n - 2)
}

// What a key does by its role, one arm for each of the document's roles: one that has none is appended.
fn key_does(letters: &mut [u16], rest: Rest, mode: u8, key: u8) -> Done
    requires { RoomForLetter letters.old rest.count × AllFine mode (state_in letters.old rest).letters }
    ensures { DoesAsRuled (unless_closed rest.closed (role_of mode key) (state_in letters.old rest) (letter_of_key key)) letters.old result letters.new }
{
    let count = rest.count as usize;
    match role_in(rest.closed, mode, key) {
        Role::ToneRole(tone) => tone_key(letters, rest, key, tone),
        Role::ShapeRole(shape) => {
            let edit = edits::shape_edit(&mut letters[..count], shape);
            edit_does(letters, rest, key, edit)
        }
        Role::StrokeRole => {
            let edit = edits::stroke_edit(&mut letters[..count]);
            edit_does(letters, rest, key, edit)
        }
        Role::NoRole => {
            let touched = second_horn(letters, rest, key);
            appended(letters, rest, key, touched)
        }
    }
}

// How many keys acted, undid and were appended.
#[derive(Clone, Copy)]
struct Counts {
    acted: u8,
    undone: u8,
    appended: u8,
}

// One count raised by what a key did.
fn counted(counts: Counts, outcome: Outcome) -> Counts
    requires { (counts.acted ≤ 32) × (counts.undone ≤ 32) × (counts.appended ≤ 32) }
    ensures { result ≡ counted_in counts outcome }
{
    let mut next = counts;
    if let Outcome::Acted(_) = outcome {
        next.acted = counts.acted + 1;
        return next;
    }
    if let Outcome::Undone = outcome {
        next.undone = counts.undone + 1;
        return next;
    }
    next.appended = counts.appended + 1;
    next
}

// A key that a word in range has room for and its mode allows: kept, and counted by what it did. The letters were taken out of the bytes,
// and are changed where they are lent; of all else what the key changed is stored where it lies.
fn typed(lent: &mut [u8], letters: &mut [u16], mode: u8, n: Numbers, key: u8) -> Outcome
    requires { ReadyAt lent.old letters.old mode n key }
    ensures { TypedAt (step_of (held_in lent.old letters.old mode n) key) lent.old result letters.new lent.new }
{
    let rest = Rest {
        count: n.count,
        tone: n.tone,
        closed: n.closed,
    };
    let Done {
        outcome,
        touched,
        rest: now,
    } = key_does(letters, rest, mode, key);
    let count = n.count as usize;
    lent[layout::AT_KEYS + n.typed as usize] = key;
    keeping::put_appender(
        &mut lent[layout::AT_APPENDED_BY..layout::AT_SHAPED_BY],
        count,
        outcome,
        n.typed,
    );
    keeping::put_shapers(
        &mut lent[layout::AT_SHAPED_BY..layout::AT_TONED_BY],
        count,
        outcome,
        touched,
        n.typed,
    );
    lent[layout::AT_TONED_BY] = keeping::toner(
        n.tone,
        now.tone,
        n.typed,
        lent[layout::AT_TONED_BY],
    );
    let counts = counted(
        Counts {
            acted: n.acted,
            undone: n.undone,
            appended: n.appended,
        },
        outcome,
    );
    keeping::put_numbers(
        lent,
        Numbers {
            count: now.count,
            tone: now.tone,
            closed: now.closed,
            typed: n.typed + 1,
            acted: counts.acted,
            undone: counts.undone,
            appended: counts.appended,
        },
    );
    outcome
}

// A key that is not taken: the word is full, or else its mode does not allow the key. One question leads here and not two: what stands
// behind many, the compiler takes for seldom run.
fn not_taken(at: usize) -> Result<Outcome, Refusal>
    ensures { result ≡ not_taken_of at }
{
    if Word::KEYS <= at {
        return refuse(2, Word::KEYS);
    }
    refuse(3, at)
}

// One key, typed into a word that is lent as its record's bytes, where they lie. Refusals: 8, also for bytes that are no record, 2, 3; the
// bytes are then as they were.
pub fn step_at(lent: &mut [u8], key: u8) -> Result<Outcome, Refusal>
    ensures { (result ≡ (step_at_of lent.old key).answer) × (lent.new ≡ (step_at_of lent.old key).bytes) }
{
    let Some(w) = layout::read(lent) else {
        return refuse(8, 0);
    };
    let mode = w.mode;
    let n = records::numbers_of(w);
    if records::numbers_wrong(&w) | records::places_wrong(&w) {
        return refuse(8, 0);
    }
    let at = w.typed as usize;
    // The keys are taken out of the word, for the same reason as the places in records::places_wrong.
    let kept = w.keys;
    if !records::keys_allowed(mode, &kept[..at]) {
        return refuse(8, 0);
    }
    let mut letters = layout::letters_of(lent);
    if !records::letters_allowed(mode, &letters[..w.count as usize]) {
        return refuse(8, 0);
    }
    if (Word::KEYS <= at) | !keys::is_key(mode, key) {
        return not_taken(at);
    }
    let outcome = typed(lent, &mut letters, mode, n, key);
    layout::put_letters(&letters, lent);
    Ok(outcome)
}

// One key. Refusals: 8, 2, 3; the word is then as it was.
pub fn step(w: Word, key: u8) -> Step
    ensures { result ≡ step_of w key }
{
    let mut bytes = [0; layout::LENGTH];
    layout::write(w, &mut bytes);
    let answer = step_at(&mut bytes, key);
    // What was written is a record, and stays one.
    let word = layout::read(&bytes).unwrap_or(w);
    Step { answer, word }
}
