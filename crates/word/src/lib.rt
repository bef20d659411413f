// The word: start, a whole list of keys; the tone's place, the verdict and the decision of a word. One key is `step::step`.
#![tactic(auto)]

ghost use Rattle.std.specs.Prelude.{◌≡◌, ◌≤◌, T, length, map, position, not};
ghost use Rattle.rules.specs.TheWord.{letter, new_word, holding};
ghost use Rattle.rules.specs.Decision.{starts_with_đ};
ghost use Rattle.word.specs.Refusing.{refused_typing, range_answer};
ghost use Rattle.word.specs.Deciding.{decided_by};
ghost use Rattle.rules.specs.KeyRoles.{is_key};
ghost use Rattle.rules.specs.Refusals.{all, is_mode as is_mode_of};
ghost use Rattle.rules.specs.WhatComesBack.{start as start_of, typed, type_all as type_all_of, place_answer, verdict_answer, decision_answer};

use rules::{Decision, Refusal, STROKE, Start, TypeAll, Word, refuse};

// A new word in a mode. Refusals: 1.
pub fn start(mode: u8) -> Start
    ensures { result ≡ start_of mode }
{
    let (answer, word) = match mode {
        Word::TELEX => (Ok(()), Word::telex()),
        Word::VNI => (Ok(()), Word::vni()),
        _ => (
            Err(Refusal {
                number: 1,
                value: 0,
            }),
            Word::telex(),
        ),
    };
    Start { answer, word }
}

// The place of the first key that the mode does not allow.
fn first_wrong(mode: u8, keys: &[u8]) -> Option<usize>
    ensures { result ≡ position (λ key. not (is_key mode key)) keys.now }
{
    keys.iter().position(|&key| !keys::is_key(mode, key))
}

// Allowed keys, few enough, typed one after the other into the bytes of a new word, of which the record is put together once, at the end.
fn typed_all(mode: u8, keys: &[u8]) -> Word
    requires { T (is_mode_of mode) × (length keys.now ≤ 32) × T (all (is_key mode) keys.now) }
    ensures { result ≡ holding (new_word mode) (typed mode keys.now) }
{
    let begun = start(mode).word;
    let mut bytes = [0; layout::LENGTH];
    layout::write(begun, &mut bytes);
    for &key in keys {
        // None is refused: the keys are few enough, and the mode allows them.
        let _ = step::step_at(&mut bytes, key);
    }
    layout::read(&bytes).unwrap_or(begun)
}

// A new Telex word stands beside the refusal, as the clause says: so no `Err` alone.
fn refused(number: u8, value: usize) -> TypeAll
    ensures { result ≡ refused_typing number value }
{
    TypeAll {
        answer: Err(Refusal { number, value }),
        word: Word::telex(),
    }
}

// A whole list of keys, from a new word. Refusals: 1, 2, 3. A function of its own in the programs too, as in the box: put into its caller, it would
// have the letters of the record taken out of its bytes, and put back, at each key.
#[inline(never)]
pub fn type_all(mode: u8, keys: &[u8]) -> TypeAll
    ensures { result ≡ type_all_of mode keys.now }
{
    if !keys::is_mode(mode) {
        return refused(1, 0);
    }
    if Word::KEYS < keys.len() {
        return refused(2, Word::KEYS);
    }
    if let Some(place) = first_wrong(mode, keys) {
        return refused(3, place);
    }
    TypeAll {
        answer: Ok(()),
        word: typed_all(mode, keys),
    }
}

// Refusals: 8.
fn in_range(w: &Word) -> Result<(), Refusal>
    ensures { result ≡ range_answer w.now }
{
    if records::lent_out_of_range(w) {
        refuse(8, 0)
    } else {
        Ok(())
    }
}

// Where the tone is shown. Refusals: 8.
pub fn place(w: Word) -> Result<Option<usize>, Refusal>
    ensures { result ≡ place_answer w }
{
    in_range(&w)?;
    Ok(parts::tone_place(&w.letters[..w.count as usize], w.tone))
}

// The verdict. Refusals: 8.
pub fn verdict(w: Word) -> Result<u8, Refusal>
    ensures { result ≡ verdict_answer w }
{
    in_range(&w)?;
    Ok(syllable::verdict(&w.letters[..w.count as usize], w.tone))
}

// Keep or restore. Refusals: 8.
pub fn decision(w: Word) -> Result<Decision, Refusal>
    ensures { result ≡ decision_answer w }
{
    in_range(&w)?;
    let word = &w.letters[..w.count as usize];
    let untouched = (w.acted == 0) & (w.undone == 0);
    Ok(decided(word, untouched, w.closed, syllable::verdict(word, w.tone)))
}

// Keep if no key acted or undid, or the word is closed, or its first letter is đ, or the verdict is 0; otherwise restore.
pub fn decided(letters: &[u16], untouched: bool, closed: bool, verdict: u8) -> Decision
    ensures { result ≡ decided_by untouched closed (map letter letters.now) verdict }
{
    if untouched || closed || starts_with_d_stroke(letters) || verdict == 0 {
        Decision::Keep
    } else {
        Decision::Restore
    }
}

fn starts_with_d_stroke(letters: &[u16]) -> bool
    ensures { result ≡ starts_with_đ (map letter letters.now) }
{
    letters
        .first()
        .is_some_and(|first| rules::is(*first, b'd', STROKE))
}
