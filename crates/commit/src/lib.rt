// Commit: the shown text or the raw keys, a part of what was lent, according to the decision.
#![tactic(auto)]

ghost use Rattle.std.specs.Prelude.{◌≡◌, false};
ghost use Rattle.rules.specs.TheWord.{word_of};
ghost use Rattle.rules.specs.Refusals.{out_of_range};
ghost use Rattle.rules.specs.WhatComesBack.{commit as commit_of, commit_answer};
ghost use Rattle.commit.specs.Rulings.{judged, ruling_of, handed_from};

use rules::{Decision, Refusal, Word, refuse};

// What is to be handed back: so many bytes of the text, or the keys.
#[derive(Clone, Copy, Debug, PartialEq, Eq)]
pub enum Ruling {
    Keep(usize),
    Restore,
}

// The lent text is exactly what the word shows: the decision on the word; else refusal 5.
// The word is in range, and is not asked about again.
fn judge(w: &Word, text: &[u8]) -> Result<Ruling, Refusal>
    requires { out_of_range w.now ≡ false }
    ensures { result ≡ judged (word_of w.now) text.now }
{
    let letters = &w.letters[..w.count as usize];
    let mut shown = [0; Word::TEXT];
    let n = show::in_room(letters, w.tone, &mut shown);
    // By iterators: == of slices, which takes many bytes at once, is 500 bytes of code more.
    if !text.iter().eq(&shown[..n]) {
        return refuse(5, 0);
    }
    let untouched = (w.acted == 0) & (w.undone == 0);
    let verdict = syllable::verdict(letters, w.tone);
    match word::decided(letters, untouched, w.closed, verdict) {
        Decision::Keep => Ok(Ruling::Keep(n)),
        Decision::Restore => Ok(Ruling::Restore),
    }
}

// The one look that commit and its question take: refused, or the decision on the word that the keys make. Refusals: 1, 2 (32), 2 (96), 3, 5.
pub fn rule(mode: u8, keys: &[u8], text: &[u8]) -> Result<Ruling, Refusal>
    ensures { result ≡ ruling_of mode keys.now text.now }
{
    if !keys::is_mode(mode) {
        return refuse(1, 0);
    }
    if Word::KEYS < keys.len() {
        return refuse(2, Word::KEYS);
    }
    if Word::TEXT < text.len() {
        return refuse(2, Word::TEXT);
    }
    let all = word::type_all(mode, keys);
    all.answer?;
    judge(&all.word, text)
}

// The front part of the text or the keys, according to the decision; an empty part of the keys where it is refused.
pub fn commit<'a>(mode: u8, keys: &'a [u8], text: &'a [u8]) -> &'a [u8]
    ensures { (result.now ≡ commit_of mode keys.now text.now) × (result.ref_ptr ≡ handed_from (ruling_of mode keys.now text.now) keys.entry.ref_ptr text.entry.ref_ptr) }
{
    match rule(mode, keys, text) {
        Ok(Ruling::Keep(n)) => &text[..n],
        Ok(Ruling::Restore) => keys,
        Err(_) => &keys[..0],
    }
}

// Is commit refused on the same input, and how. Refusals: 1, 2 (32), 2 (96), 3, 5.
pub fn answer(mode: u8, keys: &[u8], text: &[u8]) -> Result<(), Refusal>
    ensures { result ≡ commit_answer mode keys.now text.now }
{
    rule(mode, keys, text)?;
    Ok(())
}
