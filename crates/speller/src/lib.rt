// The speller: shown text back to keystrokes. A text is read letter by letter, asked whether it is a syllable as shown, and written as its standard key list.
#![tactic(auto)]

mod key_list;

ghost use Rattle.std.specs.Prelude.{◌≡◌, List, map, ◌++◌, ◌∷◌, [], ℕ, ◌+◌, ◌<◌, ◌≤◌, length};
ghost use Rattle.rules.specs.Letters.{is};
ghost use Rattle.rules.specs.TheWord.{most_bytes, letter};
ghost use Rattle.rules.specs.CodePoints.{Sign};
ghost use Rattle.rules.specs.Speller.{key_of_letter as key_of_letter_of, shape_key as shape_key_of, tone_key as tone_key_of, awaits_o as awaits_o_of, letters_in, fault as fault_of};
ghost use Rattle.rules.specs.WhatComesBack.{spell as spell_of};
ghost use Rattle.speller.specs.TextRead.{reading_of, ReadInto};

use key_list::KeyList;
use rules::{
    ACUTE, BREVE, CIRCUMFLEX, DOT, GRAVE, HOOK, HORN, NO_TONE, Refusal, STROKE, TILDE, Word, refuse,
};

// A text as far as it is read: how many bytes and letters; the first tone, the place of the letter that carries it, and whether another letter carries one.
#[derive(Clone, Copy)]
struct ReadSoFar {
    at: usize,
    count: usize,
    tone: u8,
    place: Option<usize>,
    twice: bool,
}

impl ReadSoFar {
    fn new() -> Self
        ensures { result ≡ reading_of 0 [] }
    {
        ReadSoFar {
            at: 0,
            count: 0,
            tone: NO_TONE,
            place: None,
            twice: false,
        }
    }

    // One letter more, with this tone on it and so many bytes long.
    fn add(&mut self, tone: u8, length: usize)
        requires { (self.old.at + length ≤ most_bytes) × (self.old.count < most_bytes) }
        ensures { (ss : List Sign) (s : Sign) → self.old ≡ reading_of self.old.at ss → tone ≡ s.tone → self.new ≡ reading_of (self.old.at + length) (ss ++ (s ∷ [])) }
    {
        if tone != NO_TONE {
            if self.tone == NO_TONE {
                self.tone = tone;
                self.place = Some(self.count);
            } else {
                self.twice = true;
            }
        }
        self.at += length;
        self.count += 1;
    }

    // Not a syllable as shown, by the document's numbers: 8 if two letters carry a tone; else the verdict 1 to 7; else 9 if the tone stands on another letter; 0 a syllable as shown.
    fn fault(&self, letters: &[u16]) -> u8
        ensures { (ss : List Sign) (at : ℕ) → self.now ≡ reading_of at ss → map letter letters.now ≡ letters_in ss → result ≡ fault_of ss }
    {
        if self.twice {
            return 8;
        }
        let verdict = syllable::verdict(letters, self.tone);
        if verdict != 0 {
            return verdict;
        }
        if self.place == parts::tone_place(letters, self.tone) {
            0
        } else {
            9
        }
    }
}

// Reads the letters to the end of the text, or up to the first byte where no letter of the alphabet starts. A `while`,
// for a letter has up to three bytes: the places are no range.
fn read(text: &[u8], letters: &mut [u16]) -> ReadSoFar
    requires { (length text.now ≤ most_bytes) × (length letters.old ≡ most_bytes) }
    ensures { ReadInto text.now letters.new result }
{
    let mut r = ReadSoFar::new();
    while r.at < text.len() {
        let Some(front) = letters::read(text, r.at) else {
            return r;
        };
        letters[r.count] = front.number;
        r.add(front.tone, front.length);
    }
    r
}

// A letter in its case.
fn key_of_letter(x: u16) -> u8
    requires { 32 ≤ (letter x).base }
    ensures { result ≡ key_of_letter_of (letter x) }
{
    let base = rules::base(x);
    if rules::is_capital(x) {
        base - 32
    } else {
        base
    }
}

// The shape or stroke key of a letter; 0 for a plain letter, which has none (`key_for` in the crate rules).
fn shape_key(mode: u8, x: u16) -> u8
    ensures { result ≡ shape_key_of mode (letter x) }
{
    match (mode, rules::shape(x)) {
        (Word::TELEX, CIRCUMFLEX) => rules::base(x),
        (Word::TELEX, HORN | BREVE) => b'w',
        (Word::TELEX, STROKE) => b'd',
        (_, CIRCUMFLEX) => b'6',
        (_, HORN) => b'7',
        (_, BREVE) => b'8',
        (_, STROKE) => b'9',
        _ => 0,
    }
}

// The key of a tone; 0 for no tone, which has none (`key_for` in the crate rules).
fn tone_key(mode: u8, tone: u8) -> u8
    ensures { result ≡ tone_key_of mode tone }
{
    match (mode, tone) {
        (Word::TELEX, ACUTE) => b's',
        (Word::TELEX, GRAVE) => b'f',
        (Word::TELEX, HOOK) => b'r',
        (Word::TELEX, TILDE) => b'x',
        (Word::TELEX, DOT) => b'j',
        (_, ACUTE) => b'1',
        (_, GRAVE) => b'2',
        (_, HOOK) => b'3',
        (_, TILDE) => b'4',
        (_, DOT) => b'5',
        _ => 0,
    }
}

// One horn key after the o of ươ: a ư directly before an ơ has no key of its own.
fn awaits_o(x: u16, behind: &[u16]) -> bool
    ensures { result ≡ awaits_o_of (letter x) (map letter behind.now) }
{
    match behind {
        [next, ..] => rules::is(x, b'u', HORN) & rules::is(*next, b'o', HORN),
        [] => false,
    }
}

// Shown text back to its one standard key list. Refusals: 1, 2 (96), 6 with the place, 7 with 8, 1 to 7 or 9, then 4.
pub fn spell(mode: u8, text: &[u8], out: &mut [u8]) -> Result<usize, Refusal>
    ensures { (result ≡ (spell_of mode text.now out.old).answer) × (out.new ≡ (spell_of mode text.now out.old).output) }
{
    if !keys::is_mode(mode) {
        return refuse(1, 0);
    }
    let n = text.len();
    if Word::TEXT < n {
        return refuse(2, Word::TEXT);
    }
    // The letters read, their count in the reading: nothing is allocated.
    let mut letters = [0; Word::TEXT];
    let r = read(text, &mut letters);
    if r.at < n {
        return refuse(6, r.at);
    }
    let word = &letters[..r.count];
    let number = r.fault(word);
    if number != 0 {
        return refuse(7, number as usize);
    }
    let mut keys = KeyList::new();
    keys.standard(mode, word, r.tone);
    output::write(keys.held(), out)
}
