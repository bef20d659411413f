// The types of document 01: the word's record, the roles of keys, and the answer of each entry.
// Every rule over them is a definition in specs/, one file for each section of the document.
#![tactic(auto)]

ghost use Rattle.std.specs.Prelude.{◌≡◌, ◌%◌, Err};
ghost use Rattle.rules.specs.Letters.{telex, vni, small, is as is_of};
ghost use Rattle.rules.specs.TheWord.{new_word, letter as letter_of, number};
ghost use Rattle.rules.specs.KeyRoles.{shaped};

// A word: its mode, its letters, one tone for all of them, the closed mark, the keys typed and the counts of what they did.
// A letter is one number: its base, 256 times its shape, and 2048 more for a capital.
// Beside each letter stand the places among the keys, from 0, of the key that appended it and of the last that shaped it, and
// beside the tone that of the last key that set it; NO_KEY where there is none.
// Every field is public, so any record can be handed in; what is out of range is refused (refusal 8). So mode and tone are numbers and no
// enums, and the arrays stand beside their counts: of any numbers the entries say what the rules say, and nothing is allocated.
#[derive(Clone, Copy)]
pub struct Word {
    pub mode: u8,
    pub letters: [u16; Word::KEYS],
    pub appended_by: [u8; Word::KEYS],
    pub shaped_by: [u8; Word::KEYS],
    pub count: u8,
    pub tone: u8,
    pub toned_by: u8,
    pub closed: bool,
    pub keys: [u8; Word::KEYS],
    pub typed: u8,
    pub acted: u8,
    pub undone: u8,
    pub appended: u8,
}

impl Word {
    pub const KEYS: usize = 32;

    pub const TEXT: usize = 96;

    pub const TELEX: u8 = 0;

    pub const VNI: u8 = 1;

    // No place of a key: no key shaped the letter, or none set the tone. A number, since a place is a byte of the record.
    pub const NO_KEY: u8 = 255;

    // A new Telex word.
    pub fn telex() -> Word
        ensures { result ≡ new_word telex }
    {
        Word::empty(Word::TELEX)
    }

    // A new VNI word. An entry of its own beside `telex`, with its clause.
    pub fn vni() -> Word
        ensures { result ≡ new_word vni }
    {
        Word::empty(Word::VNI)
    }

    fn empty(mode: u8) -> Word
        ensures { result ≡ new_word mode }
    {
        Word {
            mode,
            letters: [0; Word::KEYS],
            appended_by: [0; Word::KEYS],
            shaped_by: [0; Word::KEYS],
            count: 0,
            tone: NO_TONE,
            toned_by: Word::NO_KEY,
            closed: false,
            keys: [0; Word::KEYS],
            typed: 0,
            acted: 0,
            undone: 0,
            appended: 0,
        }
    }
}

// The shapes of a letter: numbers, since a letter's number holds one, whatever it is.
pub const PLAIN: u8 = 0;

pub const CIRCUMFLEX: u8 = 1;

pub const BREVE: u8 = 2;

pub const HORN: u8 = 3;

pub const STROKE: u8 = 4;

// What a capital adds to a letter's number.
pub const CAPITAL: u16 = 2048;

// A letter's number taken apart: its base,
pub fn base(letter: u16) -> u8
    ensures { result ≡ (letter_of letter).base }
{
    (letter % 256) as u8
}

// its shape,
pub fn shape(letter: u16) -> u8
    ensures { result ≡ (letter_of letter).shape }
{
    (letter / 256 % 8) as u8
}

// and its case.
pub fn is_capital(letter: u16) -> bool
    ensures { result ≡ (letter_of letter).capital }
{
    letter / CAPITAL % 2 == 1
}

// The letter of this base in this shape, in either case.
pub fn is(letter: u16, base: u8, shape: u8) -> bool
    ensures { result ≡ is_of (letter_of letter) (small base shape) }
{
    (letter % 256 == base as u16) & (letter / 256 % 8 == shape as u16)
}

// The same letter in another shape, one of the eight that a letter's number has room for.
pub fn reshaped(letter: u16, shape: u8) -> u16
    ensures { result ≡ number (shaped (shape % 8) (letter_of letter)) }
{
    letter % 256 + 256 * ((shape % 8) as u16) + letter / CAPITAL % 2 * CAPITAL
}

// The tones of a word: numbers, since a record may hold any.
pub const NO_TONE: u8 = 0;

pub const ACUTE: u8 = 1;

pub const GRAVE: u8 = 2;

pub const HOOK: u8 = 3;

pub const TILDE: u8 = 4;

pub const DOT: u8 = 5;

// What a key is for, in its mode. The three families: tone with clear, vowel shape, stroke.
#[derive(Clone, Copy, Debug, PartialEq, Eq)]
pub enum Role {
    ToneRole(ToneKey),
    ShapeRole(ShapeKey),
    StrokeRole,
    NoRole,
}

#[derive(Clone, Copy, Debug, PartialEq, Eq)]
pub enum ToneKey {
    SetTone(u8),
    ClearTone,
}

// Telex's circumflex keys stand each for its own letter, VNI's for a, e and o; HornBreve is Telex's w.
#[derive(Clone, Copy, Debug, PartialEq, Eq)]
pub enum ShapeKey {
    CircumflexOn(u8),
    Circumflex,
    Breve,
    Horn,
    HornBreve,
}

// What a key did: acted, and as what; undone; or appended.
#[derive(Clone, Copy, Debug, PartialEq, Eq)]
pub enum Outcome {
    Acted(Act),
    Undone,
    Appended,
}

#[derive(Clone, Copy, Debug, PartialEq, Eq)]
pub enum Act {
    Tone(u8),
    Shape(u8),
    Stroke,
    Clear,
}

// The letters that a key put a shape on or took it off: none, one, or one and the next.
#[derive(Clone, Copy, Debug, PartialEq, Eq)]
pub enum Touched {
    NoLetter,
    OneLetter(usize),
    TwoLetters(usize),
}

#[derive(Clone, Copy, Debug, PartialEq, Eq)]
pub enum Decision {
    Keep,
    Restore,
}

// A refusal: its number in the table, and the number returned. Both are what each entry promises to return (`first_row` in specs/Refusals.antt), and
// what the programs write and C is given: so a number, and no enum that would be turned into it everywhere.
#[derive(Clone, Copy, Debug, PartialEq, Eq)]
pub struct Refusal {
    pub number: u8,
    pub value: usize,
}

// The refusal of any entry.
pub fn refuse<T>(number: u8, value: usize) -> Result<T, Refusal>
    ensures { result ≡ Err (record { number = number; value = value }) }
{
    Err(Refusal { number, value })
}

// The answers with a word beside them: a refusal hands back a word too, a new one or the old one, so the word is not in the `Ok`.
#[derive(Drop)]
pub struct Start {
    pub answer: Result<(), Refusal>,
    pub word: Word,
}

#[derive(Drop)]
pub struct Step {
    pub answer: Result<Outcome, Refusal>,
    pub word: Word,
}

#[derive(Drop)]
pub struct TypeAll {
    pub answer: Result<(), Refusal>,
    pub word: Word,
}
