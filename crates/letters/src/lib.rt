// The alphabet in code: which numbers are letters, the code point of a letter, and the letter that stands at a place of a text.
#![tactic(auto)]

ghost use Rattle.std.specs.Prelude.{◌≡◌, ◌<◌, ◌≤◌};
ghost use Rattle.rules.specs.TheWord.{letter as letter_of_number};
ghost use Rattle.rules.specs.KeyRoles.{is_small, is_digit};
ghost use Rattle.rules.specs.CodePoints.{capital_point as capital_point_of, in_case as in_case_of};
ghost use Rattle.letters.specs.Decoding.{follows_on, one_byte as one_byte_of, InTwo, point_of_two as point_of_two_of, two_bytes as two_bytes_of, InThree, point_of_three as point_of_three_of, three_bytes as three_bytes_of, read_as};
ghost use Rattle.letters.specs.LettersRead.{read_at};
ghost use Rattle.letters.specs.Writing.{is_letter as is_letter_of, is_shaped as is_shaped_of, point_or};

mod vowels;

use rules::{CAPITAL, DOT, NO_TONE, STROKE, Word};

// A letter that starts at a place of a text: its number, the tone on it, and its length in bytes.
#[derive(Clone, Copy, Debug, PartialEq, Eq)]
pub struct LetterRead {
    pub number: u16,
    pub tone: u8,
    pub length: usize,
}

// đ: its number as a letter, and its code points.
const D_STROKE: u16 = b'd' as u16 + 256 * STROKE as u16;

const D_STROKE_POINT: u16 = 0x111;

const CAPITAL_D_STROKE_POINT: u16 = D_STROKE_POINT - 1;

// A plain small letter, its own byte: most letters are such.
pub fn is_plain(letter: u16) -> bool
    ensures { result ≡ is_small letter }
{
    (b'a' as u16 <= letter) & (letter <= b'z' as u16)
}

// The letters that carry a shape, without their case: circumflex on a e o, breve on a, horn on o u, stroke on d.
fn is_shaped(small: u16) -> bool
    ensures { result ≡ is_shaped_of small }
{
    matches!(
        small,
        vowels::A_BREVE
            | vowels::A_CIRCUMFLEX
            | vowels::E_CIRCUMFLEX
            | vowels::O_CIRCUMFLEX
            | vowels::O_HORN
            | vowels::U_HORN
            | D_STROKE
    )
}

// A digit: no capital, and in no shape.
fn is_plain_digit(letter: u16) -> bool
    ensures { result ≡ is_digit letter }
{
    (b'0' as u16 <= letter) & (letter <= b'9' as u16)
}

// A number that is a letter which a word of the mode can hold.
pub fn is_letter(mode: u8, letter: u16) -> bool
    ensures { result ≡ is_letter_of mode letter }
{
    if is_plain(letter) {
        return true;
    }
    if 2 * CAPITAL <= letter {
        return false;
    }
    let small = letter % CAPITAL;
    (is_plain(small) | is_shaped(small)) | ((mode == Word::VNI) & is_plain_digit(letter))
}

// The capital is 32 less below 100 hex, else 1 less.
fn capital_point(point: u16) -> u16
    requires { 32 ≤ point }
    ensures { result ≡ capital_point_of point }
{
    if point < 0x100 { point - 32 } else { point - 1 }
}

// The code point of a letter in its case, given that of the small letter.
fn in_case(letter: u16, small: u16) -> u16
    requires { 32 ≤ small }
    ensures { result ≡ in_case_of (letter_of_number letter).capital small }
{
    if rules::is_capital(letter) {
        capital_point(small)
    } else {
        small
    }
}

// The code point of a letter with a tone on it. A digit is its own code point.
// 0 where there is none, and no Option: the clause, by point_or, is a promise.
pub fn point(letter: u16, tone: u8) -> u16
    ensures { result ≡ point_or letter tone }
{
    if 2 * CAPITAL <= letter {
        return 0;
    }
    if DOT < tone {
        return 0;
    }
    let small = letter % CAPITAL;
    if let Some(row) = vowels::row(small) {
        return in_case(letter, vowels::point(row, tone as usize));
    }
    if !is_letter(Word::VNI, letter) {
        return 0;
    }
    if tone != NO_TONE {
        return 0;
    }
    if small == D_STROKE {
        return in_case(letter, D_STROKE_POINT);
    }
    in_case(letter, rules::base(letter) as u16)
}

// A byte that goes on a longer sequence of UTF-8.
fn follows(byte: u8) -> bool
    ensures { result ≡ follows_on byte }
{
    (0x80 <= byte) & (byte < 0xC0)
}

// A letter of one byte is an ASCII letter, in its own case and with no tone.
fn one_byte(first: u8) -> Option<LetterRead>
    ensures { result ≡ read_as 1 (one_byte_of first) }
{
    if keys::is_key(Word::TELEX, first) {
        return Some(LetterRead {
            number: keys::letter_of_key(first),
            tone: NO_TONE,
            length: 1,
        });
    }
    None
}

// A letter of two bytes. The leads C0 and C1 would be overlong.
fn two_bytes(first: u8, second: u8) -> Option<LetterRead>
    ensures { result ≡ read_as 2 (two_bytes_of first second) }
{
    if (0xC2 <= first) & follows(second) {
        return vowels::find(point_of_two(first, second), 2);
    }
    None
}

fn point_of_two(first: u8, second: u8) -> u16
    requires { InTwo first second }
    ensures { result ≡ point_of_two_of first second }
{
    (first as u16 - 0xC0) * 64 + (second as u16 - 0x80)
}

// A letter of three bytes; a code point below 800 hex would be overlong.
fn three_bytes(first: u8, second: u8, third: u8) -> Option<LetterRead>
    requires { 0xE0 ≤ first }
    ensures { result ≡ read_as 3 (three_bytes_of first second third) }
{
    if (first < 0xF0) & (follows(second) & follows(third)) {
        let point = point_of_three(first, second, third);
        if 0x800 <= point {
            return vowels::find(point, 3);
        }
    }
    None
}

fn point_of_three(first: u8, second: u8, third: u8) -> u16
    requires { (0xE0 ≤ first) × InThree first second third }
    ensures { result ≡ point_of_three_of first second third }
{
    (first as u16 - 0xE0) * 4096 + (second as u16 - 0x80) * 64 + (third as u16 - 0x80)
}

// The letter of the alphabet that starts at a place of a text.
pub fn read(text: &[u8], at: usize) -> Option<LetterRead>
    ensures { result ≡ read_at text.now at }
{
    match text.get(at..)? {
        [first, ..] if *first < 0x80 => one_byte(*first),
        [first, second, ..] if *first < 0xE0 => two_bytes(*first, *second),
        [first, second, third, ..] => three_bytes(*first, *second, *third),
        _ => None,
    }
}
