// The twelve vowels in six tones: the table of document 01, "Code points", and the rows of it.
ghost use Rattle.std.specs.Prelude.{◌≡◌, ◌<◌, ◌≤◌, false, get_or, MatchOption};
ghost use Rattle.rules.specs.TheWord.{letter as letter_of_number, number};
ghost use Rattle.letters.specs.Decoding.{found, read_as};
ghost use Rattle.letters.specs.Rows.{vowel_row, points_of, letter_of, cased};

use crate::{CAPITAL_D_STROKE_POINT, D_STROKE, D_STROKE_POINT, LetterRead, capital_point};
use rules::{BREVE, CAPITAL, CIRCUMFLEX, HORN, NO_TONE};

const ROWS: usize = 12;

const TONES: usize = 6;

const A: u16 = b'a' as u16;

pub(crate) const A_BREVE: u16 = A + 256 * BREVE as u16;

pub(crate) const A_CIRCUMFLEX: u16 = A + 256 * CIRCUMFLEX as u16;

const E: u16 = b'e' as u16;

pub(crate) const E_CIRCUMFLEX: u16 = E + 256 * CIRCUMFLEX as u16;

const I: u16 = b'i' as u16;

const O: u16 = b'o' as u16;

pub(crate) const O_CIRCUMFLEX: u16 = O + 256 * CIRCUMFLEX as u16;

pub(crate) const O_HORN: u16 = O + 256 * HORN as u16;

const U: u16 = b'u' as u16;

pub(crate) const U_HORN: u16 = U + 256 * HORN as u16;

const Y: u16 = b'y' as u16;

static LETTERS: [u16; ROWS] = [
    A,
    A_BREVE,
    A_CIRCUMFLEX,
    E,
    E_CIRCUMFLEX,
    I,
    O,
    O_CIRCUMFLEX,
    O_HORN,
    U,
    U_HORN,
    Y,
];

// Tones 0 to 5 of each vowel: none, acute, grave, hook, tilde, dot.
static POINTS: [[u16; TONES]; ROWS] = [
    // a
    [0x61, 0xE1, 0xE0, 0x1EA3, 0xE3, 0x1EA1],
    // ă
    [0x103, 0x1EAF, 0x1EB1, 0x1EB3, 0x1EB5, 0x1EB7],
    // â
    [0xE2, 0x1EA5, 0x1EA7, 0x1EA9, 0x1EAB, 0x1EAD],
    // e
    [0x65, 0xE9, 0xE8, 0x1EBB, 0x1EBD, 0x1EB9],
    // ê
    [0xEA, 0x1EBF, 0x1EC1, 0x1EC3, 0x1EC5, 0x1EC7],
    // i
    [0x69, 0xED, 0xEC, 0x1EC9, 0x129, 0x1ECB],
    // o
    [0x6F, 0xF3, 0xF2, 0x1ECF, 0xF5, 0x1ECD],
    // ô
    [0xF4, 0x1ED1, 0x1ED3, 0x1ED5, 0x1ED7, 0x1ED9],
    // ơ
    [0x1A1, 0x1EDB, 0x1EDD, 0x1EDF, 0x1EE1, 0x1EE3],
    // u
    [0x75, 0xFA, 0xF9, 0x1EE7, 0x169, 0x1EE5],
    // ư
    [0x1B0, 0x1EE9, 0x1EEB, 0x1EED, 0x1EEF, 0x1EF1],
    // y
    [0x79, 0xFD, 0x1EF3, 0x1EF7, 0x1EF9, 0x1EF5],
];

// The row of a vowel, by its number in lower case.
pub(crate) fn row(small: u16) -> Option<usize>
    requires { small < 2048 }
    ensures { MatchOption result (12 ≡ vowel_row (letter_of_number small)) (λ r. (r < 12) × (r ≡ vowel_row (letter_of_number small))) }
{
    match small {
        A => Some(0),
        A_BREVE => Some(1),
        A_CIRCUMFLEX => Some(2),
        E => Some(3),
        E_CIRCUMFLEX => Some(4),
        I => Some(5),
        O => Some(6),
        O_CIRCUMFLEX => Some(7),
        O_HORN => Some(8),
        U => Some(9),
        U_HORN => Some(10),
        Y => Some(11),
        _ => None,
    }
}

// The letter of a row, in lower case.
pub(crate) fn letter(row: usize) -> u16
    requires { row < 12 }
    ensures { (result ≡ number (cased false (letter_of row))) × (result < 2048) }
{
    LETTERS[row]
}

// The code point of a row's letter with a tone on it.
pub(crate) fn point(row: usize, tone: usize) -> u16
    requires { (row < 12) × (tone < 6) }
    ensures { (result ≡ get_or (points_of row) tone 0) × (32 ≤ result) }
{
    POINTS[row][tone]
}

// The letter of a code point above ASCII: đ, or one of the table, small or as a capital.
pub(crate) fn find(point: u16, length: usize) -> Option<LetterRead>
    ensures { result ≡ read_as length (found point) }
{
    if point == D_STROKE_POINT {
        return Some(LetterRead {
            number: D_STROKE,
            tone: NO_TONE,
            length,
        });
    }
    if point == CAPITAL_D_STROKE_POINT {
        return Some(LetterRead {
            number: D_STROKE + CAPITAL,
            tone: NO_TONE,
            length,
        });
    }
    for (row, points) in POINTS.iter().enumerate() {
        for (tone, small) in points.iter().enumerate() {
            if *small == point {
                return Some(LetterRead {
                    number: letter(row),
                    tone: tone as u8,
                    length,
                });
            }
            if capital_point(*small) == point {
                return Some(LetterRead {
                    number: letter(row) + CAPITAL,
                    tone: tone as u8,
                    length,
                });
            }
        }
    }
    None
}
