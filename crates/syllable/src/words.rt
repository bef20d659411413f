// The words of document 01's tables as numbers, each named by its Telex keys: AW is ă, AA â, EE ê, OO ô, OW ơ, UW ư, DD đ.
// A letter is one digit, twice its number without the case and 1; the first letter of a word is its lowest digit.
use rules::{BREVE, CIRCUMFLEX, HORN, STROKE};

pub const NEXT: u64 = 4096;

// A digit below this is a plain letter's; a shape adds it as many times as the shape's number says.
pub const SHAPE: u64 = 2 * 256;

// No letters.
pub const NONE: u64 = 0;

// Added where more than three letters follow each other; no word of a table is so long.
pub const MORE: u64 = NEXT * NEXT * NEXT;

// Vowel letters.
pub const A: u64 = 2 * b'a' as u64 + 1;

pub const AW: u64 = A + SHAPE * BREVE as u64;

pub const AA: u64 = A + SHAPE * CIRCUMFLEX as u64;

pub const E: u64 = 2 * b'e' as u64 + 1;

pub const EE: u64 = E + SHAPE * CIRCUMFLEX as u64;

pub const I: u64 = 2 * b'i' as u64 + 1;

pub const O: u64 = 2 * b'o' as u64 + 1;

pub const OO: u64 = O + SHAPE * CIRCUMFLEX as u64;

pub const OW: u64 = O + SHAPE * HORN as u64;

pub const U: u64 = 2 * b'u' as u64 + 1;

pub const UW: u64 = U + SHAPE * HORN as u64;

pub const Y: u64 = 2 * b'y' as u64 + 1;

// Other letters.
pub const C: u64 = 2 * b'c' as u64 + 1;

pub const D: u64 = 2 * b'd' as u64 + 1;

pub const DD: u64 = D + SHAPE * STROKE as u64;

pub const G: u64 = 2 * b'g' as u64 + 1;

pub const H: u64 = 2 * b'h' as u64 + 1;

pub const K: u64 = 2 * b'k' as u64 + 1;

pub const M: u64 = 2 * b'm' as u64 + 1;

pub const N: u64 = 2 * b'n' as u64 + 1;

pub const P: u64 = 2 * b'p' as u64 + 1;

pub const Q: u64 = 2 * b'q' as u64 + 1;

pub const R: u64 = 2 * b'r' as u64 + 1;

pub const T: u64 = 2 * b't' as u64 + 1;

// Initials and finals of more than one letter.
pub const CH: u64 = C + NEXT * H;

pub const GH: u64 = G + NEXT * H;

pub const GI: u64 = G + NEXT * I;

pub const KH: u64 = K + NEXT * H;

pub const NG: u64 = N + NEXT * G;

pub const NH: u64 = N + NEXT * H;

pub const PH: u64 = P + NEXT * H;

pub const QU: u64 = Q + NEXT * U;

pub const TH: u64 = T + NEXT * H;

pub const TR: u64 = T + NEXT * R;

pub const NGH: u64 = N + NEXT * (G + NEXT * H);

// Nuclei of more than one letter, and the base letters of those that are listed with shapes only.
pub const OA: u64 = O + NEXT * A;

pub const OE: u64 = O + NEXT * E;

pub const OAW: u64 = O + NEXT * AW;

pub const UAA: u64 = U + NEXT * AA;

pub const IEE: u64 = I + NEXT * EE;

pub const YEE: u64 = Y + NEXT * EE;

pub const UOO: u64 = U + NEXT * OO;

pub const UWOW: u64 = UW + NEXT * OW;

pub const UOW: u64 = U + NEXT * OW;

pub const UEE: u64 = U + NEXT * EE;

pub const UY: u64 = U + NEXT * Y;

pub const UYEE: u64 = U + NEXT * (Y + NEXT * EE);

pub const AI: u64 = A + NEXT * I;

pub const AO: u64 = A + NEXT * O;

pub const AU: u64 = A + NEXT * U;

pub const AY: u64 = A + NEXT * Y;

pub const AAU: u64 = AA + NEXT * U;

pub const AAY: u64 = AA + NEXT * Y;

pub const EO: u64 = E + NEXT * O;

pub const EEU: u64 = EE + NEXT * U;

pub const IA: u64 = I + NEXT * A;

pub const IU: u64 = I + NEXT * U;

pub const OI: u64 = O + NEXT * I;

pub const OOI: u64 = OO + NEXT * I;

pub const OWI: u64 = OW + NEXT * I;

pub const UA: u64 = U + NEXT * A;

pub const UI: u64 = U + NEXT * I;

pub const UWA: u64 = UW + NEXT * A;

pub const UWI: u64 = UW + NEXT * I;

pub const UWU: u64 = UW + NEXT * U;

pub const IEEU: u64 = I + NEXT * (EE + NEXT * U);

pub const YEEU: u64 = Y + NEXT * (EE + NEXT * U);

pub const OAI: u64 = O + NEXT * (A + NEXT * I);

pub const OAY: u64 = O + NEXT * (A + NEXT * Y);

pub const OEO: u64 = O + NEXT * (E + NEXT * O);

pub const UAAY: u64 = U + NEXT * (AA + NEXT * Y);

pub const UOOI: u64 = U + NEXT * (OO + NEXT * I);

pub const UYA: u64 = U + NEXT * (Y + NEXT * A);

pub const UWOWI: u64 = UW + NEXT * (OW + NEXT * I);

pub const UWOWU: u64 = UW + NEXT * (OW + NEXT * U);

pub const UYU: u64 = U + NEXT * (Y + NEXT * U);

pub const UEEU: u64 = U + NEXT * (EE + NEXT * U);

pub const OAO: u64 = O + NEXT * (A + NEXT * O);

pub const IE: u64 = I + NEXT * E;

pub const YE: u64 = Y + NEXT * E;

pub const UO: u64 = U + NEXT * O;

pub const UE: u64 = U + NEXT * E;

pub const UYE: u64 = U + NEXT * (Y + NEXT * E);

pub const EU: u64 = E + NEXT * U;

pub const UU: u64 = U + NEXT * U;

pub const IEU: u64 = I + NEXT * (E + NEXT * U);

pub const YEU: u64 = Y + NEXT * (E + NEXT * U);

pub const UAY: u64 = U + NEXT * (A + NEXT * Y);

pub const UOI: u64 = U + NEXT * (O + NEXT * I);

pub const UOU: u64 = U + NEXT * (O + NEXT * U);

pub const UEU: u64 = U + NEXT * (E + NEXT * U);
