// The classes of the base letters: vowel, initial consonant, final consonant, stop. One table of 26 entries answers for all four.
#![tactic(auto)]

ghost use Rattle.std.specs.Prelude.{◌≡◌};
ghost use Rattle.rules.specs.Letters.{one_of};
ghost use Rattle.rules.specs.TakingApart.{vowel, initials, finals, stop};
ghost use Rattle.classes.specs.LetterClasses.{alone, class_of, marks_of};

// A class is the sum of its marks.
const NO_CLASS: u8 = 0;

const VOWEL: u8 = 1;

const INITIAL: u8 = 2;

const FINAL: u8 = 4;

const STOP: u8 = 8;

const INITIAL_FINAL: u8 = INITIAL + FINAL;

const INITIAL_FINAL_STOP: u8 = INITIAL + FINAL + STOP;

// The table: an entry a line. It is a `match` and no array because the compiler keeps a `match` in its constants, and writes an array to the stack at each use.
fn class(base: u8) -> u8
    ensures { result ≡ marks_of (class_of base) }
{
    match base {
        b'a' => VOWEL,
        b'b' => INITIAL,
        b'c' => INITIAL_FINAL_STOP,
        b'd' => INITIAL,
        b'e' => VOWEL,
        b'f' => NO_CLASS,
        b'g' => INITIAL,
        b'h' => INITIAL,
        b'i' => VOWEL,
        b'j' => NO_CLASS,
        b'k' => INITIAL,
        b'l' => INITIAL,
        b'm' => INITIAL_FINAL,
        b'n' => INITIAL_FINAL,
        b'o' => VOWEL,
        b'p' => INITIAL_FINAL_STOP,
        b'q' => NO_CLASS,
        b'r' => INITIAL,
        b's' => INITIAL,
        b't' => INITIAL_FINAL_STOP,
        b'u' => VOWEL,
        b'v' => INITIAL,
        b'w' => NO_CLASS,
        b'x' => INITIAL,
        b'y' => VOWEL,
        b'z' => NO_CLASS,
        _ => NO_CLASS,
    }
}

// a, e, i, o, u, y.
pub fn is_vowel(base: u8) -> bool
    ensures { result ≡ vowel base }
{
    class(base) & VOWEL != 0
}

// A letter that alone is an initial.
pub fn is_initial(base: u8) -> bool
    ensures { result ≡ one_of (alone base) initials }
{
    class(base) & INITIAL != 0
}

// A letter that alone is a final.
pub fn is_final(base: u8) -> bool
    ensures { result ≡ one_of (alone base) finals }
{
    class(base) & FINAL != 0
}

// A letter that alone is a stop.
pub fn is_stop(base: u8) -> bool
    ensures { result ≡ stop (alone base) }
{
    class(base) & STOP != 0
}
