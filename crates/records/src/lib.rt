// Refusal 8: a record out of range. Places past its counts are not read.
#![tactic(auto)]

ghost use Rattle.std.specs.Prelude.{◌≡◌};
ghost use Rattle.rules.specs.KeyRoles.{is_key};
ghost use Rattle.rules.specs.Refusals.{all, out_of_range as out_of_range_of};
ghost use Rattle.letters.specs.Writing.{is_letter};
ghost use Rattle.records.specs.Numbers.{numbers_of as numbers_of_of, numbers_wrong as numbers_wrong_of, keys_for as keys_for_of, places_wrong as places_wrong_of};

use rules::{DOT, Word};

// The kept keys are allowed in the mode.
pub fn keys_allowed(mode: u8, keys: &[u8]) -> bool
    ensures { result ≡ all (is_key mode) keys.now }
{
    keys.iter().all(|&k| keys::is_key(mode, k))
}

// Each number is a letter that the mode allows, in a shape that it can carry, and no digit is marked as a capital.
pub fn letters_allowed(mode: u8, letters: &[u16]) -> bool
    ensures { result ≡ all (is_letter mode) letters.now }
{
    letters.iter().all(|&n| letters::is_letter(mode, n))
}

// How many keys must be typed for a place to be that of one of them; none for that of no key.
fn keys_for(place: u8) -> u8
    ensures { result ≡ keys_for_of place }
{
    if place == Word::NO_KEY {
        return 0;
    }
    place + 1
}

// A letter's key that is not among those typed, or the tone's. The turns are as many for every word, so that the compiler takes sixteen
// letters at once; what stands past the letters is of no account. The arrays are taken out of the word: where they are gone over in it, a
// caller that has read the word just before must put all of it into memory.
pub fn places_wrong(w: &Word) -> bool
    ensures { result ≡ places_wrong_of w.now }
{
    let appended_by = w.appended_by;
    let shaped_by = w.shaped_by;
    let mut wrong = false;
    for (i, (&by, &shaped)) in appended_by.iter().zip(&shaped_by).enumerate() {
        wrong |= ((i as u8) < w.count) & ((w.typed <= by) | (w.typed < keys_for(shaped)));
    }
    wrong | (w.typed < keys_for(w.toned_by))
}

// A word's numbers: its record without the mode, which never changes, the arrays and the place of the tone's key. In this order the
// seven bytes are moved at once.
#[derive(Clone, Copy)]
pub struct Numbers {
    pub count: u8,
    pub tone: u8,
    pub closed: bool,
    pub typed: u8,
    pub acted: u8,
    pub undone: u8,
    pub appended: u8,
}

// An entry of its own, by its clause: the definition of a record's numbers is said over them.
pub fn numbers_of(w: Word) -> Numbers
    ensures { result ≡ numbers_of_of w }
{
    Numbers {
        count: w.count,
        tone: w.tone,
        closed: w.closed,
        typed: w.typed,
        acted: w.acted,
        undone: w.undone,
        appended: w.appended,
    }
}

// A count over 32, more letters than keys, counts that do not add up to the keys, a tone or a mode that does not exist.
// No more than 32 keys, no more letters than keys, and a sum that is the keys: so no count is over 32.
pub fn numbers_wrong(w: &Word) -> bool
    ensures { result ≡ numbers_wrong_of w.now }
{
    // Named before the sum: the loop over the keys then goes by it, and not by the sum.
    let typed = w.typed as usize;
    (Word::KEYS < typed)
        | (w.typed < w.count)
        | (w.acted as usize + w.undone as usize + w.appended as usize != typed)
        | (DOT < w.tone)
        | !keys::is_mode(w.mode)
}

// The whole of refusal 8, of a record that is lent.
pub fn lent_out_of_range(w: &Word) -> bool
    ensures { result ≡ out_of_range_of w.now }
{
    numbers_wrong(w) | places_wrong(w)
        || !keys_allowed(w.mode, &w.keys[..w.typed as usize])
        || !letters_allowed(w.mode, &w.letters[..w.count as usize])
}

// An entry of its own: of a record by value.
pub fn out_of_range(w: Word) -> bool
    ensures { result ≡ out_of_range_of w }
{
    lent_out_of_range(&w)
}
