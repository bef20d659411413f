// A word taken apart, and the place of its tone: over a lent slice of letters of any length, by base and shape.
// A letter is one number, base + 256 · shape and 2048 more for a capital, which is passed over.
#![tactic(auto)]

ghost use Rattle.std.specs.Prelude.{◌≡◌, map, ◌+◌, ◌≤◌, length};
ghost use Rattle.rules.specs.TheWord.{letter};
ghost use Rattle.rules.specs.TakingApart.{front, joins as joins_of};
ghost use Rattle.rules.specs.TonePlace.{by_count as by_count_of, place_within as place_within_of, tone_place as tone_place_of};
ghost use Rattle.parts.specs.Ends.{parts_of};

use rules::{CAPITAL, NO_TONE, PLAIN};

// Places within a nucleus.
const FIRST: usize = 0;

const SECOND: usize = 1;

const MIDDLE: usize = 1;

// Plain letters, by their numbers.
const G: u16 = b'g' as u16;

const Q: u16 = b'q' as u16;

const U: u16 = b'u' as u16;

// How long the run of vowel letters, or of others, is at the front.
fn run(s: &[u16], vowels: bool) -> usize
    ensures long { result ≡ length (front vowels (map letter s.now)) }
    ensures within { result ≤ length s.now }
{
    s.iter()
        .position(|x| classes::is_vowel(rules::base(*x)) != vowels)
        .unwrap_or(s.len())
}

// Exactly q and a plain u follows: qu. Exactly g, then i, then another vowel letter: gi.
fn joins(before: &[u16], run: &[u16]) -> bool
    ensures { result ≡ joins_of (map letter before.now) (map letter run.now) }
{
    let [initial] = before else {
        return false;
    };
    let [first, others @ ..] = run else {
        return false;
    };
    // Without its case a plain letter is its base alone.
    match *initial % CAPITAL {
        Q => *first % CAPITAL == U,
        G => (rules::base(*first) == b'i') & !others.is_empty(),
        _ => false,
    }
}

// Where the initial, the nucleus and the final end (`final` is a reserved word). Each begins where the one before it ends,
// the initial at 0, and the leftovers reach to the end of the word.
#[derive(Clone, Copy)]
pub struct Parts {
    pub initial: usize,
    pub nucleus: usize,
    pub end: usize,
}

// Takes a word apart. Put into its callers: as a call it took 36 instructions a key more in the one call, 20 in commit and 23 in the drill.
#[inline]
pub fn apart(s: &[u16]) -> Parts
    ensures { result ≡ parts_of (map letter s.now) }
{
    let before = run(s, false);
    let nucleus = before + run(&s[before..], true);
    let end = nucleus + run(&s[nucleus..], false);
    let initial = if joins(&s[..before], &s[before..nucleus]) {
        before + 1
    } else {
        before
    };
    Parts {
        initial,
        nucleus,
        end,
    }
}

// Of three the middle; of two the first when nothing follows, otherwise the second; else the first.
fn by_count(n: usize, ends: bool) -> usize
    ensures { (result ≡ by_count_of n ends) × (result ≤ n) }
{
    match (n, ends) {
        (3, _) => MIDDLE,
        (2, false) => SECOND,
        _ => FIRST,
    }
}

// A single letter; else the last shaped letter; else by the count.
fn place_within(nuc: &[u16], ends: bool) -> usize
    ensures { (result ≡ place_within_of (map letter nuc.now) ends) × (result ≤ length nuc.now) }
{
    if nuc.len() == 1 {
        return FIRST;
    }
    nuc.iter()
        .rposition(|x| rules::shape(*x) != PLAIN)
        .unwrap_or(by_count(nuc.len(), ends))
}

// Where the tone is shown, counted from 0 over the word's letters; nowhere if the tone is 0 or the nucleus is empty.
pub fn tone_place(s: &[u16], tone: u8) -> Option<usize>
    ensures { result ≡ tone_place_of (map letter s.now) tone }
{
    if tone == NO_TONE {
        return None;
    }
    let parts = apart(s);
    let i = parts.initial;
    let n = parts.nucleus;
    if i == n {
        return None;
    }
    Some(i + place_within(&s[i..n], n == s.len()))
}
