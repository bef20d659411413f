// Where a shape key aims: places in a lent slice of letter numbers, of any length. Of huo, khuo and thuo the horn takes the o alone, and huơ, khuơ and thuơ wait for a second horn.
#![tactic(auto)]

ghost use Rattle.std.specs.Prelude.{◌≡◌, false, [], ◌∷◌, map};
ghost use Rattle.rules.specs.Letters.{words, one_of};
ghost use Rattle.rules.specs.TheWord.{letter};
ghost use Rattle.rules.specs.KeyRoles.{own as own_of, is_aeo as is_aeo_of, is_q as is_q_of, is_pair as is_pair_of, is_single as is_single_of, horns_o_alone as horns_o_alone_of, awaits_second_horn as awaits_second_horn_of};
ghost use Rattle.targets.specs.Places.{wanted, last_place, pair_place, single_place};

use rules::{CIRCUMFLEX, HORN, PLAIN, ShapeKey};

// Circumflex wants its own letter, or a, e or o; breve wants a.
fn wants(key: ShapeKey, n: u16) -> bool
    ensures { result ≡ wanted key (letter n).base }
{
    let b = rules::base(n);
    match key {
        ShapeKey::CircumflexOn(own) => is_own(own, b),
        ShapeKey::Circumflex => is_aeo(b),
        ShapeKey::Breve => b == b'a',
        ShapeKey::Horn | ShapeKey::HornBreve => false,
    }
}

fn is_aeo(b: u8) -> bool
    ensures { result ≡ is_aeo_of b }
{
    (b == b'a') | ((b == b'e') | (b == b'o'))
}

// Each Telex circumflex key has its own letter, a, e or o.
fn is_own(own: u8, b: u8) -> bool
    ensures { result ≡ own_of own b }
{
    (b == own) & is_aeo(own)
}

// The last letter with a wanted base.
pub fn last_wanted(letters: &[u16], key: ShapeKey) -> Option<usize>
    ensures { result ≡ last_place (wanted key) (map letter letters.now) }
{
    letters.iter().rposition(|n| wants(key, *n))
}

// The last letter that a Telex circumflex key wants, its own: the same without asking at each letter which key it is.
pub fn last_own(letters: &[u16], own: u8) -> Option<usize>
    ensures { result ≡ last_place (own_of own) (map letter letters.now) }
{
    letters.iter().rposition(|n| is_own(own, rules::base(*n)))
}

fn is_q(n: u16) -> bool
    ensures { result ≡ is_q_of (letter n) }
{
    rules::base(n) == b'q'
}

fn is_pair(after_q: bool, first: u16, second: u16) -> bool
    ensures { result ≡ is_pair_of after_q (letter first).base (letter second).base }
{
    (rules::base(first) == b'u') & ((rules::base(second) == b'o') & !after_q)
}

// The first u followed directly by o, the u not directly after q.
pub fn pair(letters: &[u16]) -> Option<usize>
    ensures { result ≡ pair_place false (map letter letters.now) }
{
    let mut after_q = false;
    for (i, [first, second]) in letters.array_windows::<2>().enumerate() {
        if is_pair(after_q, *first, *second) {
            return Some(i);
        }
        after_q = is_q(*first);
    }
    None
}

fn is_single(after_q: bool, n: u16) -> bool
    ensures { result ≡ is_single_of after_q (letter n).base }
{
    let b = rules::base(n);
    ((b == b'o') | (b == b'u')) & !after_q
}

// The first o or u not directly after q.
pub fn single(letters: &[u16]) -> Option<usize>
    ensures { result ≡ single_place false (map letter letters.now) }
{
    let mut after_q = false;
    for (i, n) in letters.iter().enumerate() {
        if is_single(after_q, *n) {
            return Some(i);
        }
        after_q = is_q(*n);
    }
    None
}

// The words of the two rules on huo, from their end: each asks of the last letter, and then of those before it.
// Nothing, k or t.
fn is_none_k_t(letters: &[u16]) -> bool
    ensures { result ≡ one_of (map letter letters.now) ([] ∷ words "k t") }
{
    match letters {
        [] => true,
        [n] => rules::is(*n, b'k', PLAIN) | rules::is(*n, b't', PLAIN),
        _ => false,
    }
}

// h, kh or th.
fn is_h_kh_th(letters: &[u16]) -> bool
    ensures { result ≡ one_of (map letter letters.now) (words "h kh th") }
{
    let [before @ .., last] = letters else {
        return false;
    };
    rules::is(*last, b'h', PLAIN) && is_none_k_t(before)
}

// These with a plain u.
fn is_hu(letters: &[u16]) -> bool
    ensures { result ≡ one_of (map letter letters.now) (words "hu khu thu") }
{
    let [before @ .., last] = letters else {
        return false;
    };
    rules::is(*last, b'u', PLAIN) && is_h_kh_th(before)
}

// And with an o in any shape at the end: the horn takes this o alone.
pub fn horns_o_alone(letters: &[u16]) -> bool
    ensures { result ≡ horns_o_alone_of (map letter letters.now) }
{
    let [before @ .., last] = letters else {
        return false;
    };
    (rules::is(*last, b'o', PLAIN)
        | (rules::is(*last, b'o', CIRCUMFLEX) | rules::is(*last, b'o', HORN)))
        && is_hu(before)
}

// And with an ơ at the end: a letter that follows may put the horn on the u too.
pub fn awaits_second_horn(letters: &[u16]) -> bool
    ensures { result ≡ awaits_second_horn_of (map letter letters.now) }
{
    let [before @ .., last] = letters else {
        return false;
    };
    rules::is(*last, b'o', HORN) && is_hu(before)
}
