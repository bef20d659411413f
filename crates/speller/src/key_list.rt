// A key list as it is put together: each method puts its keys behind those that the list holds. The crate lines fills
// an array of its own so: shared, that would be public functions with a requires, and the library has none.

ghost use Rattle.std.specs.Prelude.{◌≤◌};
ghost use Rattle.speller.specs.declared.key_list.TheConstants.{MOST};

use super::{awaits_o, key_of_letter, shape_key, tone_key};
use rules::{NO_TONE, PLAIN, Word};

// Room for the keys of any text: a letter and its shape key for each byte, and the tone key. A syllable has at most 9.
const MOST: usize = 2 * Word::TEXT + 1;

#[derive(Drop)]
pub(crate) struct KeyList {
    keys: [u8; MOST],
    count: usize,
    ghost within: { count ≤ MOST },
}

impl KeyList {
    ghost use Rattle.std.specs.Prelude.{◌≡◌, map, [], ◌∷◌, ◌+◌, ◌*◌, ◌≤◌, ◌<◌, T, length};
    ghost use Rattle.rules.specs.TheWord.{letter};
    ghost use Rattle.rules.specs.Speller.{key_of_letter, keys_after, standard_keys};
    ghost use Rattle.speller.specs.TextRead.{have_capitals};
    ghost use Rattle.speller.specs.KeysPut.{Puts, held, most_put};

    pub(crate) fn new() -> Self
        ensures { result.count ≡ 0 }
    {
        KeyList {
            keys: [0; MOST],
            count: 0,
        }
    }

    pub(crate) fn held(&self) -> &[u8]
        ensures { result.now ≡ held self.now }
    {
        &self.keys[..self.count]
    }

    fn push(&mut self, key: u8)
        requires { self.old.count < most_put }
        ensures { Puts self.old self.new (key ∷ []) }
    {
        self.keys[self.count] = key;
        self.count += 1;
    }

    // A letter in its case, and its shape or stroke key directly after it.
    fn letter(&mut self, mode: u8, x: u16, behind: &[u16])
        requires { (32 ≤ (letter x).base) × (self.old.count + 2 ≤ most_put) }
        ensures { Puts self.old self.new (key_of_letter (letter x) ∷ keys_after mode (letter x) (map letter behind.now)) }
    {
        self.push(key_of_letter(x));
        if (rules::shape(x) != PLAIN) & !awaits_o(x, behind) {
            self.push(shape_key(mode, x));
        }
    }

    // The standard key list: the keys of each letter, the tone key last.
    pub(crate) fn standard(&mut self, mode: u8, letters: &[u16], tone: u8)
        requires { (self.old.count ≡ 0) × T (have_capitals (map letter letters.now)) × (2 * length letters.now < most_put) }
        ensures { held self.new ≡ standard_keys mode (map letter letters.now) tone }
    {
        for (i, x) in letters.iter().enumerate() {
            self.letter(mode, *x, &letters[i + 1..]);
        }
        if tone != NO_TONE {
            self.push(tone_key(mode, tone));
        }
    }
}
