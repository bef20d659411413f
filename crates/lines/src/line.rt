// An answer line as it is made: each method writes behind what the line holds, and a column ends in a byte of its own.

ghost use Rattle.std.specs.Prelude.{◌≤◌};
ghost use Rattle.lines.specs.declared.line.TheConstants.{MOST};

use rules::{Refusal, Word};

pub(crate) const SPACE: u8 = b' ';

pub(crate) const NEWLINE: u8 = b'\n';

// The bytes of an answer line, at most.
const MOST: usize = 512;

#[derive(Drop)]
pub(crate) struct Line {
    text: [u8; MOST],
    at: usize,
    ghost within: { at ≤ MOST },
}

impl Line {
    ghost use Rattle.std.specs.Prelude.{◌≡◌, [], ◌∷◌, ◌++◌, ◌+◌, ◌*◌, ◌≤◌, ◌<◌, length};
    ghost use Rattle.rules.specs.Drill.{decimal, or_hyphen, place_column, place_or_hyphen, letter_place, letter_places, refused_line};
    ghost use Rattle.rules.specs.SpellProgram.{spelled_line};
    ghost use Rattle.lines.specs.Appending.{Appends, held, most_in_line, SmallPlace};

    pub(crate) fn new() -> Self
        ensures { result.at ≡ 0 }
    {
        Line {
            text: [0; MOST],
            at: 0,
        }
    }

    pub(crate) fn held(&self) -> &[u8]
        ensures { result.now ≡ held self.now }
    {
        &self.text[..self.at]
    }

    pub(crate) fn append(&mut self, part: &[u8])
        requires { self.old.at + length part.now ≤ most_in_line }
        ensures { Appends self.old self.new part.now }
    {
        let next = self.at + part.len();
        self.text[self.at..next].copy_from_slice(part);
        self.at = next;
    }

    // A number in decimal.
    pub(crate) fn number(&mut self, n: u8, end: u8)
        requires { self.old.at + 2 < most_in_line }
        ensures { Appends self.old self.new (decimal n ++ (end ∷ [])) }
    {
        if n < 10 {
            self.append(&[b'0' + n, end]);
        } else {
            self.append(&[b'0' + n / 10, b'0' + n % 10, end]);
        }
    }

    // A text, or a hyphen where it is empty.
    pub(crate) fn text(&mut self, part: &[u8], end: u8)
        requires { self.old.at + length part.now + 1 < most_in_line }
        ensures { Appends self.old self.new (or_hyphen part.now ++ (end ∷ [])) }
    {
        if part.is_empty() {
            return self.append(&[b'-', end]);
        }
        self.append(part);
        self.append(&[end]);
    }

    pub(crate) fn place(&mut self, place: Option<usize>, end: u8)
        requires { (self.old.at + 2 < most_in_line) × SmallPlace place }
        ensures { Appends self.old self.new (place_column place ++ (end ∷ [])) }
    {
        let Some(n) = place else {
            return self.append(&[b'-', end]);
        };
        self.number(n as u8, end)
    }

    // The place of a key, or a hyphen for no key.
    pub(crate) fn key(&mut self, key: u8, end: u8)
        requires { self.old.at + 2 < most_in_line }
        ensures { Appends self.old self.new (place_or_hyphen key ++ (end ∷ [])) }
    {
        if key == Word::NO_KEY {
            return self.append(&[b'-', end]);
        }
        self.number(key, end)
    }

    // The places of one letter's keys.
    fn letter(&mut self, appended: u8, shaped: u8, end: u8)
        requires { self.old.at + 5 < most_in_line }
        ensures { Appends self.old self.new (letter_place appended shaped ++ (end ∷ [])) }
    {
        self.key(appended, b'/');
        self.key(shaped, end)
    }

    // Those of all letters, or a hyphen where there is none. Behind the last stands no comma, so it is written behind the loop.
    pub(crate) fn letters(&mut self, appended: &[u8], shaped: &[u8], end: u8)
        requires { (self.old.at + 6 * length appended.now + 1 < most_in_line) × (length shaped.now ≡ length appended.now) }
        ensures { Appends self.old self.new (or_hyphen (letter_places appended.now shaped.now) ++ (end ∷ [])) }
    {
        let (Some((last_appended, appended)), Some((last_shaped, shaped))) = (
            appended.split_last(),
            shaped.split_last(),
        ) else {
            return self.append(&[b'-', end]);
        };
        for (appended, shaped) in appended.iter().zip(shaped) {
            self.letter(*appended, *shaped, b',');
        }
        self.letter(*last_appended, *last_shaped, end)
    }

    // The line of a refusal: `!`, its number and the number returned.
    pub(crate) fn refused(&mut self, r: Refusal)
        requires { (self.old.at ≡ 0) × (r.value < 256) }
        ensures { Appends self.old self.new (refused_line r) }
    {
        self.append(&[b'!', SPACE]);
        self.number(r.number, SPACE);
        self.number(r.value as u8, NEWLINE);
    }

    // The key list of a shown syllable, or the line of its refusal. The speller writes to the line itself, which has room for any key list.
    pub(crate) fn spelled(&mut self, mode: u8, syllable: &[u8])
        requires { self.old.at ≡ 0 }
        ensures { Appends self.old self.new (spelled_line mode syllable.now) }
    {
        let answer = speller::spell(mode, syllable, &mut self.text);
        match answer {
            Err(refusal) => self.refused(refusal),
            Ok(n) => {
                self.at = n;
                self.append(&[NEWLINE]);
            }
        }
    }
}
