// What a shape or stroke key does to the letters, where they lie. The letters asked about are the letters written:
// the shape is put on, admission is asked of these very letters, and they stay so; where they are not admitted the old letter is put back.
ghost use Rattle.std.specs.Prelude.{◌≡◌, map, ◌+◌, ◌<◌, length};
ghost use Rattle.rules.specs.Letters.{circumflex, horn};
ghost use Rattle.rules.specs.TheWord.{letter};
ghost use Rattle.rules.specs.KeyRoles.{asked as asked_of, last, circumflex_on, horned, shape_edit as shape_edit_of, stroke_edit as stroke_edit_of};
ghost use Rattle.targets.specs.Places.{wanted};
ghost use Rattle.targets.specs.Aims.{one_at, pair_at};
ghost use Rattle.step.specs.LentLetters.{Canonical, LetterThere, PlaceThere, Edits, paired};

use crate::Edit;
use rules::{Act, BREVE, CIRCUMFLEX, HORN, PLAIN, STROKE, ShapeKey, Touched};

// A shape on the letter at a place: taken off if it is there already.
fn at(letters: &mut [u16], i: usize, kind: u8) -> Edit
    requires { LetterThere letters.old i kind }
    ensures { Edits (asked_of kind (one_at kind (Some i) (map letter letters.old))) letters.old result letters.new }
{
    let old = letters[i];
    if rules::shape(old) == kind {
        letters[i] = rules::reshaped(old, PLAIN);
        return Edit::Off(Touched::OneLetter(i));
    }
    let new = rules::reshaped(old, kind);
    letters[i] = new;
    if syllable::admitted(letters) {
        return Edit::Change(Act::Shape(kind), Touched::OneLetter(i));
    }
    letters[i] = old;
    Edit::Nothing
}

// A letter and the next, stored.
fn put_pair(letters: &mut [u16], i: usize, first: u16, second: u16)
    requires { i + 1 < length letters.old }
    ensures { letters.new ≡ paired letters.old i first second }
{
    letters[i] = first;
    letters[i + 1] = second;
}

// A horn on a letter and the next, both together: taken off if both have it already.
fn both(letters: &mut [u16], i: usize) -> Edit
    requires { LetterThere letters.old (i + 1) horn }
    ensures { Edits (asked_of horn (pair_at (Some i) (map letter letters.old))) letters.old result letters.new }
{
    let u = letters[i];
    let o = letters[i + 1];
    if (rules::shape(u) == HORN) & (rules::shape(o) == HORN) {
        put_pair(
            letters,
            i,
            rules::reshaped(u, PLAIN),
            rules::reshaped(o, PLAIN),
        );
        return Edit::Off(Touched::TwoLetters(i));
    }
    put_pair(
        letters,
        i,
        rules::reshaped(u, HORN),
        rules::reshaped(o, HORN),
    );
    if syllable::admitted(letters) {
        return Edit::Change(Act::Shape(HORN), Touched::TwoLetters(i));
    }
    put_pair(letters, i, u, o);
    Edit::Nothing
}

// The same at the place that a search found, if it found one.
fn at_place(letters: &mut [u16], place: Option<usize>, kind: u8) -> Edit
    requires { PlaceThere letters.old place kind }
    ensures { Edits (asked_of kind (one_at kind place (map letter letters.old))) letters.old result letters.new }
{
    let Some(i) = place else {
        return Edit::Nothing;
    };
    at(letters, i, kind)
}

// A horn on the o alone, where the word is huo, khuo or thuo; else on the pair; with no such pair, on the single letter.
fn horn_edit(letters: &mut [u16]) -> Edit
    requires { Canonical letters.old }
    ensures { Edits (asked_of horn (horned (map letter letters.old))) letters.old result letters.new }
{
    if targets::horns_o_alone(letters) {
        let o = letters.len() - 1;
        return at(letters, o, HORN);
    }
    if let Some(i) = targets::pair(letters) {
        return both(letters, i);
    }
    let place = targets::single(letters);
    at_place(letters, place, HORN)
}

// A circumflex or breve on the last letter that its key wants.
fn last_edit(letters: &mut [u16], key: ShapeKey, kind: u8) -> Edit
    requires { Canonical letters.old × (kind < 8) }
    ensures { Edits (asked_of kind (last (wanted key) kind (map letter letters.old))) letters.old result letters.new }
{
    let place = targets::last_wanted(letters, key);
    at_place(letters, place, kind)
}

// A circumflex on the last letter that its Telex key wants.
fn own_edit(letters: &mut [u16], own: u8) -> Edit
    requires { Canonical letters.old }
    ensures { Edits (asked_of circumflex (circumflex_on own (map letter letters.old))) letters.old result letters.new }
{
    let place = targets::last_own(letters, own);
    at_place(letters, place, CIRCUMFLEX)
}

// Telex w: the horn's edit, or where that is none the breve's.
fn horn_or_breve(letters: &mut [u16]) -> Edit
    requires { Canonical letters.old }
    ensures { Edits (shape_edit_of ShapeKey.HornBreve (map letter letters.old)) letters.old result letters.new }
{
    let edit = horn_edit(letters);
    if let Edit::Nothing = edit {
        return last_edit(letters, ShapeKey::Breve, BREVE);
    }
    edit
}

pub(crate) fn shape_edit(letters: &mut [u16], key: ShapeKey) -> Edit
    requires { Canonical letters.old }
    ensures { Edits (shape_edit_of key (map letter letters.old)) letters.old result letters.new }
{
    match key {
        ShapeKey::CircumflexOn(own) => own_edit(letters, own),
        ShapeKey::Circumflex => last_edit(letters, key, CIRCUMFLEX),
        ShapeKey::Breve => last_edit(letters, key, BREVE),
        ShapeKey::Horn => horn_edit(letters),
        ShapeKey::HornBreve => horn_or_breve(letters),
    }
}

// If the first letter is đ, the stroke is taken off; if it is d, and it stands alone or the letters are admitted, put on.
pub(crate) fn stroke_edit(letters: &mut [u16]) -> Edit
    requires { Canonical letters.old }
    ensures { Edits (stroke_edit_of (map letter letters.old)) letters.old result letters.new }
{
    if letters.is_empty() {
        return Edit::Nothing;
    }
    let first = letters[0];
    if rules::is(first, b'd', STROKE) {
        letters[0] = rules::reshaped(first, PLAIN);
        return Edit::Off(Touched::OneLetter(0));
    }
    let alone = letters.len() == 1;
    if rules::is(first, b'd', PLAIN) & (alone | syllable::admitted(letters)) {
        letters[0] = rules::reshaped(first, STROKE);
        return Edit::Change(Act::Stroke, Touched::OneLetter(0));
    }
    Edit::Nothing
}
