// What a key leaves beside the letters: its place among those that appended and shaped them or set the tone, and the word's numbers.
ghost use Rattle.std.specs.Prelude.{◌≡◌, ◌≤◌, ◌<◌, length};
ghost use Rattle.rules.specs.TheWord.{shaped_on};
ghost use Rattle.step.specs.LentLetters.{TouchesIn, by_then, shaped_then, toned_then};
ghost use Rattle.step.specs.InPlace.{numbers_put};

use records::Numbers;
use rules::{NO_TONE, Outcome, Touched, Word};

// The letters that a key touched were shaped by the key at this place, or by none.
fn put_shaper(shaped_by: &mut [u8], touched: Touched, place: u8)
    requires { TouchesIn (length shaped_by.old) touched }
    ensures { shaped_by.new ≡ shaped_on place touched shaped_by.old }
{
    match touched {
        Touched::NoLetter => {}
        Touched::OneLetter(i) => shaped_by[i] = place,
        Touched::TwoLetters(i) => {
            shaped_by[i] = place;
            shaped_by[i + 1] = place;
        }
    }
}

// The key at this place has appended the letter after the others, unless it acted.
pub(crate) fn put_appender(appended_by: &mut [u8], count: usize, outcome: Outcome, here: u8)
    requires { count < length appended_by.old }
    ensures { appended_by.new ≡ by_then appended_by.old count here outcome }
{
    if !matches!(outcome, Outcome::Acted(_)) {
        appended_by[count] = here;
    }
}

// A key has shaped the letters that it touched, or after an undo none has; the letter that it appended is shaped by none.
pub(crate) fn put_shapers(
    shaped_by: &mut [u8],
    count: usize,
    outcome: Outcome,
    touched: Touched,
    here: u8,
)
    requires { (count < length shaped_by.old) × TouchesIn (length shaped_by.old) touched }
    ensures { shaped_by.new ≡ shaped_then shaped_by.old count here touched outcome }
{
    match outcome {
        Outcome::Acted(_) => put_shaper(shaped_by, touched, here),
        Outcome::Undone => {
            put_shaper(shaped_by, touched, Word::NO_KEY);
            shaped_by[count] = Word::NO_KEY;
        }
        Outcome::Appended => {
            put_shaper(shaped_by, touched, here);
            shaped_by[count] = Word::NO_KEY;
        }
    }
}

// The place of the key that set the tone: a key that changed it has set it, or there is none.
pub(crate) fn toner(before: u8, after: u8, here: u8, toned_by: u8) -> u8
    ensures { result ≡ toned_then before after here toned_by }
{
    if before == after {
        return toned_by;
    }
    if after == NO_TONE {
        return Word::NO_KEY;
    }
    here
}

// The numbers, at the front of a record's bytes behind the mode.
pub(crate) fn put_numbers(lent: &mut [u8], n: Numbers)
    requires { 8 ≤ length lent.old }
    ensures { lent.new ≡ numbers_put lent.old n }
{
    lent[layout::AT_COUNT] = n.count;
    lent[layout::AT_TONE] = n.tone;
    lent[layout::AT_CLOSED] = n.closed as u8;
    lent[layout::AT_TYPED] = n.typed;
    lent[layout::AT_ACTED] = n.acted;
    lent[layout::AT_UNDONE] = n.undone;
    lent[layout::AT_APPENDED] = n.appended;
}
