// A key typed and the word shown, in one call with one range check: a step leaves a record in range, so its text is made unasked.
#![tactic(auto)]

ghost use Rattle.std.specs.Prelude.{◌≡◌};
ghost use Rattle.press.specs.StepAndShow.{step_and_show, press_at as press_at_of};

use rules::{Outcome, Refusal, Word, refuse};

// What typing a key and showing the word comes to: what the key did with the bytes written, or a refusal; and the word then.
#[derive(Drop)]
pub struct StepShown {
    pub answer: Result<(Outcome, usize), Refusal>,
    pub word: Word,
}

// A key typed into a word that is lent as its record's bytes, and the word shown, with one range check. The key is typed in a copy of the bytes,
// which is handed back once the text is known to fit. Refusals: 8, also for bytes that are no record, 2, 3, then 4 with the bytes needed; bytes and
// output are then as they were.
pub fn press_at(lent: &mut [u8], key: u8, out: &mut [u8]) -> Result<(Outcome, usize), Refusal>
    ensures { (result ≡ (press_at_of lent.old key out.old).answer) × (lent.new ≡ (press_at_of lent.old key out.old).bytes) × (out.new ≡ (press_at_of lent.old key out.old).output) }
{
    if lent.len() != layout::LENGTH {
        return refuse(8, 0);
    }
    let mut bytes = [0; layout::LENGTH];
    bytes.copy_from_slice(lent);
    let outcome = step::step_at(&mut bytes, key)?;
    // A key that is taken leaves a record.
    let w = layout::read(&bytes).unwrap();
    let letters = layout::letters_of(&bytes);
    let shown = show::text(&letters[..w.count as usize], w.tone, out)?;
    lent.copy_from_slice(&bytes);
    Ok((outcome, shown))
}

// A key typed and the word shown: as step, and then as show of the new word, with one range check.
// Refusals: 8, 2, 3, then 4 with the bytes needed; word and output are then as they were.
pub fn press(w: Word, key: u8, out: &mut [u8]) -> StepShown
    ensures { (result ≡ (step_and_show w key out.old).result) × (out.new ≡ (step_and_show w key out.old).output) }
{
    let mut bytes = [0; layout::LENGTH];
    layout::write(w, &mut bytes);
    let answer = press_at(&mut bytes, key, out);
    // What was written is a record, and stays one.
    let word = layout::read(&bytes).unwrap_or(w);
    StepShown { answer, word }
}
