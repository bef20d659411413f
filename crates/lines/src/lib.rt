// One line of a program to its answer line: the drill's, with the places of the keys or without, or the speller's.
#![tactic(auto)]

mod line;

ghost use Rattle.std.specs.Prelude.{◌≡◌, false, [], ◌∷◌, ◌+◌, ◌*◌, ◌≤◌, drop};
ghost use Rattle.rules.specs.TheWord.{most_keys, word_of};
ghost use Rattle.rules.specs.Decision.{handed_back as handed_back_of};
ghost use Rattle.rules.specs.Refusals.{out_of_range};
ghost use Rattle.rules.specs.Drill.{decision_column, columns, word_columns as word_columns_of, keys_line as keys_line_of, mode_of, key_columns as key_columns_of};
ghost use Rattle.lines.specs.Appending.{Appends, ended_by, most_in_line};
ghost use Rattle.lines.specs.Programs.{word_line_of, six_end as six_end_of, line_answer};

use line::{Line, NEWLINE, SPACE};
use rules::{Decision, Refusal, Word};

// The programs that answer lines. An enum, and no function handed in: the clauses say of which program an answer is.
#[derive(Clone, Copy)]
pub enum Program {
    Drill,
    DrillWithKeys,
    Spell,
}

// A number that no mode has: what stands for the mode of a line that names none, as `mode_of` in the crate rules says.
const NO_MODE: u8 = 2;

// What commit hands back: the shown text or the keys, by the decision.
fn handed_back<'a>(decision: Decision, shown: &'a [u8], keys: &'a [u8]) -> &'a [u8]
    ensures { result.now ≡ handed_back_of decision shown.now keys.now }
{
    match decision {
        Decision::Keep => shown,
        Decision::Restore => keys,
    }
}

fn letter(decision: Decision) -> u8
    ensures { result ∷ [] ≡ decision_column decision }
{
    match decision {
        Decision::Keep => b'K',
        Decision::Restore => b'R',
    }
}

// The six columns of a word in range: its letters are taken out of the record once, and not asked about again. The word
// goes by value: by reference the drill takes 8 instructions a key more.
fn word_columns(answer: &mut Line, w: Word, end: u8)
    requires { (answer.old.at ≡ 0) × (out_of_range w ≡ false) }
    ensures { Appends answer.old answer.new (ended_by end (word_columns_of (word_of w))) }
{
    let letters = &w.letters[..w.count as usize];
    let mut buffer = [0; Word::TEXT];
    let n = show::in_room(letters, w.tone, &mut buffer);
    let shown = &buffer[..n];
    let verdict = syllable::verdict(letters, w.tone);
    let place = parts::tone_place(letters, w.tone);
    let untouched = (w.acted == 0) & (w.undone == 0);
    let decision = word::decided(letters, untouched, w.closed, verdict);
    let keys = &w.keys[..w.typed as usize];
    answer.text(shown, SPACE);
    answer.text(handed_back(decision, shown, keys), SPACE);
    answer.number(verdict, SPACE);
    answer.number(w.tone, SPACE);
    answer.place(place, SPACE);
    answer.append(&[letter(decision), end]);
}

// The two columns of a word's key places.
fn key_columns(answer: &mut Line, w: Word)
    requires { (answer.old.at + 6 * most_keys + 5 ≤ most_in_line) × (out_of_range w ≡ false) }
    ensures { Appends answer.old answer.new (columns (key_columns_of (word_of w))) }
{
    let count = w.count as usize;
    answer.letters(&w.appended_by[..count], &w.shaped_by[..count], SPACE);
    answer.key(w.toned_by, NEWLINE);
}

// What ends the six columns: a newline, or a space where the places of the keys follow.
fn six_end(keyed: bool) -> u8
    ensures { result ≡ six_end_of keyed }
{
    if keyed { SPACE } else { NEWLINE }
}

// The line of a word in range, with the places of its keys or without. The six columns are written at one place in
// the code, and their end is asked in a function of its own, so that the compiler keeps them in line.
fn word_line(answer: &mut Line, w: Word, keyed: bool)
    requires { (answer.old.at ≡ 0) × (out_of_range w ≡ false) }
    ensures { Appends answer.old answer.new (word_line_of keyed (word_of w)) }
{
    word_columns(answer, w, six_end(keyed));
    if keyed {
        key_columns(answer, w);
    }
}

fn keys_line(answer: &mut Line, mode: u8, keys: &[u8], keyed: bool)
    requires { answer.old.at ≡ 0 }
    ensures { Appends answer.old answer.new (keys_line_of (word_line_of keyed) mode keys.now) }
{
    let all = word::type_all(mode, keys);
    let typed = all.answer;
    if let Err(refusal) = typed {
        return answer.refused(refusal);
    }
    word_line(answer, all.word, keyed)
}

// How a line starts: T or V and a space name a mode; any other start names none.
fn mode_of(line: &[u8]) -> u8
    ensures { result ≡ mode_of line.now }
{
    match line {
        [b'T', SPACE, ..] => Word::TELEX,
        [b'V', SPACE, ..] => Word::VNI,
        _ => NO_MODE,
    }
}

// The rest of a line, behind the mode and the space.
fn behind_start(line: &[u8]) -> &[u8]
    ensures { result.now ≡ drop 2 line.now }
{
    match line {
        [_, _, rest @ ..] => rest,
        _ => &[],
    }
}

// The answer to a line, its newline included, at the front of the output. Refusals: 4 with the bytes needed; the output is then as it was.
pub fn answer_line(program: Program, line: &[u8], out: &mut [u8]) -> Result<usize, Refusal>
    ensures { (result ≡ (line_answer program line.now out.old).answer) × (out.new ≡ (line_answer program line.now out.old).output) }
{
    let mode = mode_of(line);
    let rest = behind_start(line);
    let mut answer = Line::new();
    match program {
        Program::Drill => keys_line(&mut answer, mode, rest, false),
        Program::DrillWithKeys => keys_line(&mut answer, mode, rest, true),
        Program::Spell => answer.spelled(mode, rest),
    }
    output::write(answer.held(), out)
}
