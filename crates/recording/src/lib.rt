// A recorded drill: the mode, then for each key the milliseconds since the last key and the key, all as numbers in groups. One step of its reading, and its writer.
#![tactic(auto)]

ghost use Rattle.std.specs.Prelude.{◌≡◌, false, ◌++◌, map, ◌+◌, ◌/◌, ◌%◌, ◌≤◌, T, leb, length, take, drop};
ghost use Rattle.rules.specs.TheWord.{at_front};
ghost use Rattle.rules.specs.KeyRoles.{is_key as is_key_of};
ghost use Rattle.rules.specs.Refusals.{all};
ghost use Rattle.groups.specs.Numbers.{limit, written};
ghost use Rattle.recording.specs.Recordings.{is_space, press, none_yet, in_word as in_word_of, onward as onward_of, word_full, checked as checked_of, staying as staying_of, refused_step, step_at as step_at_of, begin as begin_of};
ghost use Rattle.recording.specs.Drills.{press_in, short_time, drill_bytes, checked_from, written_drill};

use rules::{Refusal, Word, refuse};

// The key that ends a word.
pub const SPACE: u8 = b' ';

// All milliseconds together are below this.
const LIMIT: u64 = 4294967296;

// How far a drill has come: its mode, how many keys the word that has begun has, and the milliseconds so far.
// Every field is public, so any numbers can be handed in: 32 keys and more are a full word, and a mode that does not exist allows letters only.
#[derive(Clone, Copy, Debug, PartialEq, Eq)]
pub struct Progress {
    pub mode: u8,
    pub in_word: usize,
    pub milliseconds: u64,
}

// A key, and the milliseconds since the last one.
#[derive(Clone, Copy, Debug, PartialEq, Eq)]
pub struct KeyPress {
    pub milliseconds: u32,
    pub key: u8,
}

// After a step: what it met (a key that was pressed, none at the end of the recording, or a refusal with its place), the place of the next one, and how far the drill has come.
#[derive(Clone, Copy, Debug, PartialEq, Eq)]
pub struct Stepped {
    pub press: Result<Option<KeyPress>, Refusal>,
    pub at: usize,
    pub progress: Progress,
}

// Behind the mode: the place of the first step, and a drill that has only begun.
#[derive(Clone, Copy, Debug, PartialEq, Eq)]
pub struct Begun {
    pub at: usize,
    pub progress: Progress,
}

// A press as the writer is handed it, one number, taken apart. Its time may be longer than a `KeyPress` can hold, and is refused only after the key.
#[derive(Clone, Copy)]
struct Given {
    milliseconds: u64,
    key: u8,
}

// The mode in front of a recording. Refusals: 10, 1, at place 0.
pub fn begin(recording: &[u8]) -> Result<Begun, Refusal>
    ensures { result ≡ begin_of recording.now }
{
    let Some(mode) = groups::number_at(recording, 0) else {
        return refuse(10, 0);
    };
    if mode.value > Word::VNI as u32 {
        return refuse(1, 0);
    }
    Ok(Begun {
        at: mode.groups,
        progress: Progress::new(mode.value as u8),
    })
}

impl Progress {
    fn new(mode: u8) -> Progress
        ensures { result ≡ none_yet mode }
    {
        Progress {
            mode,
            in_word: 0,
            milliseconds: 0,
        }
    }

    // How many keys the word that has begun has after one more: none after a space.
    fn keys_after(self, key: u8) -> usize
        requires { word_full self key ≡ false }
        ensures { result ≡ in_word_of (is_space key) self.in_word }
    {
        if key == SPACE { 0 } else { self.in_word + 1 }
    }

    // How far the drill has come with a press more.
    fn onward(self, x: KeyPress) -> Progress
        requires { checked_of self x 0 0 ≡ Ok tt }
        ensures { result ≡ onward_of self x }
    {
        Progress {
            in_word: self.keys_after(x.key),
            milliseconds: self.milliseconds + u64::from(x.milliseconds),
            ..self
        }
    }
}

impl Given {
    fn new(n: u64) -> Given
        ensures { (result.milliseconds ≡ n / 256) × (result.key ≡ n % 256) }
    {
        Given {
            milliseconds: n / 256,
            key: (n % 256) as u8,
        }
    }
}

// A key number that the mode allows: none over 255 is.
fn is_key(mode: u8, key: u32) -> bool
    ensures { result ≡ is_key_of mode key }
{
    key < 256 && keys::is_key(mode, key as u8)
}

// Milliseconds that are together over the limit, whatever the two numbers are.
fn too_long(total: u64, milliseconds: u64) -> bool
    ensures { result ≡ leb limit (total + milliseconds) }
{
    LIMIT <= total.saturating_add(milliseconds)
}

// What a press is refused for: 2 and 3 at the key's place, 11 at the time's.
fn check(
    progress: Progress,
    milliseconds: u64,
    key: u32,
    key_at: usize,
    time_at: usize,
) -> Result<(), Refusal>
    ensures { result ≡ checked_of progress (press milliseconds key) key_at time_at }
{
    let space = key == SPACE as u32;
    if !space & (Word::KEYS <= progress.in_word) {
        return refuse(2, key_at);
    }
    if !(space | is_key(progress.mode, key)) {
        return refuse(3, key_at);
    }
    if too_long(progress.milliseconds, milliseconds) {
        return refuse(11, time_at);
    }
    Ok(())
}

fn staying(x: Result<Option<KeyPress>, Refusal>, at: usize, progress: Progress) -> Stepped
    ensures { result ≡ staying_of x at progress }
{
    Stepped {
        press: x,
        at,
        progress,
    }
}

fn cut_short(place: usize, at: usize, progress: Progress) -> Stepped
    ensures { result ≡ refused_step 10 place at progress }
{
    let cut = refuse(10, place);
    staying(cut, at, progress)
}

// One step: the time and the key that stand at a place. Past the last of them is the end. Refusals: 10, 2, 3, 11 with their places; place and progress are then as they were.
pub fn step_at(recording: &[u8], at: usize, progress: Progress) -> Stepped
    ensures { result ≡ step_at_of recording.now at progress }
{
    if recording.len() <= at {
        return staying(Ok(None), at, progress);
    }
    let Some(time) = groups::number_at(recording, at) else {
        return cut_short(at, at, progress);
    };
    let key_at = at + time.groups;
    let Some(key) = groups::number_at(recording, key_at) else {
        return cut_short(key_at, at, progress);
    };
    if let Err(r) = check(progress, time.value as u64, key.value, key_at, at) {
        return staying(Err(r), at, progress);
    }
    let x = KeyPress {
        milliseconds: time.value,
        key: key.value as u8,
    };
    Stepped {
        press: Ok(Some(x)),
        at: key_at + key.groups,
        progress: progress.onward(x),
    }
}

// The first faulty press of a drill, by its place.
fn first_fault(mode: u8, presses: &[u64]) -> Result<(), Refusal>
    ensures { result ≡ checked_from (none_yet mode) 0 (map press_in presses.now) }
{
    let mut progress = Progress::new(mode);
    for (i, &n) in presses.iter().enumerate() {
        let given = Given::new(n);
        check(progress, given.milliseconds, given.key as u32, i, i)?;
        progress = progress.onward(KeyPress {
            milliseconds: given.milliseconds as u32,
            key: given.key,
        });
    }
    Ok(())
}

// How many bytes a drill takes.
fn bytes_needed(mode: u8, presses: &[u64]) -> usize
    requires { T (all short_time presses.now) }
    ensures { result ≡ length (drill_bytes mode (map press_in presses.now)) }
{
    let mut needed = count(mode as u32);
    for &n in presses {
        let given = Given::new(n);
        needed += count(given.milliseconds as u32) + count(given.key as u32);
    }
    needed
}

// How many bytes a number takes.
fn count(n: u32) -> usize
    ensures { (result ≡ length (written n)) × (result ≤ 5) }
{
    groups::written(n).count
}

// A number at a place of the output, and the place behind it.
fn put_number(n: u32, out: &mut [u8], at: usize) -> usize
    requires { at + length (written n) ≤ length out.old }
    ensures { (result ≡ at + length (written n)) × (out.new ≡ take at out.old ++ at_front (written n) (drop at out.old)) }
{
    let groups = groups::written(n);
    let end = at + groups.count;
    out[at..end].copy_from_slice(&groups.bytes[..groups.count]);
    end
}

// A drill at the front of an output that has room for it.
fn put_drill(mode: u8, presses: &[u64], out: &mut [u8]) -> usize
    requires { T (all short_time presses.now) × (length (drill_bytes mode (map press_in presses.now)) ≤ length out.old) }
    ensures { (result ≡ length (drill_bytes mode (map press_in presses.now))) × (out.new ≡ at_front (drill_bytes mode (map press_in presses.now)) out.old) }
{
    let mut at = put_number(mode as u32, out, 0);
    for &n in presses {
        let given = Given::new(n);
        at = put_number(given.milliseconds as u32, out, at);
        at = put_number(given.key as u32, out, at);
    }
    at
}

// A drill as a recording, at the front of the output; each press is its key and 256 times its milliseconds. Refusals: 1; at the first faulty press 2, 3, 11 with its place; 4 with the bytes needed. The output is then as it was.
pub fn write(mode: u8, presses: &[u64], out: &mut [u8]) -> Result<usize, Refusal>
    ensures { (result ≡ (written_drill mode presses.now out.old).answer) × (out.new ≡ (written_drill mode presses.now out.old).output) }
{
    if !keys::is_mode(mode) {
        return refuse(1, 0);
    }
    first_fault(mode, presses)?;
    let needed = bytes_needed(mode, presses);
    if out.len() < needed {
        return refuse(4, needed);
    }
    Ok(put_drill(mode, presses, out))
}
