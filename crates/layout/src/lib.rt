// The word's record as 169 bytes at fixed places, as C lends it: no struct and no bool crosses.
#![tactic(auto)]

ghost use Rattle.std.specs.Prelude.{◌≡◌, ◌+◌, ◌*◌, length};
ghost use Rattle.layout.specs.Places.{pairs, numbers, is_long, as_record, held, record_written, letters_put};

use rules::Word;

// What stands where. The closed mark is 0 for open and 1 for closed; a letter has two bytes, low byte first; the last three are the
// places of keys: of those that appended the letters, of those that shaped them, and of the one that set the tone.
pub const AT_MODE: usize = 0;

pub const AT_COUNT: usize = 1;

pub const AT_TONE: usize = 2;

pub const AT_CLOSED: usize = 3;

pub const AT_TYPED: usize = 4;

pub const AT_ACTED: usize = 5;

pub const AT_UNDONE: usize = 6;

pub const AT_APPENDED: usize = 7;

pub const AT_KEYS: usize = 8;

pub const AT_LETTERS: usize = 40;

pub const AT_APPENDED_BY: usize = 104;

pub const AT_SHAPED_BY: usize = 136;

pub const AT_TONED_BY: usize = 168;

pub const LENGTH: usize = 169;

// The letters' numbers, two bytes each.
fn letters_in(pairs: &[u8]) -> [u16; Word::KEYS]
    requires { length pairs.now ≡ 64 }
    ensures { result ≡ numbers pairs.now }
{
    let mut letters = [0; Word::KEYS];
    let (twos, _) = pairs.as_chunks::<2>();
    for (i, two) in twos.iter().enumerate() {
        letters[i] = u16::from_le_bytes(*two);
    }
    letters
}

// The bytes of the letters' numbers. The loop goes by the slice's length, so that the compiler puts it into its callers, where the
// length is known and all are moved at once.
fn put_pairs(letters: &[u16], out: &mut [u8])
    requires { (length letters.now ≡ 32) × (length out.old ≡ 64) }
    ensures { out.new ≡ pairs letters.now }
{
    for (i, letter) in letters.iter().enumerate() {
        // By index: of bytes written through chunks that are lent out, a proof knows no values.
        let [low, high] = letter.to_le_bytes();
        out[2 * i] = low;
        out[2 * i + 1] = high;
    }
}

// The record that bytes are. None where they are not 169 or the mark is neither 0 nor 1.
pub fn read(buffer: &[u8]) -> Option<Word>
    ensures { result ≡ as_record buffer.now }
{
    if buffer.len() != LENGTH {
        return None;
    }
    let mark = buffer[AT_CLOSED];
    if 1 < mark {
        return None;
    }
    let mut keys = [0; Word::KEYS];
    keys.copy_from_slice(&buffer[AT_KEYS..AT_LETTERS]);
    let letters = letters_in(&buffer[AT_LETTERS..AT_APPENDED_BY]);
    let mut appended_by = [0; Word::KEYS];
    appended_by.copy_from_slice(&buffer[AT_APPENDED_BY..AT_SHAPED_BY]);
    let mut shaped_by = [0; Word::KEYS];
    shaped_by.copy_from_slice(&buffer[AT_SHAPED_BY..AT_TONED_BY]);
    Some(Word {
        mode: buffer[AT_MODE],
        letters,
        appended_by,
        shaped_by,
        count: buffer[AT_COUNT],
        tone: buffer[AT_TONE],
        toned_by: buffer[AT_TONED_BY],
        closed: mark == 1,
        keys,
        typed: buffer[AT_TYPED],
        acted: buffer[AT_ACTED],
        undone: buffer[AT_UNDONE],
        appended: buffer[AT_APPENDED],
    })
}

// The record's bytes. False, and nothing written, where there is not room for exactly 169.
pub fn write(w: Word, buffer: &mut [u8]) -> bool
    ensures { (result ≡ is_long buffer.old) × (buffer.new ≡ record_written w buffer.old) }
{
    if buffer.len() != LENGTH {
        return false;
    }
    buffer[AT_MODE] = w.mode;
    buffer[AT_COUNT] = w.count;
    buffer[AT_TONE] = w.tone;
    buffer[AT_CLOSED] = w.closed as u8;
    buffer[AT_TYPED] = w.typed;
    buffer[AT_ACTED] = w.acted;
    buffer[AT_UNDONE] = w.undone;
    buffer[AT_APPENDED] = w.appended;
    let keys = w.keys;
    buffer[AT_KEYS..AT_LETTERS].copy_from_slice(&keys);
    let letters = w.letters;
    put_pairs(&letters, &mut buffer[AT_LETTERS..AT_APPENDED_BY]);
    let appended_by = w.appended_by;
    buffer[AT_APPENDED_BY..AT_SHAPED_BY].copy_from_slice(&appended_by);
    let shaped_by = w.shaped_by;
    buffer[AT_SHAPED_BY..AT_TONED_BY].copy_from_slice(&shaped_by);
    buffer[AT_TONED_BY] = w.toned_by;
    true
}

// The letters of the record that bytes are: those of a new word where they are none. Where no more is wanted of a record, all else need not
// be read.
pub fn letters_of(buffer: &[u8]) -> [u16; Word::KEYS]
    ensures { result ≡ (held buffer.now).letters }
{
    if buffer.len() != LENGTH {
        return [0; Word::KEYS];
    }
    if 1 < buffer[AT_CLOSED] {
        return [0; Word::KEYS];
    }
    letters_in(&buffer[AT_LETTERS..AT_APPENDED_BY])
}

// The bytes of 32 letters in their place, and all else as it was. Nothing is written of another number of letters, or where there are not
// exactly 169 bytes.
pub fn put_letters(letters: &[u16], buffer: &mut [u8])
    ensures { buffer.new ≡ letters_put letters.now buffer.old }
{
    if (letters.len() != Word::KEYS) | (buffer.len() != LENGTH) {
        return;
    }
    put_pairs(letters, &mut buffer[AT_LETTERS..AT_APPENDED_BY]);
}
