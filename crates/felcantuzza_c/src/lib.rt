// What the box links: the calls of felcantuzza, each exported to C under its own name, with its contract, and in its body the call alone.
// The header gives C these names, so each call stands here once more.
#![tactic(auto)]

ghost use Rattle.felcantuzza.specs.Calls as Calls;
ghost use Rattle.felcantuzza.specs.Recordings as Recordings;
ghost use Rattle.std.specs.Prelude.{◌≡◌};

// A new word in a mode. Refusals: 8, 1.
#[unsafe(no_mangle)]
pub extern "C" fn fz_start(mode: u8, lent: &mut [u8], value: &mut usize) -> u8
    ensures { (result ≡ Calls.returned (Calls.start mode lent.old)) × (value.new ≡ Calls.value_by Calls.only_one (Calls.start mode lent.old)) × (lent.new ≡ Calls.start_word mode lent.old) }
{
    felcantuzza::fz_start(mode, lent, value)
}

// A key typed; the value is what it did. Refusals: 8, 2, 3.
#[unsafe(no_mangle)]
pub extern "C" fn fz_type(lent: &mut [u8], key: u8, value: &mut usize) -> u8
    ensures { (result ≡ Calls.returned (Calls.type lent.old key)) × (value.new ≡ Calls.value_by Calls.in_one (Calls.type lent.old key)) × (lent.new ≡ Calls.type_word lent.old key) }
{
    felcantuzza::fz_type(lent, key, value)
}

// A key typed and the word shown, with one range check; `did` is what the key did, as fz_type's value, and 0 where the call is refused;
// the value is the bytes written. Refusals: 8, 2, 3, 4. The key is typed where the bytes lie, and of the new word no more is read than is shown.
#[unsafe(no_mangle)]
pub extern "C" fn fz_type_and_show(
    lent: &mut [u8],
    key: u8,
    out: &mut [u8],
    did: &mut usize,
    value: &mut usize,
) -> u8
    ensures { (result ≡ Calls.returned (Calls.type_and_show lent.old key out.old)) × (did.new ≡ Calls.did (Calls.type_and_show lent.old key out.old)) × (value.new ≡ Calls.value_by Calls.only_one (Calls.type_and_show lent.old key out.old)) × (lent.new ≡ Calls.type_and_show_word lent.old key out.old) × (out.new ≡ Calls.type_and_show_output lent.old key out.old) }
{
    felcantuzza::fz_type_and_show(lent, key, out, did, value)
}

// The word shown; the value is the bytes written. Refusals: 8, 4.
#[unsafe(no_mangle)]
pub extern "C" fn fz_show(lent: &[u8], out: &mut [u8], value: &mut usize) -> u8
    ensures { (result ≡ Calls.returned (Calls.show lent.now out.old)) × (value.new ≡ Calls.value_by Calls.only_one (Calls.show lent.now out.old)) × (out.new ≡ Calls.show_output lent.now out.old) }
{
    felcantuzza::fz_show(lent, out, value)
}

// The verdict on the word. Refusals: 8.
#[unsafe(no_mangle)]
pub extern "C" fn fz_verdict(lent: &[u8], value: &mut usize) -> u8
    ensures { (result ≡ Calls.returned (Calls.verdict lent.now)) × (value.new ≡ Calls.value_by Calls.only_one (Calls.verdict lent.now)) }
{
    felcantuzza::fz_verdict(lent, value)
}

// The place of the tone, 255 where there is none. Refusals: 8.
#[unsafe(no_mangle)]
pub extern "C" fn fz_place(lent: &[u8], value: &mut usize) -> u8
    ensures { (result ≡ Calls.returned (Calls.place lent.now)) × (value.new ≡ Calls.value_by Calls.placed (Calls.place lent.now)) }
{
    felcantuzza::fz_place(lent, value)
}

// The decision on the word: 0 keep, 1 restore. Refusals: 8.
#[unsafe(no_mangle)]
pub extern "C" fn fz_decision(lent: &[u8], value: &mut usize) -> u8
    ensures { (result ≡ Calls.returned (Calls.decision lent.now)) × (value.new ≡ Calls.value_by Calls.only_one (Calls.decision lent.now)) }
{
    felcantuzza::fz_decision(lent, value)
}

// Commit and its question in one: 0 the text is kept, 1 the keys are handed back. Refusals: 1, 2 (32), 2 (96), 3, 5.
#[unsafe(no_mangle)]
pub extern "C" fn fz_commit(mode: u8, keys: &[u8], text: &[u8], value: &mut usize) -> u8
    ensures { (result ≡ Calls.returned (Calls.commit mode keys.now text.now)) × (value.new ≡ Calls.value_by Calls.only_one (Calls.commit mode keys.now text.now)) }
{
    felcantuzza::fz_commit(mode, keys, text, value)
}

// A shown syllable as its standard key list; the value is the keys written. Refusals: 1, 2 (96), 6, 7, 4.
#[unsafe(no_mangle)]
pub extern "C" fn fz_spell(mode: u8, text: &[u8], out: &mut [u8], value: &mut usize) -> u8
    ensures { (result ≡ Calls.returned (Calls.spell mode text.now out.old)) × (value.new ≡ Calls.value_by Calls.only_one (Calls.spell mode text.now out.old)) × (out.new ≡ Calls.spell_output mode text.now out.old) }
{
    felcantuzza::fz_spell(mode, text, out, value)
}

// A drill as a recording; each press is one number, its key and 256 times its milliseconds; the value is the bytes written. Refusals: 1; 2, 3, 11 with the press's place; 4.
#[unsafe(no_mangle)]
pub extern "C" fn fz_record(mode: u8, presses: &[u64], out: &mut [u8], value: &mut usize) -> u8
    ensures { (result ≡ Calls.returned (Recordings.record_drill mode presses.now out.old)) × (value.new ≡ Calls.value_by Calls.only_one (Recordings.record_drill mode presses.now out.old)) × (out.new ≡ Recordings.record_output mode presses.now out.old) }
{
    felcantuzza::fz_record(mode, presses, out, value)
}

// The mode in front of a recording is the value, and `at` the place of the first press. Refusals: 10, 1, at place 0.
#[unsafe(no_mangle)]
pub extern "C" fn fz_begin(recording: &[u8], at: &mut usize, value: &mut usize) -> u8
    ensures { (result ≡ Calls.returned (Recordings.begin recording.now)) × (value.new ≡ Calls.value_by Calls.only_one (Recordings.begin recording.now)) × (at.new ≡ Recordings.begin_at recording.now at.old) }
{
    felcantuzza::fz_begin(recording, at, value)
}

// The press at a place; the value is its number, and 0 at the end. Place, keys of the word that has begun and milliseconds so far move on behind it,
// and stay at the end and where the step is refused. Refusals: 10, 2, 3, 11 with their places.
#[unsafe(no_mangle)]
pub extern "C" fn fz_next(
    recording: &[u8],
    mode: u8,
    at: &mut usize,
    in_word: &mut usize,
    milliseconds: &mut usize,
    value: &mut usize,
) -> u8
    ensures { (result ≡ Calls.returned (Recordings.next recording.now mode at.old in_word.old milliseconds.old)) × (value.new ≡ Calls.value_by Calls.only_one (Recordings.next recording.now mode at.old in_word.old milliseconds.old)) × (at.new ≡ Recordings.next_at recording.now mode at.old in_word.old milliseconds.old) × (in_word.new ≡ Recordings.next_in_word recording.now mode at.old in_word.old milliseconds.old) × (milliseconds.new ≡ Recordings.next_milliseconds recording.now mode at.old in_word.old milliseconds.old) }
{
    felcantuzza::fz_next(recording, mode, at, in_word, milliseconds, value)
}

// The words of a recording, each committed and with a newline, and the summary; the value is the bytes written. Refusals: 10, 1, 2, 3, 11 with the place; 4.
#[unsafe(no_mangle)]
pub extern "C" fn fz_replay(
    recording: &[u8],
    out: &mut [u8],
    summary: &mut [usize; 7],
    value: &mut usize,
) -> u8
    ensures { (result ≡ Calls.returned (Recordings.replay recording.now out.old)) × (value.new ≡ Calls.value_by Calls.only_one (Recordings.replay recording.now out.old)) × (out.new ≡ Recordings.replay_output recording.now out.old) × (summary.new ≡ Recordings.replay_summary recording.now out.old summary.old) }
{
    felcantuzza::fz_replay(recording, out, summary, value)
}
