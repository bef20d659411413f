// Show: the text of a word, its tone on the letter at its place, in precomposed UTF-8.
#![tactic(auto)]

ghost use Rattle.std.specs.Prelude.{◌≡◌, ◌+◌, ◌*◌, ◌≤◌, length, map};
ghost use Rattle.std.proofs.lemmas.List.Edits.{sets};
ghost use Rattle.rules.specs.TheWord.{letter, at_front};
ghost use Rattle.rules.specs.WhatComesBack.{show as show_of};
ghost use Rattle.rules.specs.TonePlace.{tone_place};
ghost use Rattle.letters.specs.Writing.{bytes_if, letter_bytes};
ghost use Rattle.show.specs.Filling.{tone_if, toned_at, text_from, room_text, text_out};

use rules::{NO_TONE, Refusal, Word, refuse};

// The UTF-8 bytes of a code point from a place of the text on; the place after them. No code point (0) shows nothing. Stored byte by byte: an enum of the bytes between cost 14 instructions a key.
fn put_point(text: &mut [u8], at: usize, point: u16) -> usize
    requires { at + 3 ≤ length text.old }
    ensures { (result ≡ at + length (bytes_if point)) × (text.new ≡ sets text.old at (bytes_if point)) }
{
    if point == 0 {
        return at;
    }
    if point < 0x80 {
        text[at] = point as u8;
        return at + 1;
    }
    if point < 0x800 {
        text[at] = (0xC0 + point / 64) as u8;
        text[at + 1] = (0x80 + point % 64) as u8;
        return at + 2;
    }
    text[at] = (0xE0 + point / 4096) as u8;
    text[at + 1] = (0x80 + point / 64 % 64) as u8;
    text[at + 2] = (0x80 + point % 64) as u8;
    at + 3
}

// A letter with a tone on it, from a place of the text on; the place after it.
fn put_marked(text: &mut [u8], at: usize, letter: u16, tone: u8) -> usize
    requires { at + 3 ≤ length text.old }
    ensures { (result ≡ at + length (letter_bytes letter tone)) × (text.new ≡ sets text.old at (letter_bytes letter tone)) }
{
    put_point(text, at, letters::point(letter, tone))
}

// One letter, with the tone or with none. A plain small letter is its own byte, and most are such.
fn put_letter(text: &mut [u8], at: usize, letter: u16, toned: bool, tone: u8) -> usize
    requires { at + 3 ≤ length text.old }
    ensures { (result ≡ at + length (letter_bytes letter (tone_if toned tone))) × (text.new ≡ sets text.old at (letter_bytes letter (tone_if toned tone))) }
{
    if toned {
        return put_marked(text, at, letter, tone);
    }
    if letters::is_plain(letter) {
        text[at] = letter as u8;
        return at + 1;
    }
    put_marked(text, at, letter, NO_TONE)
}

// The letter that carries the tone; behind the last where none does.
fn toned(letters: &[u16], tone: u8) -> usize
    ensures { result ≡ toned_at (tone_place (map letter letters.now) tone) (length letters.now) }
{
    let n = letters.len();
    if tone == NO_TONE {
        return n;
    }
    let place = parts::tone_place(letters, tone);
    let Some(at) = place else {
        return n;
    };
    at
}

// The bytes of the letters, with the tone on the one at its place, at the front of the text; how many they are.
fn fill(text: &mut [u8], letters: &[u16], toned: usize, tone: u8) -> usize
    requires { 3 * length letters.now ≤ length text.old }
    ensures { (result ≡ length (text_from (Some toned) tone 0 letters.now)) × (text.new ≡ at_front (text_from (Some toned) tone 0 letters.now) text.old) }
{
    let mut at = 0;
    for (i, &letter) in letters.iter().enumerate() {
        at = put_letter(text, at, letter, i == toned, tone);
    }
    at
}

// The text in an output with room for any text; the bytes written. Of more than 32 letters, or in a shorter output, nothing is written, and 0.
pub fn in_room(letters: &[u16], tone: u8, out: &mut [u8]) -> usize
    ensures { (result ≡ length (room_text letters.now tone out.old)) × (out.new ≡ at_front (room_text letters.now tone out.old) out.old) }
{
    if Word::KEYS < letters.len() {
        return 0;
    }
    if out.len() < Word::TEXT {
        return 0;
    }
    let place = toned(letters, tone);
    fill(out, letters, place, tone)
}

// The text of letters with the tone on the one at its place, at the front of the output. A number that is no letter shows nothing.
// Refusals: 2 with 32 where there are more than 32 letters, then 4 with the bytes needed; the output is then as it was.
pub fn text(letters: &[u16], tone: u8, out: &mut [u8]) -> Result<usize, Refusal>
    ensures { (result ≡ (text_out letters.now tone out.old).answer) × (out.new ≡ (text_out letters.now tone out.old).output) }
{
    if Word::KEYS < letters.len() {
        return refuse(2, Word::KEYS);
    }
    // With room for any text it is made where it is to stand; else it is made first, and its length then known.
    if Word::TEXT <= out.len() {
        return Ok(in_room(letters, tone, out));
    }
    let mut made = [0; Word::TEXT];
    let needed = in_room(letters, tone, &mut made);
    output::write(&made[..needed], out)
}

// The text of a word that is lent, at the front of the output. Refusals: 8, then 4 with the bytes needed; the output is then as it was.
pub fn show_in(w: &Word, out: &mut [u8]) -> Result<usize, Refusal>
    ensures { (result ≡ (show_of w.now out.old).answer) × (out.new ≡ (show_of w.now out.old).output) }
{
    if records::lent_out_of_range(w) {
        return refuse(8, 0);
    }
    text(&w.letters[..w.count as usize], w.tone, out)
}

// The same of a record by value: an entry of its own, with its clause.
pub fn show(w: Word, out: &mut [u8]) -> Result<usize, Refusal>
    ensures { (result ≡ (show_of w out.old).answer) × (out.new ≡ (show_of w out.old).output) }
{
    show_in(&w, out)
}
