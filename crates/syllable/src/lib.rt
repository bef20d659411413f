// The syllable rules of document 01 over a lent slice of letters: base and shape; neither case, key nor mode.
// A letter is one number, base + 256 · shape and 2048 more for a capital, which is passed over.
#![tactic(auto)]

ghost use Rattle.std.specs.Prelude.{◌≡◌, map, ◌<◌};
ghost use Rattle.rules.specs.Letters.{Letters, one_of, first_base as first_base_of};
ghost use Rattle.rules.specs.TheWord.{letter};
ghost use Rattle.rules.specs.TakingApart.{initials, fit, finals, stop as stop_of, fits as fits_of, verdict as verdict_of, admitted as admitted_of};
ghost use Rattle.rules.specs.KeyRoles.{tone_goes};
ghost use Rattle.syllable.specs.Numbers.{digit_at as digit_at_of, packed as packed_of, Packs};
ghost use Rattle.syllable.specs.Checks.{first_fault};

mod nuclei;
mod words;

use nuclei::{listed, some_agrees};
use rules::{ACUTE, CAPITAL, DOT};
use words::*;

// A letter as a digit of its word's number; 0 past the end.
fn digit_at(part: &[u16], i: usize) -> u64
    ensures { (result ≡ digit_at_of i (map letter part.now)) × (result < 4096) }
{
    match part.get(i) {
        Some(&letter) => 2 * u64::from(letter % CAPITAL) + 1,
        None => 0,
    }
}

// A part of a word as one number: its first three letters as digits, and MORE where there are more.
fn packed(part: &[u16]) -> u64
    ensures { result ≡ packed_of (map letter part.now) }
{
    let three = digit_at(part, 0) + NEXT * (digit_at(part, 1) + NEXT * digit_at(part, 2));
    if 3 < part.len() { three + MORE } else { three }
}

// The base of a word's first letter, 0 where there is none.
fn first_base(p: u64) -> u8
    ensures { (w : Letters) → Packs p w → result ≡ first_base_of w }
{
    (p % SHAPE / 2) as u8
}

// Initials: none, a letter of that class, and these.
fn known_initial(ini: u64) -> bool
    ensures { (w : Letters) → Packs ini w → result ≡ one_of w initials }
{
    if ini < SHAPE {
        ini == NONE || classes::is_initial(first_base(ini))
    } else {
        matches!(
            ini,
            DD | CH | GH | GI | KH | NG | NH | PH | QU | TH | TR | NGH
        )
    }
}

// Does the first letter of the nucleus, by its base, fit the initial.
fn initial_fits(ini: u64, v: u8) -> bool
    ensures { (w : Letters) → Packs ini w → result ≡ fit w v }
{
    // No `matches!` of the bases: it branches and joins in each arm, and `|` is the rule's own test as one value.
    match ini {
        C | NG => !((v == b'e') | ((v == b'i') | (v == b'y'))),
        G => !((v == b'e') | (v == b'y')),
        K => (v == b'e') | ((v == b'i') | (v == b'y')),
        GH | NGH => (v == b'e') | (v == b'i'),
        GI => !((v == b'i') | (v == b'y')),
        QU => v != b'u',
        _ => true,
    }
}

// Finals: none, a letter of that class, and these.
fn known_final(fin: u64) -> bool
    ensures { (w : Letters) → Packs fin w → result ≡ one_of w finals }
{
    if fin < SHAPE {
        fin == NONE || classes::is_final(first_base(fin))
    } else {
        matches!(fin, CH | NG | NH)
    }
}

// Stops: a letter of that class, and ch.
fn stop(fin: u64) -> bool
    ensures { (w : Letters) → Packs fin w → result ≡ stop_of w }
{
    if fin < SHAPE {
        fin != NONE && classes::is_stop(first_base(fin))
    } else {
        fin == CH
    }
}

// Fits: tone 1 or 5, or the final is no stop.
fn tone_fits(fin: u64, tone: u8) -> bool
    ensures { (f : Letters) → Packs fin f → result ≡ fits_of f tone }
{
    match tone {
        ACUTE | DOT => true,
        _ => !stop(fin),
    }
}

// The first of the seven checks that holds, or 0: the one look that verdict and admission take at a word.
// The number is no answer of the code's own making: the clause says it, and `verdict` hands it out, so it is no enum.
// Check 6 asks for the nucleus as it stands; where its letters are free, for some listed nucleus that could still come of them.
fn ask(s: &[u16], tone: u8, free: bool) -> u8
    ensures { result ≡ first_fault (map letter s.now) tone free }
{
    let parts = parts::apart(s);
    let i = parts.initial;
    let n = parts.nucleus;
    let f = parts.end;
    if i == n {
        return 1;
    }
    let ini = packed(&s[0..i]);
    if !known_initial(ini) {
        return 2;
    }
    if f != s.len() {
        return 3;
    }
    let nuc = packed(&s[i..n]);
    if !initial_fits(ini, first_base(nuc)) {
        return 4;
    }
    let fin = packed(&s[n..f]);
    if !known_final(fin) {
        return 5;
    }
    if !(listed(ini, nuc, fin) || (free && some_agrees(ini, nuc, fin))) {
        return 6;
    }
    if !tone_fits(fin, tone) {
        return 7;
    }
    0
}

// The verdict on the letters with this tone: the first check that holds, or 0.
pub fn verdict(s: &[u16], tone: u8) -> u8
    ensures { result ≡ verdict_of (map letter s.now) tone }
{
    ask(s, tone, false)
}

// Are the letters admitted: checks 1 to 5 pass, and some listed nucleus could still come of them. The tone is not looked at: an acute fits every final.
pub fn admitted(s: &[u16]) -> bool
    ensures { result ≡ admitted_of (map letter s.now) }
{
    ask(s, ACUTE, true) == 0
}

// Does a tone go on the letters: they are admitted, and it fits their final.
pub fn takes_tone(s: &[u16], tone: u8) -> bool
    ensures { result ≡ tone_goes tone (map letter s.now) }
{
    ask(s, tone, true) == 0
}
