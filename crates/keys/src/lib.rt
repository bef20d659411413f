// The keys: which bytes are keys in a mode, what a key is for, and the letter that it is when it is appended.
#![tactic(auto)]

ghost use Rattle.std.specs.Prelude.{◌≡◌};
ghost use Rattle.rules.specs.TheWord.{number};
ghost use Rattle.rules.specs.KeyRoles.{is_small as is_small_of, is_digit as is_digit_of, is_key as is_key_of, lower as lower_of, letter_of_key as letter_of_key_of, role_in, telex_roles, vni_roles, role as role_of};
ghost use Rattle.rules.specs.Refusals.{is_mode as is_mode_of};

use rules::{ACUTE, CAPITAL, DOT, GRAVE, HOOK, Role, ShapeKey, TILDE, ToneKey, Word};

// The modes: Telex and VNI.
pub fn is_mode(mode: u8) -> bool
    ensures { result ≡ is_mode_of mode }
{
    matches!(mode, Word::TELEX | Word::VNI)
}

pub fn is_small(key: u8) -> bool
    ensures { result ≡ is_small_of key }
{
    key.is_ascii_lowercase()
}

pub fn is_digit(key: u8) -> bool
    ensures { result ≡ is_digit_of key }
{
    key.is_ascii_digit()
}

// Keys: a letter A-Z, a-z, in VNI also 0-9.
pub fn is_key(mode: u8, key: u8) -> bool
    ensures { result ≡ is_key_of mode key }
{
    key.is_ascii_alphabetic() || (mode == Word::VNI && key.is_ascii_digit())
}

// A key appended is a plain letter in its own case.
pub fn letter_of_key(key: u8) -> u16
    ensures { result ≡ number (letter_of_key_of key) }
{
    if key.is_ascii_uppercase() {
        u16::from(key.to_ascii_lowercase()) + CAPITAL
    } else {
        u16::from(key)
    }
}

// Two tables of the document, here and in `vni_role`: they have no entry in common.
fn telex_role(key: u8) -> Role
    ensures { result ≡ role_in telex_roles (lower_of key) }
{
    match key {
        b's' | b'S' => Role::ToneRole(ToneKey::SetTone(ACUTE)),
        b'f' | b'F' => Role::ToneRole(ToneKey::SetTone(GRAVE)),
        b'r' | b'R' => Role::ToneRole(ToneKey::SetTone(HOOK)),
        b'x' | b'X' => Role::ToneRole(ToneKey::SetTone(TILDE)),
        b'j' | b'J' => Role::ToneRole(ToneKey::SetTone(DOT)),
        b'z' | b'Z' => Role::ToneRole(ToneKey::ClearTone),
        b'a' | b'A' => Role::ShapeRole(ShapeKey::CircumflexOn(b'a')),
        b'e' | b'E' => Role::ShapeRole(ShapeKey::CircumflexOn(b'e')),
        b'o' | b'O' => Role::ShapeRole(ShapeKey::CircumflexOn(b'o')),
        b'w' | b'W' => Role::ShapeRole(ShapeKey::HornBreve),
        b'd' | b'D' => Role::StrokeRole,
        _ => Role::NoRole,
    }
}

fn vni_role(key: u8) -> Role
    ensures { result ≡ role_in vni_roles (lower_of key) }
{
    match key {
        b'1' => Role::ToneRole(ToneKey::SetTone(ACUTE)),
        b'2' => Role::ToneRole(ToneKey::SetTone(GRAVE)),
        b'3' => Role::ToneRole(ToneKey::SetTone(HOOK)),
        b'4' => Role::ToneRole(ToneKey::SetTone(TILDE)),
        b'5' => Role::ToneRole(ToneKey::SetTone(DOT)),
        b'0' => Role::ToneRole(ToneKey::ClearTone),
        b'6' => Role::ShapeRole(ShapeKey::Circumflex),
        b'7' => Role::ShapeRole(ShapeKey::Horn),
        b'8' => Role::ShapeRole(ShapeKey::Breve),
        b'9' => Role::StrokeRole,
        _ => Role::NoRole,
    }
}

// What a key is for in a mode; upper case acts as lower, and a mode that does not exist has no role.
pub fn role(mode: u8, key: u8) -> Role
    ensures { result ≡ role_of mode key }
{
    match mode {
        Word::TELEX => telex_role(key),
        Word::VNI => vni_role(key),
        _ => Role::NoRole,
    }
}
