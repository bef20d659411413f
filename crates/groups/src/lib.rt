// The numbers of a recording: groups of seven bits, the low group first, the top bit set when more follow.
#![tactic(auto)]

ghost use Rattle.std.specs.Prelude.{◌≡◌, ◌<◌, ◌≤◌, drop};
ghost use Rattle.groups.specs.Numbers.{written as written_of, in_front as in_front_of, number_in, number, held};

// A number that was read: its value, and in how many groups it stands.
#[derive(Clone, Copy)]
pub struct Number {
    pub value: u32,
    pub groups: usize,
}

// A number as it is written: its groups, and how many of the five they are. An array with its count: nothing is allocated.
#[derive(Clone, Copy)]
pub struct Groups {
    pub bytes: [u8; 5],
    pub count: usize,
}

const MOST: u8 = 5;

const LIMIT: u64 = 4294967296;

// The number that stands at a place. None: cut short, too long, too large, or not in the shortest form.
pub fn number_at(bytes: &[u8], at: usize) -> Option<Number>
    ensures { result ≡ number (drop at bytes.now) }
{
    groups_at(bytes, at, MOST)
}

// The same in at most so many groups.
fn groups_at(bytes: &[u8], at: usize, left: u8) -> Option<Number>
    requires { left ≤ 5 }
    ensures { result ≡ number_in left (drop at bytes.now) }
{
    if left == 0 {
        return None;
    }
    let b = *bytes.get(at)?;
    if b < 128 {
        return Some(Number {
            value: b as u32,
            groups: 1,
        });
    }
    let behind = groups_at(bytes, at + 1, left - 1)?;
    in_front(b % 128, behind)
}

// A low group in front of the number that the groups behind it are.
fn in_front(low: u8, n: Number) -> Option<Number>
    requires { n.groups < 5 }
    ensures { result ≡ (in_front_of low (Some n)) }
{
    if n.value == 0 {
        return None;
    }
    let value = (low as u64) + 128 * (n.value as u64);
    if LIMIT <= value {
        return None;
    }
    Some(Number {
        value: value as u32,
        groups: n.groups + 1,
    })
}

// A number in its groups.
pub fn written(n: u32) -> Groups
    ensures { result ≡ held (written_of n) }
{
    let mut bytes = [0; 5];
    let mut left = n;
    let mut i = 0;
    // A `while`: what ends it is the number. A `for` over the five places would have an end behind it that is never reached.
    while 128 <= left {
        bytes[i] = (128 + left % 128) as u8;
        left /= 128;
        i += 1;
    }
    bytes[i] = left as u8;
    Groups {
        bytes,
        count: i + 1,
    }
}
