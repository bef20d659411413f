// A text at the front of a lent output, or refusal 4: what show, the speller and the drill end in.
#![tactic(auto)]

ghost use Rattle.std.specs.Prelude.{◌≡◌};
ghost use Rattle.output.specs.Front.{put};

use rules::{Refusal, refuse};

// The text at the front of the output, and the rest of the output as it was. Refusals: 4 with the bytes needed; the output is then as it was.
pub fn write(text: &[u8], out: &mut [u8]) -> Result<usize, Refusal>
    ensures { (result ≡ (put text.now out.old).answer) × (out.new ≡ (put text.now out.old).output) }
{
    let needed = text.len();
    if out.len() < needed {
        return refuse(4, needed);
    }
    out[0..needed].copy_from_slice(text);
    Ok(needed)
}
