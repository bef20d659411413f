// The nuclei of document 01 with their finals: which is listed, and which one letters could still become.
// Initial, nucleus and final are asked by their numbers.
ghost use Rattle.std.specs.Prelude.{◌≡◌, ◌≤◌, length};
ghost use Rattle.rules.specs.Letters.{Letters};
ghost use Rattle.rules.specs.TakingApart.{takes as takes_of, stands as stands_of, agrees as agrees_of, could_be as could_be_of, listed as listed_of, some_agrees as some_agrees_of, in_row};
ghost use Rattle.syllable.specs.Numbers.{Packs, Numbers, plain_of, agree_digit};
ghost use Rattle.syllable.specs.Nuclei.{row_of, with_bases as with_bases_of, three_of};

use super::words::*;

// The nuclei (55), the finals of each, and NONE where it stands open.
fn in_table(nuc: u64, fin: u64) -> bool
    ensures { (v f : Letters) → Packs nuc v → Packs fin f → result ≡ in_row (row_of v) f }
{
    match nuc {
        A | OA => matches!(fin, NONE | C | CH | M | N | NG | NH | P | T),
        E | O | OO | U | UW | OE => matches!(fin, NONE | C | M | N | NG | P | T),
        AW | AA | OAW | UAA | IEE | YEE | UOO | UWOW => matches!(fin, C | M | N | NG | P | T),
        I | EE | UEE => matches!(fin, NONE | CH | M | N | NH | P | T),
        OW => matches!(fin, NONE | M | N | P | T),
        Y | UY => matches!(fin, NONE | CH | N | NH | P | T),
        UYEE => matches!(fin, N | T),
        AI | AO | AU | AY | AAU | AAY | EO | EEU | IA | IU => fin == NONE,
        OI | OOI | OWI | UA | UI | UWA | UWI | UWU => fin == NONE,
        IEEU | YEEU | OAI | OAY | OEO | UAAY | UOOI | UYA => fin == NONE,
        UWOWI | UWOWU | UYU | UEEU | OAO | UOW => fin == NONE,
        _ => false,
    }
}

// After gi, ê also takes ng (giếng).
fn takes(ini: u64, nuc: u64, fin: u64) -> bool
    ensures { (w v f : Letters) → Packs ini w → Packs nuc v → Packs fin f → result ≡ takes_of w (row_of v) v f }
{
    in_table(nuc, fin) || (ini == GI && nuc == EE && fin == NG)
}

// uơ stands only after h, kh and th, yê and yêu only after no initial or qu. After qu, no nucleus of two or more letters begins with o in any shape.
fn stands(ini: u64, nuc: u64) -> bool
    ensures { (w v : Letters) → Packs ini w → Packs nuc v → result ≡ stands_of w v }
{
    if nuc == UOW {
        return matches!(ini, H | KH | TH);
    }
    match ini {
        QU => nuc < NEXT || nuc % SHAPE != O,
        NONE => true,
        _ => nuc != YEE && nuc != YEEU,
    }
}

// The nucleus, in letters and shapes, is in the list, is allowed after this initial, and with this final.
pub(crate) fn listed(ini: u64, nuc: u64, fin: u64) -> bool
    ensures { (w v f : Letters) → Packs ini w → Packs nuc v → Packs fin f → result ≡ listed_of w v f }
{
    stands(ini, nuc) & takes(ini, nuc, fin)
}

// A word's number without its shapes.
fn plain(p: u64) -> u64
    ensures { result ≡ plain_of p }
{
    p % SHAPE + NEXT * (p / NEXT % SHAPE + NEXT * (p / NEXT / NEXT % SHAPE))
}

// The listed nuclei with these base letters, in the order of the list, and NONE where there are fewer: so at most three are asked, and not all 55.
fn with_bases(bases: u64) -> [u64; 3]
    ensures { (result ≡ three_of (with_bases_of bases)) × (length (with_bases_of bases) ≤ 3) }
{
    match bases {
        A => [A, AW, AA],
        OA => [OA, OAW, NONE],
        E => [E, EE, NONE],
        O => [O, OO, OW],
        U => [U, UW, NONE],
        OE => [OE, NONE, NONE],
        UA => [UAA, UA, UWA],
        IE => [IEE, NONE, NONE],
        YE => [YEE, NONE, NONE],
        UO => [UOO, UWOW, UOW],
        I => [I, NONE, NONE],
        UE => [UEE, NONE, NONE],
        Y => [Y, NONE, NONE],
        UY => [UY, NONE, NONE],
        UYE => [UYEE, NONE, NONE],
        AI => [AI, NONE, NONE],
        AO => [AO, NONE, NONE],
        AU => [AU, AAU, NONE],
        AY => [AY, AAY, NONE],
        EO => [EO, NONE, NONE],
        EU => [EEU, NONE, NONE],
        IA => [IA, NONE, NONE],
        IU => [IU, NONE, NONE],
        OI => [OI, OOI, OWI],
        UI => [UI, UWI, NONE],
        UU => [UWU, NONE, NONE],
        IEU => [IEEU, NONE, NONE],
        YEU => [YEEU, NONE, NONE],
        OAI => [OAI, NONE, NONE],
        OAY => [OAY, NONE, NONE],
        OEO => [OEO, NONE, NONE],
        UAY => [UAAY, NONE, NONE],
        UOI => [UOOI, UWOWI, NONE],
        UYA => [UYA, NONE, NONE],
        UOU => [UWOWU, NONE, NONE],
        UYU => [UYU, NONE, NONE],
        UEU => [UEEU, NONE, NONE],
        OAO => [OAO, NONE, NONE],
        _ => [NONE, NONE, NONE],
    }
}

// A letter already shaped agrees with that shape alone; a plain letter is free.
fn agrees_at(x: u64, z: u64) -> bool
    ensures { result ≡ agree_digit x z }
{
    (x == z) | (x == z % SHAPE)
}

// The same base letters, and agreeing with every letter already shaped.
fn agrees(nuc: u64, z: u64) -> bool
    ensures { (v l : Letters) → Packs nuc v → Numbers z l → result ≡ agrees_of v l }
{
    agrees_at(nuc % NEXT, z % NEXT)
        && agrees_at(nuc / NEXT % NEXT, z / NEXT % NEXT)
        && agrees_at(nuc / NEXT / NEXT, z / NEXT / NEXT)
}

// Could the letters become this listed nucleus: an empty final is always taken.
fn could_be(ini: u64, nuc: u64, fin: u64, z: u64) -> bool
    ensures { (w v f l : Letters) → Packs ini w → Packs nuc v → Packs fin f → Numbers z l → result ≡ could_be_of w v f (row_of l) l }
{
    agrees(nuc, z) && stands(ini, z) && (fin == NONE || takes(ini, z, fin))
}

// Some listed nucleus agrees, may stand after this initial, and takes this final.
pub(crate) fn some_agrees(ini: u64, nuc: u64, fin: u64) -> bool
    ensures { (w v f : Letters) → Packs ini w → Packs nuc v → Packs fin f → result ≡ some_agrees_of w v f }
{
    if nuc == NONE {
        return false;
    }
    // No `any` over the three: the contract of `could_be` speaks of a word's letters, and a closure's has to compute from the number.
    let [first, second, third] = with_bases(plain(nuc));
    could_be(ini, nuc, fin, first)
        || could_be(ini, nuc, fin, second)
        || could_be(ini, nuc, fin, third)
}
