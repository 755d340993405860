// The public profile, with what every caller may rely on.
ghost use Rattle.std.specs.Prelude.{◌≡◌, length};
ghost use Rattle.profile.specs.Sound.{FixedFine, FixedFit, FixedUntouched, PegsFine, PegsFit, PegsUntouched};

use pegs::tables::Tables;

pub mod calls;

// Curve lengths in metres by peg number, and their total.
// stays: an array beside the pegs' slots, since a profile never needs memory, and a book writes whole slots and knows no lengths
#[derive(Clone, Copy)]
pub struct Lengths {
    pub by_peg: [u32; 40],
    pub total: u32,
}

// The tables, how often a fitting was accepted, and the lengths while it is fitted.
#[derive(Clone, Copy)]
pub struct Profile {
    tables: Tables,
    fittings: u32,
    fitted: Option<Lengths>,
    ghost forty: { length tables.pegs ≡ 40 },
    ghost sixteen: { length tables.fixed ≡ 16 },
    ghost pegs_fine: { PegsFine tables },
    ghost fixed_fine: { FixedFine tables },
    ghost pegs_fit: { PegsFit tables },
    ghost fixed_fit: { FixedFit tables },
    ghost pegs_untouched: { PegsUntouched tables },
    ghost fixed_untouched: { FixedUntouched tables },
}
