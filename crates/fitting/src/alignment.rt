// An alignment that is ready: pegs in force in the order of their numbers, and the fixed levels on them.
ghost use Rattle.std.specs.Prelude.{◌≡◌, ◌≤◌, length, take};
ghost use Rattle.fitting.specs.Line.{FiguresFine, Rising};
ghost use Rattle.fitting.specs.Ready.{FixedFine, FixedOn, PegsFine};

use pegs::peg::{FixedLevel, Peg};
use pegs::slot::Slot;
use pegs::tables::Tables;
use rules::point::Point;

// A peg in force, with its number.
#[derive(Clone, Copy)]
pub struct Standing {
    pub number: u32,
    pub point: Point,
}

// Tables whose figures are all in range.
#[derive(Clone, Copy)]
pub struct InRange {
    pub tables: Tables,
    ghost forty: { length tables.pegs ≡ 40 },
    ghost sixteen: { length tables.fixed ≡ 16 },
    ghost pegs_fine: { PegsFine tables.pegs },
    ghost fixed_fine: { FixedFine tables.fixed },
}

// The first `count` of `pegs` are in force; stations rise, and every fixed level lies on it.
// stays: room for forty pegs beside their count, since there is no heap and the whole is copied
#[derive(Clone, Copy)]
pub struct Alignment {
    pub pegs: [Standing; 40],
    pub count: usize,
    pub fixed: [Slot<FixedLevel>; 16],
    ghost forty: { length pegs ≡ 40 },
    ghost sixteen: { length fixed ≡ 16 },
    ghost least: { 2 ≤ count },
    ghost most: { count ≤ 40 },
    ghost figures: { FiguresFine (take count pegs) },
    ghost rising: { Rising (take count pegs) },
    ghost fixed_fine: { FixedFine fixed },
    ghost fixed_on: { FixedOn (take count pegs) fixed },
}
