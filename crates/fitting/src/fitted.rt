// A fitted alignment: the lengths of its curves, and the levels that they give.
ghost use Rattle.std.specs.Prelude.{◌≡◌, ℕ, ◌+◌, ◌-◌, ◌<◌, ◌≤◌, length, take, MatchOption, ◌≢◌};
ghost use Rattle.fitting.specs.Laid.{LaidApart, LengthTold, LevelIs, LevelTold};
ghost use Rattle.fitting.specs.Line.{OnRoad, number as number_at};
ghost use Rattle.fitting.specs.Rules.{OnStretch, len};

use crate::alignment::{Alignment, Standing};
use crate::grade_line::GradeLine;
use crate::level::Course;

// A length in metres for each peg in force, in their order, and the total.
// stays: room for the lengths of forty pegs, since there is no heap and the whole is copied
#[derive(Clone, Copy)]
pub struct Fitted {
    pub alignment: Alignment,
    pub lengths: [u32; 40],
    pub total: u32,
    ghost forty: { length lengths ≡ 40 },
    ghost apart: { LaidApart (take alignment.count alignment.pegs) (take alignment.count lengths) },
    ghost first: { len (take alignment.count lengths) 0 ≡ 0 },
    ghost last: { len (take alignment.count lengths) (length (take alignment.count alignment.pegs) - 1) ≡ 0 },
}

impl GradeLine<'_> {
    // The stretch that a station belongs to: the last that starts at or before it.
    fn stretch_of(&self, station: u32) -> usize
        requires { OnRoad self.now.pegs.now station }
        ensures there { result + 1 < length self.now.pegs.now }
        ensures on { OnStretch self.now.pegs.now result station }
    {
        let inner = &self.pegs[1..self.pegs.len() - 1];
        inner.partition_point(|peg| peg.point.station <= station)
    }

    // The level at a station of the road.
    fn level_on(&self, lengths: &[u32], station: u32) -> u32
        requires road { OnRoad self.now.pegs.now station }
        requires count { length lengths.now ≡ length self.now.pegs.now }
        requires apart { LaidApart self.now.pegs.now lengths.now }
        requires first { len lengths.now 0 ≡ 0 }
        requires last { len lengths.now (length self.now.pegs.now - 1) ≡ 0 }
        ensures { LevelIs self.now.pegs.now lengths.now station result }
    {
        let i = self.stretch_of(station);
        Course {
            stretch: self.stretch_at(i),
            left: lengths[i],
            right: lengths[i + 1],
        }
        .nearest_level(station)
    }
}

// The place of the peg with this number.
fn place_of(pegs: &[Standing], number: u32) -> Option<usize>
    ensures { MatchOption result ((i : ℕ) → i < length pegs.now → number_at pegs.now i ≢ number) (λ i. (i < length pegs.now) × (number_at pegs.now i ≡ number)) }
{
    pegs.iter().position(|peg| peg.number == number)
}

impl Fitted {
    // How many turns have curves: every peg in force but the two at the ends.
    pub fn turns(&self) -> u32
        ensures { result + 2 ≡ length (take self.now.alignment.count self.now.alignment.pegs) }
    {
        self.alignment.count as u32 - 2
    }

    // The level at a station, to the nearest millimetre; none off the road.
    pub fn level(&self, station: u32) -> Option<u32>
        ensures { LevelTold (take self.now.alignment.count self.now.alignment.pegs) (take self.now.alignment.count self.now.lengths) station result }
    {
        let line = self.alignment.grade_line();
        let pegs = line.pegs;
        if station < pegs[0].point.station || station > pegs[pegs.len() - 1].point.station {
            return None;
        }
        let lengths = &self.lengths[..self.alignment.count];
        Some(line.level_on(lengths, station))
    }

    // The length of a peg's curve; none where the peg is absent.
    pub fn length(&self, peg: u32) -> Option<u32>
        ensures { LengthTold (take self.now.alignment.count self.now.alignment.pegs) (take self.now.alignment.count self.now.lengths) peg result }
    {
        place_of(self.alignment.line(), peg).map(|i| self.lengths[i])
    }
}
