// A grade: the straight line between two points.
ghost use Rattle.std.specs.Prelude.{◌≡◌, ◌≤◌, [], ◌∷◌, MatchResult, unsigned_abs};
ghost use Rattle.rules.specs.Points.{PointsRefused, PointsSound, rise as rise_of, run as run_of};

use crate::point::{Point, sound};
use crate::refusal::Refusal;

// Millimetres up (below zero: down) over metres along.
#[derive(Clone, Copy)]
pub struct Grade {
    pub rise: i64,
    pub run: u32,
    ghost run_least: { 10 ≤ run },
    ghost run_most: { run ≤ 10000 },
    ghost rise_within: { unsigned_abs rise ≤ 9000000 },
}

impl Grade {
    // The grade from one point to the next, or the first reason against it.
    pub fn between(from: Point, to: Point) -> Result<Grade, Refusal>
        ensures { MatchResult result (λ g. PointsSound (from ∷ (to ∷ [])) × (g.rise ≡ rise_of from to) × (g.run ≡ run_of from to)) (λ e. PointsRefused (from ∷ (to ∷ [])) e) }
    {
        sound(&[from, to])?;
        Ok(Grade {
            rise: from.rise_to(to),
            run: from.run_to(to),
        })
    }
}
