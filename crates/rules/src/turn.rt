// A turn: a point with a neighbour on each side, where one grade meets the next.
ghost use Rattle.std.specs.Prelude.{◌≡◌, ◌+◌, ◌≤◌, [], ◌∷◌, pos, ◌*ℤ◌, MatchResult, unsigned_abs};
ghost use Rattle.rules.specs.Points.{PointsRefused, PointsSound};
ghost use Rattle.rules.specs.Turns.{base as base_of, bend_of, change as change_of, kind as kind_of, kind_number, twist as twist_of};

use crate::point::{Point, sound};
use crate::refusal::Refusal;

// Which way the road turns: over a hill top, or through a hollow.
#[derive(Clone, Copy)]
pub enum Kind {
    Summit,
    Valley,
}

// The figure that rows of a length table know a kind by.
impl From<Kind> for u32 {
    ghost from_gives = { λ kind figure. figure ≡ kind_number kind };

    fn from(kind: Kind) -> u32 {
        match kind {
            Kind::Summit => 0,
            Kind::Valley => 1,
        }
    }
}

// The four figures of a turn, of any size.
#[derive(Clone, Copy)]
pub struct Bend {
    pub rise_in: i64,
    pub run_in: u32,
    pub rise_out: i64,
    pub run_out: u32,
}

// The figures of a turn that stands on a road.
#[derive(Clone, Copy)]
pub struct Turn {
    pub bend: Bend,
    ghost run_in_least: { 10 ≤ bend.run_in },
    ghost run_out_least: { 10 ≤ bend.run_out },
    ghost runs_most: { bend.run_in + bend.run_out ≤ 10000 },
    ghost rise_in_within: { unsigned_abs bend.rise_in ≤ 9000000 },
    ghost rise_out_within: { unsigned_abs bend.rise_out ≤ 9000000 },
}

// A rise times a run.
fn times(rise: i64, run: u32) -> i64
    requires { (unsigned_abs rise ≤ 9000000) × (run ≤ 10000) }
    ensures value { result ≡ rise *ℤ pos run }
    ensures small { unsigned_abs result ≤ 90000000000 }
{
    rise * run as i64
}

impl Turn {
    // The turn at `at`, between its neighbours, or the first reason against it.
    pub fn through(before: Point, at: Point, after: Point) -> Result<Turn, Refusal>
        ensures { MatchResult result (λ t. PointsSound (before ∷ (at ∷ (after ∷ []))) × (t.bend ≡ bend_of before at after)) (λ e. PointsRefused (before ∷ (at ∷ (after ∷ []))) e) }
    {
        sound(&[before, at, after])?;
        Ok(Turn {
            bend: Bend {
                rise_in: before.rise_to(at),
                run_in: before.run_to(at),
                rise_out: at.rise_to(after),
                run_out: at.run_to(after),
            },
        })
    }

    // How the outgoing grade differs from the incoming one, over both runs: below zero at a summit.
    fn twist(&self) -> i64
        ensures value { result ≡ twist_of self.now.bend }
        ensures small { unsigned_abs result ≤ 180000000000 }
    {
        times(self.bend.rise_out, self.bend.run_in) - times(self.bend.rise_in, self.bend.run_out)
    }

    // The change of grade, in thousandths over the base.
    #[tactic(auto, unfolding(crate::specs::Turns::change))]
    pub fn change(&self) -> u64
        ensures value { result ≡ change_of self.now.bend }
        ensures small { result ≤ 180000000000 }
    {
        self.twist().unsigned_abs()
    }

    // Both runs multiplied.
    #[tactic(auto, unfolding(crate::specs::Turns::base))]
    pub fn base(&self) -> u64
        ensures value { result ≡ base_of self.now.bend }
        ensures small { result ≤ 100000000 }
    {
        self.bend.run_in as u64 * self.bend.run_out as u64
    }

    // Summit or valley.
    #[tactic(auto, unfolding(crate::specs::Turns::kind))]
    pub fn kind(&self) -> Kind
        ensures { result ≡ kind_of self.now.bend }
    {
        if self.twist() < 0 {
            Kind::Summit
        } else {
            Kind::Valley
        }
    }
}
