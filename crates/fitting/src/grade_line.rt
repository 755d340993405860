// The grade line of an alignment, lent: the pegs in force, and the fixed levels on it.
ghost use Rattle.std.specs.Prelude.{◌≡◌, ℕ, ◌+◌, ◌<◌, length, ◌==◌, ◌||◌};
ghost use Rattle.fitting.specs.Levels.{stretch};
ghost use Rattle.fitting.specs.Line.{climb, gap, turn};
ghost use Rattle.fitting.specs.Ready.{SoundAlignment};

use crate::alignment::Standing;
use crate::level::Stretch;
use pegs::peg::FixedLevel;
use pegs::slot::Slot;
use rules::grade::Grade;
use rules::turn::{Bend, Turn};

// Two pegs or more that rise, and sixteen slots of fixed levels, all on the road.
#[derive(Clone, Copy)]
pub(crate) struct GradeLine<'a> {
    pub pegs: &'a [Standing],
    pub fixed: &'a [Slot<FixedLevel>],
    ghost sound: { SoundAlignment pegs.now fixed.now },
}

impl GradeLine<'_> {
    // Whether the i-th peg is the first or the last, where there is no turn.
    pub(crate) fn is_end(&self, i: usize) -> bool
        requires { i < length self.now.pegs.now }
        ensures { result ≡ (i == 0 || i + 1 == length self.now.pegs.now) }
    {
        i == 0 || i + 1 == self.pegs.len()
    }

    // The grade from the i-th peg to the next.
    // stays: this and others ask that there is an i-th stretch; a type for that would hold the line, as Span does, and be made at each call
    pub(crate) fn grade_at(&self, i: usize) -> Grade
        requires { i + 1 < length self.now.pegs.now }
        ensures rise { result.rise ≡ climb self.now.pegs.now i }
        ensures run { result.run ≡ gap self.now.pegs.now i }
    {
        let from = self.pegs[i].point;
        let to = self.pegs[i + 1].point;
        Grade {
            rise: to.level as i64 - from.level as i64,
            run: to.station - from.station,
        }
    }

    // The turn at the i-th peg.
    pub(crate) fn turn_at(&self, i: usize) -> Turn
        requires turns { 0 < i }
        requires next { i + 1 < length self.now.pegs.now }
        ensures { result.bend ≡ turn self.now.pegs.now i }
    {
        let into = self.grade_at(i - 1);
        let out = self.grade_at(i);
        Turn {
            bend: Bend {
                rise_in: into.rise,
                run_in: into.run,
                rise_out: out.rise,
                run_out: out.run,
            },
        }
    }

    // The stretch from the i-th peg to the next.
    pub(crate) fn stretch_at(&self, i: usize) -> Stretch
        requires { i + 1 < length self.now.pegs.now }
        ensures { result ≡ stretch self.now.pegs.now i }
    {
        let to = self.pegs[i + 1].point;
        Stretch {
            before: self.pegs[i.saturating_sub(1)].point,
            from: self.pegs[i].point,
            to,
            after: self.pegs.get(i + 2).map_or(to, |peg| peg.point),
        }
    }
}
