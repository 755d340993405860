// The rules of a stretch of the line, tested for lengths of its two pegs.
ghost use Rattle.std.specs.Prelude.{◌≡◌, ℕ, ◌+◌, ◌<◌, length, Decides, MatchOption};
ghost use Rattle.fitting.specs.Rules.{Apart, FixedKept, OnStretch};
ghost use Rattle.fitting.specs.Walked.{Joins};

use crate::grade_line::GradeLine;
use crate::level::Course;
use rules::length::Length;

// The stretch after the peg `at`, and lengths of its two pegs; a peg at an end of the road has none.
#[derive(Clone, Copy)]
pub(crate) struct Span<'a> {
    pub line: GradeLine<'a>,
    pub at: usize,
    pub left: Length,
    pub right: Length,
    ghost there: { at + 1 < length line.pegs.now },
    ghost first: { at ≡ 0 → left.metres ≡ 0 },
    ghost last: { at + 2 ≡ length line.pegs.now → right.metres ≡ 0 },
}

impl Span<'_> {
    // Whether the two lengths together are at most twice the gap.
    pub(crate) fn is_apart(&self) -> bool
        ensures { Decides result (Apart self.now.line.pegs.now self.now.at self.now.left.metres self.now.right.metres) }
    {
        let pegs = self.line.pegs;
        self.left.metres + self.right.metres
            <= 2 * (pegs[self.at + 1].point.station - pegs[self.at].point.station)
    }

    // Whether the station belongs to the stretch.
    fn holds(&self, station: u32) -> bool
        ensures { Decides result (OnStretch self.now.line.pegs.now self.now.at station) }
    {
        let pegs = self.line.pegs;
        pegs[self.at].point.station <= station
            && (self.at + 2 >= pegs.len() || station < pegs[self.at + 1].point.station)
    }

    // Whether a fixed level, if there is one and it lies on the stretch, is kept.
    fn level_kept(&self, n: usize) -> bool
        requires slot { n < 16 }
        requires apart { Apart self.now.line.pegs.now self.now.at self.now.left.metres self.now.right.metres }
        ensures { Decides result (FixedKept self.now.line.pegs.now self.now.line.fixed.now self.now.at self.now.left.metres self.now.right.metres n) }
    {
        let held = self.line.fixed[n].held;
        let Some(level) = held else {
            return true;
        };
        if !self.holds(level.station) {
            return true;
        }
        Course {
            stretch: self.line.stretch_at(self.at),
            left: self.left.metres,
            right: self.right.metres,
        }
        .keeps(level)
    }

    // The first fixed level on the stretch that the lengths don't keep.
    pub(crate) fn first_not_kept(&self) -> Option<usize>
        requires { Apart self.now.line.pegs.now self.now.at self.now.left.metres self.now.right.metres }
        ensures { MatchOption result ((n : ℕ) → FixedKept self.now.line.pegs.now self.now.line.fixed.now self.now.at self.now.left.metres self.now.right.metres n) (λ n. (n < 16) × (FixedKept self.now.line.pegs.now self.now.line.fixed.now self.now.at self.now.left.metres self.now.right.metres n → ⊥) × ((m : ℕ) → m < n → FixedKept self.now.line.pegs.now self.now.line.fixed.now self.now.at self.now.left.metres self.now.right.metres m)) }
    {
        // stays: a `for` with index over the sixteen slots is the form that was settled for this test (docs/DECISIONS.md, Forms)
        for n in 0..16usize {
            if !self.level_kept(n) {
                return Some(n);
            }
        }
        None
    }
}

impl GradeLine<'_> {
    // Whether the lengths of its two pegs may stand on the i-th stretch.
    pub(crate) fn may_join(&self, i: usize, left: Length, right: Length) -> bool
        requires there { i + 1 < length self.now.pegs.now }
        requires first { i ≡ 0 → left.metres ≡ 0 }
        requires last { i + 2 ≡ length self.now.pegs.now → right.metres ≡ 0 }
        ensures { Decides result (Joins self.now.pegs.now self.now.fixed.now i left.metres right.metres) }
    {
        let span = Span {
            line: *self,
            at: i,
            left,
            right,
        };
        span.is_apart() && span.first_not_kept().is_none()
    }
}
