// The walk along the rows, which picks the lengths.
ghost use Rattle.std.specs.Prelude.{◌≡◌, ℕ, ◌+◌, ◌*◌, ◌<◌, ◌≤◌, length, sum};
ghost use Rattle.fitting.specs.Best.{Best};
ghost use Rattle.fitting.specs.Rows.{RowsFrom, entry, none};
ghost use Rattle.fitting.specs.Rules.{verdicts};
ghost use Rattle.fitting.specs.Walked.{EndsFlat, Leads, Picked};

use crate::grade_line::GradeLine;
use crate::passed::PassedLine;
use crate::rows::row;
use rules::code::RoadCode;
use rules::length::Length;

impl GradeLine<'_> {
    // The first step whose length may stand after `left` at peg t and that has the total `goal`.
    fn pick(&self, store: &[u32], t: usize, left: Length, goal: u32) -> u32
        requires next { t + 1 < length self.now.pegs.now }
        requires room { length self.now.pegs.now * 401 ≤ length store.now }
        requires flat { EndsFlat self.now.pegs.now (entry store.now (t + 1)) (t + 1) }
        requires first { t ≡ 0 → left.metres ≡ 0 }
        requires total { goal < none }
        requires reached { (j : ℕ) × (j < 401) × Leads self.now.pegs.now self.now.fixed.now (entry store.now (t + 1)) t left.metres goal j }
        ensures { Picked self.now.pegs.now self.now.fixed.now (entry store.now (t + 1)) t left.metres goal result }
    {
        for (k, total) in row(store, t + 1).iter().enumerate() {
            let right = Length {
                metres: 5 * k as u32,
            };
            if *total == goal && self.may_join(t, left, right) {
                return k as u32;
            }
        }
        unreachable()
    }
}

impl<C: RoadCode> PassedLine<'_, C> {
    // Writes the best lengths, which the rows lead to.
    pub(crate) fn walk(&self, store: &[u32], lengths: &mut [u32])
        requires room { length self.now.line.pegs.now * 401 ≤ length store.now }
        requires count { length lengths.old ≡ length self.now.line.pegs.now }
        requires rows { RowsFrom (verdicts C.RoadCode self.now.code.now) self.now.line.pegs.now self.now.line.fixed.now store.now 0 }
        requires reached { entry store.now 0 0 < none }
        ensures best { Best (verdicts C.RoadCode self.now.code.now) self.now.line.pegs.now self.now.line.fixed.now lengths.new }
        ensures total { entry store.now 0 0 ≡ sum lengths.new }
    {
        lengths[0] = 0;
        // stays: each length follows from the one before it
        for t in 0..self.line.pegs.len() - 1 {
            let left = Length { metres: lengths[t] };
            let goal = row(store, t)[(left.metres / 5) as usize] - left.metres;
            lengths[t + 1] = 5 * self.line.pick(store, t, left, goal);
        }
    }
}
