// A road code: what a standard says of a grade and of a curve.
ghost use Rattle.std.specs.Prelude.{ℕ, ℤ};
ghost use Rattle.rules.specs.Told.{Told};
ghost use Rattle.rules.specs.declared.turn.Bend.{Bend};

use crate::clause::ClauseNumber;
use crate::grade::Grade;
use crate::length::Length;
use crate::turn::{Bend, Turn};

// What a code means are its two verdicts, of a grade (rise, run) and of a curve (turn, length):
// 0 for passed, or the clause that refuses, 1 to 255. Its methods answer by them, always.
pub trait RoadCode {
    ghost grade_verdict: { Self → ℤ → ℕ → ℕ };

    ghost curve_verdict: { Self → Bend → ℕ → ℕ };

    fn grade(&self, grade: Grade) -> Result<(), ClauseNumber>
        ensures { Told (grade_verdict self.now grade.rise grade.run) result };

    fn curve(&self, turn: Turn, at: Length) -> Result<(), ClauseNumber>
        ensures { Told (curve_verdict self.now turn.bend at.metres) result };
}
