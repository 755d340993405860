// The stricter of two codes: what either refuses, it refuses.
ghost use Rattle.rules.specs.Laws.{PassesBoth};
ghost use Rattle.rules.specs.Stricter.{stricter_of};

use crate::clause::ClauseNumber;
use crate::code::RoadCode;
use crate::grade::Grade;
use crate::length::Length;
use crate::turn::Turn;

// The first code's clause, or if that passes the second one's.
#[derive(Clone, Copy)]
pub struct Stricter<A, B> {
    pub first: A,
    pub second: B,
}

impl<A: RoadCode, B: RoadCode> RoadCode for Stricter<A, B> {
    ghost grade_verdict = { λ s. stricter_of (A.RoadCode.grade_verdict s.first) (B.RoadCode.grade_verdict s.second) };

    ghost curve_verdict = { λ s. stricter_of (A.RoadCode.curve_verdict s.first) (B.RoadCode.curve_verdict s.second) };

    fn grade(&self, grade: Grade) -> Result<(), ClauseNumber> {
        self.first.grade(grade)?;
        self.second.grade(grade)
    }

    fn curve(&self, turn: Turn, at: Length) -> Result<(), ClauseNumber> {
        self.first.curve(turn, at)?;
        self.second.curve(turn, at)
    }
}

impl<A: RoadCode, B: RoadCode> Stricter<A, B> {
    // A law for callers: it passes exactly what both codes pass.
    pub fn passes_what_both_pass(&self)
        ensures grades { PassesBoth (A.RoadCode.grade_verdict self.now.first) (B.RoadCode.grade_verdict self.now.second) (stricter_of (A.RoadCode.grade_verdict self.now.first) (B.RoadCode.grade_verdict self.now.second)) }
        ensures curves { PassesBoth (A.RoadCode.curve_verdict self.now.first) (B.RoadCode.curve_verdict self.now.second) (stricter_of (A.RoadCode.curve_verdict self.now.first) (B.RoadCode.curve_verdict self.now.second)) }
    {}
}
