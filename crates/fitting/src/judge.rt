// A code, and the grade line that it judges.
ghost use Rattle.std.specs.Prelude.{◌≡◌, ℕ, ◌+◌, ◌<◌, length, Decides, MatchResult};
ghost use Rattle.fitting.specs.Examined.{CurveRefused, GradeRefused};
ghost use Rattle.fitting.specs.Rules.{GradePasses, PegKeeps, verdicts};

use crate::grade_line::GradeLine;
use rules::clause::ClauseNumber;
use rules::code::RoadCode;
use rules::length::Length;

// Both are lent.
#[derive(Drop)]
pub(crate) struct Judge<'a, C> {
    pub code: &'a C,
    pub line: GradeLine<'a>,
}

impl<C: RoadCode> Judge<'_, C> {
    // Whether the code passes the grade from the i-th peg to the next, or the clause that refuses it.
    pub(crate) fn check_grade(&self, i: usize) -> Result<(), ClauseNumber>
        requires { i + 1 < length self.now.line.pegs.now }
        ensures { MatchResult result (λ _. GradePasses (verdicts C.RoadCode self.now.code.now) self.now.line.pegs.now i) (λ e. GradeRefused (verdicts C.RoadCode self.now.code.now) self.now.line.pegs.now i e.number) }
    {
        self.code.grade(self.line.grade_at(i))
    }

    // Whether the code passes the i-th peg's curve, or the clause that refuses it; an end peg has none.
    pub(crate) fn check_curve(&self, i: usize, at: Length) -> Result<(), ClauseNumber>
        requires there { i < length self.now.line.pegs.now }
        requires first { i ≡ 0 → at.metres ≡ 0 }
        requires last { i + 1 ≡ length self.now.line.pegs.now → at.metres ≡ 0 }
        ensures { MatchResult result (λ _. PegKeeps (verdicts C.RoadCode self.now.code.now) self.now.line.pegs.now i at.metres) (λ e. CurveRefused (verdicts C.RoadCode self.now.code.now) self.now.line.pegs.now at.metres i e.number) }
    {
        if self.line.is_end(i) {
            return Ok(());
        }
        self.code.curve(self.line.turn_at(i), at)
    }

    // Whether the i-th peg may have the length.
    pub(crate) fn peg_keeps(&self, i: usize, at: Length) -> bool
        requires { i < length self.now.line.pegs.now }
        ensures { Decides result (PegKeeps (verdicts C.RoadCode self.now.code.now) self.now.line.pegs.now i at.metres) }
    {
        if self.line.is_end(i) {
            at.metres == 0
        } else {
            self.check_curve(i, at).is_ok()
        }
    }
}
