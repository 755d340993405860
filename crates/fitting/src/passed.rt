// A grade line whose every grade a code passes: the least lengths are looked for on it.
ghost use Rattle.fitting.specs.Rules.{GradesPass, verdicts};

use crate::grade_line::GradeLine;
use rules::code::RoadCode;

// Both are lent.
// stays: the two fields of a Judge and no Judge in it, since every clause on it would go through one field more, and a Judge is no Copy
#[derive(Drop)]
pub(crate) struct PassedLine<'a, C: RoadCode> {
    pub code: &'a C,
    pub line: GradeLine<'a>,
    ghost grades: { GradesPass (verdicts C.RoadCode code.now) line.pegs.now },
}
