// The examination of lengths: whether they meet every rule, or the first that they break.
ghost use Rattle.std.specs.Prelude.{◌≡◌, ℕ, ◌+◌, ◌%◌, ◌<◌, ◌≤◌, length, take, Decides, MatchResult};
ghost use Rattle.fitting.specs.Examined.{BrokenAt, ExaminedTo, LengthsFor, broken_number};
ghost use Rattle.fitting.specs.Rules.{Meets, PegKeeps, StretchKeeps, len, verdicts};

use crate::alignment::Alignment;
use crate::judge::Judge;
use crate::rules_met::Span;
use rules::code::RoadCode;
use rules::length::Length;
use rules::refusal::Refusal;
use std::fmt;

// What is broken, and where: a peg and a fixed level are told by number, a stretch by its first peg.
// stays: a clause is a plain number, since `number` and `Display` take any Broken, and a narrower field would ask more of whoever makes one
#[derive(Clone, Copy)]
pub enum Broken {
    Lengths,
    Curve { peg: u32, clause: u8 },
    Grade { peg: u32, clause: u8 },
    Overlap { peg: u32 },
    FixedLevelLost { number: u32 },
}

impl Broken {
    // The number by which the refusal is told.
    pub fn number(self) -> u8
        ensures { result ≡ broken_number self }
    {
        match self {
            Broken::Lengths => Refusal::LengthOutOfStep.number(),
            Broken::Curve { .. } => 33,
            Broken::Grade { .. } => 27,
            Broken::Overlap { .. } => 34,
            Broken::FixedLevelLost { .. } => 35,
        }
    }
}

impl fmt::Display for Broken {
    fn fmt<W: fmt::Write>(&self, f: &mut fmt::Formatter<W>) -> fmt::Result {
        match *self {
            Broken::Lengths => f.write_str(
                "one length for each peg in force: multiples of 5 from 0 to 2000 m, 0 at both ends",
            ),
            Broken::Curve { peg, clause } => write!(
                f,
                "the code refuses the curve at peg {peg} by its clause {clause}"
            ),
            Broken::Grade { peg, clause } => write!(
                f,
                "the code refuses the grade from peg {peg} to the next by its clause {clause}"
            ),
            Broken::Overlap { peg } => write!(f, "the curves at peg {peg} and the next overlap"),
            Broken::FixedLevelLost { number } => write!(
                f,
                "the road misses the bounds of fixed level {number}"
            ),
        }
    }
}

// Whether this is a list of lengths for so many pegs.
fn lengths_for(lengths: &[u32], count: usize) -> bool
    requires { 2 ≤ count }
    ensures { Decides result (LengthsFor count lengths.now) }
{
    lengths.len() == count
        && lengths[0] == 0
        && lengths[count - 1] == 0
        && lengths
            .iter()
            .all(|metres| *metres % 5 == 0 && *metres <= 2000)
}

impl<C: RoadCode> Judge<'_, C> {
    // The i-th peg's curve, and the stretch after it where there is one.
    fn check_at(&self, lengths: &[u32], i: usize) -> Result<(), Broken>
        requires there { i < length self.now.line.pegs.now }
        requires lengths { LengthsFor (length self.now.line.pegs.now) lengths.now }
        ensures { MatchResult result (λ _. PegKeeps (verdicts C.RoadCode self.now.code.now) self.now.line.pegs.now i (len lengths.now i) × (i + 1 < length self.now.line.pegs.now → StretchKeeps (verdicts C.RoadCode self.now.code.now) self.now.line.pegs.now self.now.line.fixed.now i (len lengths.now i) (len lengths.now (i + 1)))) (λ b. BrokenAt (verdicts C.RoadCode self.now.code.now) self.now.line.pegs.now self.now.line.fixed.now lengths.now i b) }
    {
        let line = self.line;
        let peg = line.pegs[i].number;
        let left = Length { metres: lengths[i] };
        self.check_curve(i, left).map_err(|clause| Broken::Curve {
            peg,
            clause: clause.number,
        })?;
        if i + 1 == line.pegs.len() {
            return Ok(());
        }
        self.check_grade(i).map_err(|clause| Broken::Grade {
            peg,
            clause: clause.number,
        })?;
        let right = Length {
            metres: lengths[i + 1],
        };
        let span = Span {
            line,
            at: i,
            left,
            right,
        };
        if !span.is_apart() {
            return Err(Broken::Overlap { peg });
        }
        if let Some(n) = span.first_not_kept() {
            return Err(Broken::FixedLevelLost { number: n as u32 });
        }
        Ok(())
    }

    // Whether the lengths meet every rule, or the first that they break, walking from the first peg.
    fn check_all(&self, lengths: &[u32]) -> Result<(), Broken>
        ensures { MatchResult result (λ _. Meets (verdicts C.RoadCode self.now.code.now) self.now.line.pegs.now self.now.line.fixed.now lengths.now) (λ b. ExaminedTo (verdicts C.RoadCode self.now.code.now) self.now.line.pegs.now self.now.line.fixed.now lengths.now b) }
    {
        if !lengths_for(lengths, self.line.pegs.len()) {
            return Err(Broken::Lengths);
        }
        // stays: tried as `try_for_each`, which leaves a goal over a run of a closure's calls that no short answer closes
        for i in 0..self.line.pegs.len() {
            self.check_at(lengths, i)?;
        }
        Ok(())
    }
}

// Whether the lengths meet every rule of the code on this alignment, or the first that they break.
pub fn examine<C: RoadCode>(alignment: &Alignment, code: &C, lengths: &[u32]) -> Result<(), Broken>
    ensures { MatchResult result (λ _. Meets (verdicts C.RoadCode code.now) (take alignment.now.count alignment.now.pegs) alignment.now.fixed lengths.now) (λ b. ExaminedTo (verdicts C.RoadCode code.now) (take alignment.now.count alignment.now.pegs) alignment.now.fixed lengths.now b) }
{
    let line = alignment.grade_line();
    Judge { code, line }.check_all(lengths)
}
