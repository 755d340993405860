// The fitting of lengths: the least that meet every rule, or why there are none.
ghost use Rattle.std.specs.Prelude.{◌≡◌, ℕ, ◌+◌, ◌*◌, ◌<◌, ◌≤◌, length, take, sum, MatchResult};
ghost use Rattle.fitting.specs.Best.{Best};
ghost use Rattle.fitting.specs.Fits.{GradeTold, IsNoFit, StoreLeft, TurnTold, TurnsPass, no_fit_number};
ghost use Rattle.fitting.specs.Rules.{GradesPass, verdicts};

use crate::alignment::Alignment;
use crate::examine::Broken;
use crate::fitted::Fitted;
use crate::judge::Judge;
use crate::passed::PassedLine;
use rules::code::RoadCode;
use rules::shortest::shortest;
use std::fmt;

// Why there is no fit; a stretch is told by its first peg.
// stays: a clause is a plain number, since `number` and `Display` take any NoFit, and a narrower field would ask more of whoever makes one
#[derive(Clone, Copy)]
pub enum NoFit {
    StoreTooSmall,
    Grade { peg: u32, clause: u8 },
    Turn { peg: u32, clause: u8 },
    Closed { peg: u32 },
}

impl NoFit {
    // The number by which the refusal is told.
    pub fn number(self) -> u8
        ensures { result ≡ no_fit_number self }
    {
        match self {
            NoFit::StoreTooSmall => 25,
            NoFit::Grade { peg, clause } => Broken::Grade { peg, clause }.number(),
            NoFit::Turn { .. } => 28,
            NoFit::Closed { .. } => 29,
        }
    }
}

impl fmt::Display for NoFit {
    fn fmt<W: fmt::Write>(&self, f: &mut fmt::Formatter<W>) -> fmt::Result {
        match *self {
            NoFit::StoreTooSmall => f.write_str(
                "the working store has fewer than 401 words for each peg in force",
            ),
            NoFit::Grade { peg, clause } => write!(f, "{}", Broken::Grade { peg, clause }),
            NoFit::Turn { peg, clause } => write!(
                f,
                "the code refuses the turn at peg {peg} at every length, at 2000 m by its clause {clause}"
            ),
            NoFit::Closed { peg } => write!(
                f,
                "no lengths of peg {peg} and those after it meet every rule"
            ),
        }
    }
}

impl<C: RoadCode> Judge<'_, C> {
    // The first grade that the code refuses.
    fn check_grades(&self) -> Result<(), NoFit>
        ensures { MatchResult result (λ _. GradesPass (verdicts C.RoadCode self.now.code.now) self.now.line.pegs.now) (λ e. GradeTold (verdicts C.RoadCode self.now.code.now) self.now.line.pegs.now e) }
    {
        let pegs = self.line.pegs;
        for (i, peg) in pegs[..pegs.len() - 1].iter().enumerate() {
            let peg = peg.number;
            self.check_grade(i).map_err(|clause| NoFit::Grade {
                peg,
                clause: clause.number,
            })?;
        }
        Ok(())
    }

    // The first turn that the code refuses at every length.
    fn check_turns(&self) -> Result<(), NoFit>
        ensures { MatchResult result (λ _. TurnsPass (verdicts C.RoadCode self.now.code.now) self.now.line.pegs.now) (λ e. TurnTold (verdicts C.RoadCode self.now.code.now) self.now.line.pegs.now e) }
    {
        let pegs = self.line.pegs;
        for (i, peg) in pegs[1..pegs.len() - 1].iter().enumerate() {
            if let Err(none) = shortest(self.code, self.line.turn_at(i + 1)) {
                return Err(NoFit::Turn {
                    peg: peg.number,
                    clause: none.clause.number,
                });
            }
        }
        Ok(())
    }

    // Writes the best lengths and tells their total, or why there are none.
    fn find(&self, store: &mut [u32], lengths: &mut [u32]) -> Result<u32, NoFit>
        requires room { 401 * length self.now.line.pegs.now ≤ length store.old }
        requires count { length lengths.old ≡ length self.now.line.pegs.now }
        ensures found { MatchResult result (λ total. Best (verdicts C.RoadCode self.now.code.now) self.now.line.pegs.now self.now.line.fixed.now lengths.new × (total ≡ sum lengths.new)) (λ e. IsNoFit (verdicts C.RoadCode self.now.code.now) self.now.line.pegs.now self.now.line.fixed.now (length store.old) e) }
        ensures room { length store.new ≡ length store.old }
        ensures count { length lengths.new ≡ length lengths.old }
    {
        self.check_grades()?;
        self.check_turns()?;
        let passed = PassedLine {
            code: self.code,
            line: self.line,
        };
        if let Some(t) = passed.fill_rows(store) {
            let peg = self.line.pegs[t].number;
            return Err(NoFit::Closed { peg });
        }
        passed.walk(store, lengths);
        Ok(store[0])
    }
}

// The same, with the lengths at the front of a list for forty pegs.
fn lay<C: RoadCode>(
    alignment: &Alignment,
    code: &C,
    store: &mut [u32],
    lengths: &mut [u32],
) -> Result<u32, NoFit>
    requires room { 401 * length (take alignment.now.count alignment.now.pegs) ≤ length store.old }
    requires count { length lengths.old ≡ 40 }
    ensures found { MatchResult result (λ total. Best (verdicts C.RoadCode code.now) (take alignment.now.count alignment.now.pegs) alignment.now.fixed (take alignment.now.count lengths.new) × (total ≡ sum (take alignment.now.count lengths.new))) (λ e. IsNoFit (verdicts C.RoadCode code.now) (take alignment.now.count alignment.now.pegs) alignment.now.fixed (length store.old) e) }
    ensures room { length store.new ≡ length store.old }
    ensures count { length lengths.new ≡ 40 }
{
    let line = alignment.grade_line();
    Judge { code, line }.find(store, &mut lengths[..alignment.count])
}

// The lengths that meet every rule with the least total, and of equal totals the first; or why there are none.
pub fn fit<C: RoadCode>(alignment: &Alignment, code: &C, store: &mut [u32]) -> Result<Fitted, NoFit>
    ensures answer { MatchResult result (λ f. Best (verdicts C.RoadCode code.now) (take alignment.now.count alignment.now.pegs) alignment.now.fixed (take alignment.now.count f.lengths) × (f.total ≡ sum (take alignment.now.count f.lengths)) × (f.alignment ≡ alignment.now)) (λ e. IsNoFit (verdicts C.RoadCode code.now) (take alignment.now.count alignment.now.pegs) alignment.now.fixed (length store.old) e) }
    ensures left { StoreLeft store.old store.new result }
{
    if store.len() < 401 * alignment.count {
        return Err(NoFit::StoreTooSmall);
    }
    // stays: room for the lengths of forty pegs, since there is no heap
    let mut lengths = [0u32; 40];
    let found = lay(alignment, code, store, &mut lengths);
    store.fill(0);
    let total = found?;
    Ok(Fitted {
        alignment: *alignment,
        lengths,
        total,
    })
}
