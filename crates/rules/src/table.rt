// A road code over rows that the office keeps: how long curves must be, by the change of grade.
ghost use Rattle.std.specs.Prelude.{◌≡◌, ◌<◌, ◌≤◌, find, length, Decides, MatchOption, MatchResult};
ghost use Rattle.rules.specs.Tables.{AboveEarlier, AllLawful, FirstRowDecides, FirstUnlawful, Lawful, RowInRange, RowLawful, TableRefused, fits as fits_row, row_verdict, table_curve, table_grade};
ghost use Rattle.rules.specs.Told.{Told};

use crate::clause::ClauseNumber;
use crate::code::RoadCode;
use crate::grade::Grade;
use crate::length::Length;
use crate::refusal::{Refusal, TableFault};
use crate::turn::Turn;

// A row as it came in: of kind 0 (summit) or 1 (valley), up to `change` thousandths, at least `least` metres, else the clause.
// stays: kind and clause are figures and no types of their own, since rows stand as they came in, and a wrong figure is refused by its row's place.
#[derive(Clone, Copy)]
pub struct Row {
    pub kind: u32,
    pub change: u32,
    pub least: u32,
    pub clause: u32,
}

// The rows, and the steepest grade in thousandths with its clause.
// stays: the clause is a plain number, since a table has no invariant and its verdicts are total over any figures; 0 passes.
#[derive(Clone, Copy)]
pub struct LengthTable<'a> {
    pub rows: &'a [Row],
    pub bound: u32,
    pub clause: u8,
}

// The clause where no row reaches a turn's change of grade.
const NO_ROW: ClauseNumber = ClauseNumber { number: 255 };

impl Row {
    fn in_range(self) -> bool
        ensures { Decides result (RowInRange self) }
    {
        self.kind <= 1
            && self.change <= 2000
            && self.least <= 2000
            && (1..=254).contains(&self.clause)
    }

    // Whether the row is of the turn's kind and reaches its change of grade.
    fn fits(self, turn: Turn) -> bool
        ensures { result ≡ fits_row turn.bend self }
    {
        self.kind == u32::from(turn.kind()) && turn.change() <= self.change as u64 * turn.base()
    }

    // What the row says of a length: its clause where the length is below the least.
    fn verdict(self, at: Length) -> Result<(), ClauseNumber>
        ensures { Told (row_verdict self at.metres) result }
    {
        if at.metres < self.least {
            ClauseNumber::told(self.clause.min(255) as u8)
        } else {
            Ok(())
        }
    }
}

// Whether the row at `i` has a higher bound than each row of its kind before it.
fn above_earlier(rows: &[Row], i: usize) -> bool
    requires { i < length rows.now }
    ensures { Decides result (AboveEarlier rows.now i) }
{
    let row = rows[i];
    rows[..i].iter().all(|earlier| earlier.kind != row.kind || earlier.change < row.change)
}

// Whether the row at `i` keeps the rules of a table.
fn is_lawful(rows: &[Row], i: usize) -> bool
    requires { i < length rows.now }
    ensures { Decides result (RowLawful rows.now i) }
{
    rows[i].in_range() && above_earlier(rows, i)
}

// The first row against the rules of a table.
fn first_unlawful(rows: &[Row]) -> Option<usize>
    ensures { MatchOption result (AllLawful rows.now) (λ i. FirstUnlawful rows.now i) }
{
    (0..rows.len()).find(|&i| !is_lawful(rows, i))
}

impl<'a> LengthTable<'a> {
    // The table of these rows and this gradient bound with its clause, or what is against it.
    pub fn new(rows: &'a [Row], bound: u32, clause: u32) -> Result<LengthTable<'a>, Refusal>
        ensures { MatchResult result (λ t. Lawful rows.now bound clause × (t.rows.now ≡ rows.now) × (t.bound ≡ bound) × (t.clause ≡ clause)) (λ e. TableRefused rows.now bound clause e) }
    {
        if !(1..=64).contains(&rows.len()) {
            return Err(Refusal::UnlawfulTable(TableFault::RowCount));
        }
        if let Some(i) = first_unlawful(rows) {
            return Err(Refusal::UnlawfulTable(TableFault::Row(i)));
        }
        if bound > 2000 || !(1..=254).contains(&clause) {
            return Err(Refusal::UnlawfulTable(TableFault::Gradient));
        }
        Ok(LengthTable {
            rows,
            bound,
            clause: clause as u8,
        })
    }

    // The row that decides on a turn: the first that fits.
    fn row_for(&self, turn: Turn) -> Option<Row>
        ensures { result ≡ find (fits_row turn.bend) self.now.rows.now }
    {
        self.rows.iter().find(|row| row.fits(turn)).copied()
    }

    // A law for callers: the first row of the turn's kind that reaches its change of grade decides.
    pub fn first_row_decides(&self)
        ensures { FirstRowDecides self.now.rows.now }
    {}
}

impl<'a> RoadCode for LengthTable<'a> {
    ghost grade_verdict = { λ t. table_grade t.bound t.clause };

    ghost curve_verdict = { λ t. table_curve t.rows.now };

    fn grade(&self, grade: Grade) -> Result<(), ClauseNumber> {
        if grade.rise.unsigned_abs() > self.bound as u64 * grade.run as u64 {
            ClauseNumber::told(self.clause)
        } else {
            Ok(())
        }
    }

    fn curve(&self, turn: Turn, at: Length) -> Result<(), ClauseNumber> {
        self.row_for(turn).ok_or(NO_ROW)?.verdict(at)
    }
}
