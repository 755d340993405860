// The rows of least totals, filled from the last peg back.
ghost use Rattle.std.specs.Prelude.{◌≡◌, ℕ, ◌+◌, ◌*◌, ◌<◌, ◌≤◌, length, MatchBool, MatchOption, slice_index};
ghost use Rattle.fitting.specs.Rows.{LeastFrom, RowMeans, RowsFrom, entry, none};
ghost use Rattle.fitting.specs.Rules.{LastClosed, verdicts};
ghost use Rattle.fitting.specs.Walked.{EndsFlat, LeastJoined, RowOpen};

use crate::grade_line::GradeLine;
use crate::judge::Judge;
use crate::passed::PassedLine;
use rules::code::RoadCode;
use rules::length::Length;

// The row of peg t.
pub(crate) fn row(store: &[u32], t: usize) -> &[u32]
    requires { (t + 1) * 401 ≤ length store.now }
    ensures count { length result.now ≡ 401 }
    ensures entries { (k : ℕ) → k < 401 → slice_index result.now k ≡ entry store.now t k }
{
    &store[t * 401..(t + 1) * 401]
}

impl GradeLine<'_> {
    // The least entry of `next`, the row after peg t, whose length may stand after `left` at peg t.
    // stays: a word as the lent store has them, in which u32::MAX stands for no total
    fn least_after(&self, next: &[u32], t: usize, left: Length) -> u32
        requires next { t + 1 < length self.now.pegs.now }
        requires count { length next.now ≡ 401 }
        requires flat { EndsFlat self.now.pegs.now (slice_index next.now) (t + 1) }
        requires first { t ≡ 0 → left.metres ≡ 0 }
        ensures { LeastJoined self.now.pegs.now self.now.fixed.now (slice_index next.now) t left.metres 401 result }
    {
        let mut low = u32::MAX;
        for (j, total) in next.iter().enumerate() {
            let right = Length {
                metres: 5 * j as u32,
            };
            if *total < low && self.may_join(t, left, right) {
                low = *total;
            }
        }
        low
    }
}

impl<C: RoadCode> PassedLine<'_, C> {
    // The least total from peg t on where t has the length 5 k; `after` begins with the row after, where there is one.
    // stays: a word as the lent store has them, in which u32::MAX stands for no total
    fn entry_of(&self, after: &[u32], t: usize, k: u32) -> u32
        requires there { t < length self.now.line.pegs.now }
        requires step { k < 401 }
        requires after { t + 1 < length self.now.line.pegs.now → (401 ≤ length after.now) × RowMeans (verdicts C.RoadCode self.now.code.now) self.now.line.pegs.now self.now.line.fixed.now (slice_index after.now) (t + 1) }
        ensures { LeastFrom (verdicts C.RoadCode self.now.code.now) self.now.line.pegs.now self.now.line.fixed.now t k result }
    {
        let own = Length { metres: 5 * k };
        let judge = Judge {
            code: self.code,
            line: self.line,
        };
        if !judge.peg_keeps(t, own) {
            return u32::MAX;
        }
        if t + 1 == self.line.pegs.len() {
            return own.metres;
        }
        self.line
            .least_after(&after[..401], t, own)
            .saturating_add(own.metres)
    }

    // Writes the row of peg t; `after` begins with the row after, where there is one.
    fn write_row(&self, row: &mut [u32], after: &[u32], t: usize)
        requires there { t < length self.now.line.pegs.now }
        requires count { length row.old ≡ 401 }
        requires after { t + 1 < length self.now.line.pegs.now → (401 ≤ length after.now) × RowMeans (verdicts C.RoadCode self.now.code.now) self.now.line.pegs.now self.now.line.fixed.now (slice_index after.now) (t + 1) }
        ensures written { RowMeans (verdicts C.RoadCode self.now.code.now) self.now.line.pegs.now self.now.line.fixed.now (slice_index row.new) t }
        ensures count { length row.new ≡ 401 }
    {
        for (k, word) in row.iter_mut().enumerate() {
            *word = self.entry_of(after, t, k as u32);
        }
    }

    // Fills the row of peg t from the row after.
    // stays: that the store has room is asked here and by its other users one by one, since it is lent now to be written and now to be read
    fn fill_row(&self, store: &mut [u32], t: usize)
        requires there { t < length self.now.line.pegs.now }
        requires room { length self.now.line.pegs.now * 401 ≤ length store.old }
        requires after { RowsFrom (verdicts C.RoadCode self.now.code.now) self.now.line.pegs.now self.now.line.fixed.now store.old (t + 1) }
        ensures filled { RowsFrom (verdicts C.RoadCode self.now.code.now) self.now.line.pegs.now self.now.line.fixed.now store.new t }
        ensures room { length store.new ≡ length store.old }
    {
        let (before, after) = store.split_at_mut((t + 1) * 401);
        self.write_row(&mut before[t * 401..], after, t);
    }

    // Fills the rows from the last peg back, up to the first of them that is closed.
    pub(crate) fn fill_rows(&self, store: &mut [u32]) -> Option<usize>
        requires room { length self.now.line.pegs.now * 401 ≤ length store.old }
        ensures filled { MatchOption result (RowsFrom (verdicts C.RoadCode self.now.code.now) self.now.line.pegs.now self.now.line.fixed.now store.new 0 × (entry store.new 0 0 < none)) (λ t. LastClosed (verdicts C.RoadCode self.now.code.now) self.now.line.pegs.now self.now.line.fixed.now t) }
        ensures room { length store.new ≡ length store.old }
    {
        // stays: a row is filled from the row after it, so the rows are not lent one by one
        for t in (0..self.line.pegs.len()).rev() {
            self.fill_row(store, t);
            if is_closed(store, t) {
                return Some(t);
            }
        }
        None
    }
}

// Whether no length of peg t has a total.
// stays: in the words of the lent store u32::MAX stands for no total
fn is_closed(store: &[u32], t: usize) -> bool
    requires { (t + 1) * 401 ≤ length store.now }
    ensures { MatchBool result ((k : ℕ) → k < 401 → entry store.now t k ≡ none) (RowOpen (entry store.now t)) }
{
    row(store, t).iter().all(|total| *total == u32::MAX)
}
