// The calls on a profile.
ghost use Rattle.std.specs.Prelude.{◌≡◌, ◌<◌, ◌≤◌, List, length, MatchResult};
ghost use Rattle.pegs.specs.Tables.{fixed_slot, peg_slot};
ghost use Rattle.profile.specs.History.{Event, Run};
ghost use Rattle.profile.specs.Law.{AnyOrder, AsEdited};
ghost use Rattle.profile.specs.Reading.{BookRead, FaultTold, IsBook, ReadBack};
ghost use Rattle.profile.specs.Steps.{Applied, New};
ghost use Rattle.book.specs.Book.{encode};
ghost use Rattle.book.specs.Writing.{Writes};

use crate::profile::Profile;
use book::fault::{BookFault, TooShort};
use book::reading::read;
use book::writing::write;
use pegs::edit::{Edit, EditRefusal};
use pegs::peg::{FixedLevel, Peg};
use pegs::tables::Tables;

impl Profile {
    // A profile without pegs or fixed levels, unfitted.
    pub fn new() -> Profile
        ensures { New result }
    {
        Profile {
            tables: Tables::new(),
            fittings: 0,
            fitted: None,
        }
    }

    // Writes the one peg or fixed level that the edit names, or tells the first reason against it.
    pub fn apply(&mut self, edit: Edit) -> Result<(), EditRefusal>
        ensures { Applied edit self.old self.new result }
    {
        self.tables.apply(edit)?;
        self.fitted = None;
        Ok(())
    }

    // Reads a book in place of every peg, fixed level and remembered number, or tells the book's first fault.
    pub fn read_book(&mut self, bytes: &[u8]) -> Result<(), BookFault>
        ensures step { BookRead bytes.now self.old self.new result }
        ensures back { ReadBack bytes.now self.new result }
        ensures told { FaultTold bytes.now result }
    {
        self.tables = read(bytes)?;
        self.fitted = None;
        Ok(())
    }

    // Writes the profile's book at the front of a buffer and tells its length, at most 795 bytes.
    pub fn write_book(&self, out: &mut [u8]) -> Result<usize, TooShort>
        ensures writes { Writes out.old self.now.tables out.new result }
        ensures book { IsBook (encode self.now.tables) self.now.tables }
        ensures short { MatchResult result (λ n. n ≤ 795) (λ _. length out.old < 795) }
    {
        write(out, &self.tables)
    }

    // The peg of this number, if it is in force: as its highest-numbered edit since the last accepted book said.
    pub fn peg(&self, number: u32) -> Option<Peg>
        ensures value { result ≡ (peg_slot self.now.tables number).held }
        ensures history { (h : List Event) → Run h self.now → AsEdited h self.now }
    {
        self.tables.pegs.get(number as usize)?.held
    }

    // The fixed level of this number, likewise.
    // stays: a call beside `peg` for the other table, one line each: a trait of what is held would be longer than both
    pub fn fixed_level(&self, number: u32) -> Option<FixedLevel>
        ensures value { result ≡ (fixed_slot self.now.tables number).held }
        ensures history { (h : List Event) → Run h self.now → AsEdited h self.now }
    {
        self.tables.fixed.get(number as usize)?.held
    }

    // A law for callers: edits that arrive in another order leave the same profile.
    pub fn any_order(&self)
        ensures { AnyOrder }
    {}
}
