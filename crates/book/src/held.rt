// What a slot may hold, as a book tells it: the figures of a peg, and those of a fixed level.
ghost use Rattle.std.specs.Prelude.{◌≡◌, ℕ, ◌≤◌, List, length};
ghost use Rattle.book.specs.Book.{fixed_figures, peg_figures, written};
ghost use Rattle.book.specs.Numbers.{over};
ghost use Rattle.book.specs.Reading.{Figured};
ghost use Rattle.book.specs.Sound.{GoodFixed, GoodPeg};
ghost use Rattle.book.specs.Wanted.{Fair, entry, next_entry, station};
ghost use Rattle.book.specs.declared.entry.Table.TheVariants.{Fixed, Pegs};
ghost use Rattle.book.specs.Figures.{fair_fixed, fair_peg};

use crate::cursor::Cursor;
use crate::entry::{Field, Table};
use crate::fault::{EntryFault, Misfit};
use crate::number::{numbers_size, write_numbers};
use pegs::peg::{FixedLevel, Peg};

const STATION: Field = Field {
    least: 0,
    most: 10_000,
    below: Misfit::StationTooHigh,
    above: Misfit::StationTooHigh,
};

const LEVEL: Field = Field {
    least: 0,
    most: 9_000_000,
    below: Misfit::LevelTooHigh,
    above: Misfit::LevelTooHigh,
};

// What the slots of a table may hold.
// stays: contracts cite the three members one by one, since most definitions are of one or two of them.
pub(crate) trait Held: Copy {
    ghost use Rattle.book.specs.declared.entry.Table.{Table};

    // Its table.
    ghost TABLE: { Table };

    // The numbers that tell it.
    ghost figures: { Self → List ℕ };

    // What may stand in a book.
    ghost Good: { Self → Type 0 };

    const TABLE: Table;

    // How many bytes the figures take.
    fn size(self) -> usize
        ensures is { result ≡ length (written (figures self)) }
        ensures few { result ≤ 15 };

    // Writes the figures at the front, and tells how many bytes they take.
    fn write(self, out: &mut [u8]) -> usize
        requires { length (written (figures self)) ≤ length out.old }
        ensures size { result ≡ length (written (figures self)) }
        ensures text { out.new ≡ over out.old (written (figures self)) };

    // Reads the figures.
    fn read(cursor: &mut Cursor<'_>) -> Result<Self, EntryFault>
        ensures { Figured TABLE figures Good cursor.old cursor.new result };

    // The figures of what may stand in a book are as a book wants them.
    ghost fair: { (left lowest : ℕ) (x : Self) → Good x → Fair (entry TABLE left lowest station) (figures x) (next_entry TABLE left lowest) };
}

impl Held for Peg {
    ghost TABLE = { Pegs };

    ghost figures = { peg_figures };

    ghost Good = { GoodPeg };

    const TABLE: Table = Table::Pegs;

    fn size(self) -> usize {
        numbers_size(&[self.station, self.level])
    }

    fn write(self, out: &mut [u8]) -> usize {
        write_numbers(out, &[self.station, self.level])
    }

    fn read(cursor: &mut Cursor<'_>) -> Result<Peg, EntryFault> {
        let station = cursor.field(STATION)?;
        let level = cursor.field(LEVEL)?;
        Ok(Peg { station, level })
    }

    ghost fair = { fair_peg };
}

impl Held for FixedLevel {
    ghost TABLE = { Fixed };

    ghost figures = { fixed_figures };

    ghost Good = { GoodFixed };

    const TABLE: Table = Table::Fixed;

    fn size(self) -> usize {
        numbers_size(&[self.station, self.low, self.high])
    }

    fn write(self, out: &mut [u8]) -> usize {
        write_numbers(out, &[self.station, self.low, self.high])
    }

    fn read(cursor: &mut Cursor<'_>) -> Result<FixedLevel, EntryFault> {
        let station = cursor.field(STATION)?;
        let low = cursor.field(LEVEL)?;
        let high = cursor.field(Field {
            least: low,
            below: Misfit::LowAboveHigh,
            ..LEVEL
        })?;
        Ok(FixedLevel { station, low, high })
    }

    ghost fair = { fair_fixed };
}
