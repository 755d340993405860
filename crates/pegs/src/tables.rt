// The two tables of numbered slots, plain: nothing is promised of what stands in them.
ghost use Rattle.std.specs.Prelude.{◌≡◌};
ghost use Rattle.pegs.specs.Tables.{Edited, no_tables};

use crate::edit::{Edit, EditRefusal};
use crate::peg::{FixedLevel, Peg};
use crate::slot::Slot;

// stays: arrays, since a profile holds so many numbered slots and never needs memory
#[derive(Clone, Copy)]
pub struct Tables {
    pub pegs: [Slot<Peg>; 40],
    pub fixed: [Slot<FixedLevel>; 16],
}

impl Tables {
    // No slot was ever edited.
    pub fn new() -> Tables
        ensures { result ≡ no_tables }
    {
        Tables {
            pegs: [Slot {
                last: 0,
                held: None,
            }; 40],
            fixed: [Slot {
                last: 0,
                held: None,
            }; 16],
        }
    }

    // Writes the one slot that the edit names, or tells the first reason against it.
    pub fn apply(&mut self, edit: Edit) -> Result<(), EditRefusal>
        ensures { Edited edit self.old self.new result }
    {
        edit.check()?;
        match edit {
            Edit::Place {
                number,
                sequence,
                station,
                level,
            } => {
                self.pegs[number as usize].update(sequence, Some(Peg { station, level }))?;
            }
            Edit::Lift { number, sequence } => {
                self.pegs[number as usize].update(sequence, None)?;
            }
            Edit::Fix {
                number,
                sequence,
                station,
                low,
                high,
            } => {
                self.fixed[number as usize].update(
                    sequence,
                    Some(FixedLevel { station, low, high }),
                )?;
            }
            Edit::Clear { number, sequence } => {
                self.fixed[number as usize].update(sequence, None)?;
            }
        }
        Ok(())
    }
}
