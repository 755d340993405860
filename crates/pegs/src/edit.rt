// Edits, and why one is refused.
ghost use Rattle.std.specs.Prelude.{◌≡◌};
ghost use Rattle.pegs.specs.Edits.{Checked, FiguresChecked, SlotChecked, edit_refusal_number, of_late};

use crate::slot::Late;
use rules::refusal::Refusal;
use std::fmt;

// One of four, each with the number of its peg or fixed level and a sequence number.
#[derive(Clone, Copy)]
pub enum Edit {
    Place {
        number: u32,
        sequence: u32,
        station: u32,
        level: u32,
    },
    Lift {
        number: u32,
        sequence: u32,
    },
    Fix {
        number: u32,
        sequence: u32,
        station: u32,
        low: u32,
        high: u32,
    },
    Clear {
        number: u32,
        sequence: u32,
    },
}

#[derive(Clone, Copy)]
pub enum EditRefusal {
    NumberTooHigh,
    SequenceZero,
    StationTooHigh,
    LevelTooHigh,
    LowAboveHigh,
    SequenceLower,
    SequenceEqual,
}

impl EditRefusal {
    // The number by which the refusal is told.
    pub fn number(self) -> u8
        ensures { result ≡ edit_refusal_number self }
    {
        match self {
            EditRefusal::NumberTooHigh => 1,
            EditRefusal::SequenceZero => 2,
            EditRefusal::StationTooHigh => Refusal::StationTooHigh.number(),
            EditRefusal::LevelTooHigh => Refusal::LevelTooHigh.number(),
            EditRefusal::LowAboveHigh => 5,
            EditRefusal::SequenceLower => 20,
            EditRefusal::SequenceEqual => 21,
        }
    }
}

impl fmt::Display for EditRefusal {
    fn fmt<W: fmt::Write>(&self, f: &mut fmt::Formatter<W>) -> fmt::Result {
        f.write_str(match self {
            EditRefusal::NumberTooHigh => "the number is above 39 for a peg, 15 for a fixed level",
            EditRefusal::SequenceZero => "the sequence number is 0",
            EditRefusal::StationTooHigh => "the station is above 10000 m",
            EditRefusal::LevelTooHigh => "a level is above 9000000 mm",
            EditRefusal::LowAboveHigh => "the low bound is above the high one",
            EditRefusal::SequenceLower => "a newer edit stands: this one came late",
            EditRefusal::SequenceEqual => "an edit with this sequence number stands already",
        })
    }
}

impl From<Late> for EditRefusal {
    ghost from_gives = { λ late r. r ≡ of_late late };

    fn from(late: Late) -> EditRefusal {
        match late {
            Late::Lower => EditRefusal::SequenceLower,
            Late::Equal => EditRefusal::SequenceEqual,
        }
    }
}

// The number and sequence number of an edit, with the highest number that there is.
fn check_slot(number: u32, most: u32, sequence: u32) -> Result<(), EditRefusal>
    ensures { SlotChecked number most sequence result }
{
    if number > most {
        return Err(EditRefusal::NumberTooHigh);
    }
    if sequence == 0 {
        return Err(EditRefusal::SequenceZero);
    }
    Ok(())
}

// The station and levels of an edit, low to high.
fn check_figures(station: u32, low: u32, high: u32) -> Result<(), EditRefusal>
    ensures { FiguresChecked station low high result }
{
    if station > 10_000 {
        return Err(EditRefusal::StationTooHigh);
    }
    if low > 9_000_000 || high > 9_000_000 {
        return Err(EditRefusal::LevelTooHigh);
    }
    if low > high {
        return Err(EditRefusal::LowAboveHigh);
    }
    Ok(())
}

impl Edit {
    // Whether the edit is well-formed, or the first reason against it.
    pub fn check(self) -> Result<(), EditRefusal>
        ensures { Checked self result }
    {
        match self {
            Edit::Place {
                number,
                sequence,
                station,
                level,
            } => {
                check_slot(number, 39, sequence)?;
                check_figures(station, level, level)
            }
            Edit::Lift { number, sequence } => check_slot(number, 39, sequence),
            Edit::Fix {
                number,
                sequence,
                station,
                low,
                high,
            } => {
                check_slot(number, 15, sequence)?;
                check_figures(station, low, high)
            }
            Edit::Clear { number, sequence } => check_slot(number, 15, sequence),
        }
    }
}
