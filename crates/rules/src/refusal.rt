// Why a figure is refused.
ghost use Rattle.std.specs.Prelude.{◌≡◌};
ghost use Rattle.rules.specs.Refusals.{refusal_number};

use std::fmt;

// What a length table has against it, and where.
#[derive(Clone, Copy)]
pub enum TableFault {
    RowCount,
    Row(usize),
    Gradient,
}

// A refusal. Each has one number, which users and documents know it by.
#[derive(Clone, Copy)]
pub enum Refusal {
    StationTooHigh,
    LevelTooHigh,
    UnknownRoadFigure,
    OvertakingTooSlow,
    UnlawfulTable(TableFault),
    LengthOutOfStep,
    StationsNotRising,
}

impl Refusal {
    // The number by which the refusal is told.
    pub fn number(self) -> u8
        ensures { result ≡ refusal_number self }
    {
        match self {
            Refusal::StationTooHigh => 3,
            Refusal::LevelTooHigh => 4,
            Refusal::UnknownRoadFigure => 6,
            Refusal::OvertakingTooSlow => 7,
            Refusal::UnlawfulTable(_) => 8,
            Refusal::LengthOutOfStep => 9,
            Refusal::StationsNotRising => 23,
        }
    }
}

impl fmt::Display for Refusal {
    fn fmt<W: fmt::Write>(&self, f: &mut fmt::Formatter<W>) -> fmt::Result {
        match *self {
            Refusal::StationTooHigh => f.write_str("a station is above 10000 m"),
            Refusal::LevelTooHigh => f.write_str("a level is above 9000000 mm"),
            Refusal::UnknownRoadFigure => f.write_str("a road figure is unknown"),
            Refusal::OvertakingTooSlow => f.write_str(
                "overtaking sight is not given below 40 km/h",
            ),
            Refusal::UnlawfulTable(TableFault::RowCount) => f.write_str(
                "the table has no row, or more than 64",
            ),
            Refusal::UnlawfulTable(TableFault::Row(place)) => write!(
                f,
                "a figure out of range, or a bound not above an earlier one of its kind, in the table's row {place}, counted from 0"
            ),
            Refusal::UnlawfulTable(TableFault::Gradient) => f.write_str(
                "the table's gradient bound is above 2000, or that bound's clause is not 1 to 254",
            ),
            Refusal::LengthOutOfStep => f.write_str("a length is a multiple of 5 from 0 to 2000 m"),
            Refusal::StationsNotRising => f.write_str(
                "stations rise by at least 10 m from point to point",
            ),
        }
    }
}
