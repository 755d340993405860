// The calls of a job.
ghost use Rattle.std.specs.Prelude.{Some};
ghost use Rattle.desk.specs.Words.{choice_words};

use pegs::edit::Edit;
use rules::point::Point;
use rules::road::RoadFigures;
use rules::table::Row;
use std::fmt;

// Which code judges: one alone, or the stricter of two in this order.
#[derive(Clone, Copy)]
pub enum Choice {
    Irc,
    Table,
    IrcThenTable,
    TableThenIrc,
}

impl fmt::Display for Choice {
    ghost output = { λ choice. Some (choice_words choice) };

    fn fmt<W: fmt::Write>(&self, f: &mut fmt::Formatter<W>) -> fmt::Result {
        f.write_str(match self {
            Choice::Irc => "the IRC code",
            Choice::Table => "the length table",
            Choice::IrcThenTable => "the IRC code, then the length table",
            Choice::TableThenIrc => "the length table, then the IRC code",
        })
    }
}

// What a code is asked.
#[derive(Clone, Copy)]
pub enum Inquiry {
    Grade {
        from: Point,
        to: Point,
    },
    Curve {
        before: Point,
        at: Point,
        after: Point,
        length: u32,
    },
    Shortest {
        before: Point,
        at: Point,
        after: Point,
    },
}

// A call of a job, with its figures as they came in.
#[derive(Drop)]
pub enum Call {
    New,
    Irc(RoadFigures),
    Row(Row),
    Table { bound: u32, clause: u32 },
    Use(Choice),
    Ask(Inquiry),
    Edit(Edit),
    Book { size: u32 },
    Read(Vec<u8>),
}
