// The answers to calls, each told in one line: stable first words, then prose for a person.
ghost use Rattle.std.specs.Prelude.{Some};
ghost use Rattle.desk.specs.Words.{missing_words, stands_words};

use crate::call::Choice;
use book::fault::{BookFault, TooShort};
use pegs::edit::EditRefusal;
use pegs::peg::{FixedLevel, Peg};
use rules::clause::ClauseNumber;
use rules::irc::Clause;
use rules::length::Length;
use rules::refusal::Refusal;
use rules::shortest::NoLength;
use rules::speeds::Asked;
use std::fmt;

// What a call needs and the job has not made yet.
#[derive(Clone, Copy)]
pub enum Missing {
    Irc,
    Table,
    Code,
}

impl fmt::Display for Missing {
    ghost output = { λ missing. Some (missing_words missing) };

    fn fmt<W: fmt::Write>(&self, f: &mut fmt::Formatter<W>) -> fmt::Result {
        f.write_str(match self {
            Missing::Irc => "no IRC code is made yet: make it by irc",
            Missing::Table => "no length table is made yet: make it by table",
            Missing::Code => "no code is in use yet: name it by use",
        })
    }
}

// What stands under a number.
#[derive(Clone, Copy)]
pub enum Stands {
    Peg {
        number: u32,
        held: Option<Peg>,
    },
    Fixed {
        number: u32,
        held: Option<FixedLevel>,
    },
}

impl fmt::Display for Stands {
    ghost output = { λ stands. Some (stands_words stands) };

    fn fmt<W: fmt::Write>(&self, f: &mut fmt::Formatter<W>) -> fmt::Result {
        match *self {
            Stands::Peg { number, held } => {
                write!(f, "peg {number} ")?;
                match held {
                    Some(Peg { station, level }) => write!(
                        f,
                        "stands at station {station}, level {level}"
                    ),
                    None => f.write_str("is absent"),
                }
            }
            Stands::Fixed { number, held } => {
                write!(f, "fixed level {number} ")?;
                match held {
                    Some(FixedLevel { station, low, high }) => write!(
                        f,
                        "asks {low} to {high} at station {station}"
                    ),
                    None => f.write_str("is absent"),
                }
            }
        }
    }
}

// What a code says of a grade or a curve, and which code that is.
#[derive(Clone, Copy)]
pub struct Verdict {
    pub told: Result<(), ClauseNumber>,
    pub by: Choice,
}

// The standard's clauses are told in words; an office knows its own.
impl fmt::Display for Verdict {
    fn fmt<W: fmt::Write>(&self, f: &mut fmt::Formatter<W>) -> fmt::Result {
        let Err(ClauseNumber { number }) = self.told else {
            return f.write_str("ok clause 0: passed");
        };
        match (self.by, Clause::try_from(number)) {
            (Choice::Irc, Ok(clause)) => write!(f, "ok clause {number}: {clause}"),
            _ => write!(f, "ok clause {number}: not passed"),
        }
    }
}

// What became of an edit, and what stands now under its number.
#[derive(Clone, Copy)]
pub struct Edited {
    pub outcome: Result<(), EditRefusal>,
    pub stands: Stands,
}

// A late edit is told with what stands instead.
impl fmt::Display for Edited {
    fn fmt<W: fmt::Write>(&self, f: &mut fmt::Formatter<W>) -> fmt::Result {
        let stands = self.stands;
        let Err(refusal) = self.outcome else {
            return write!(f, "ok: {stands}");
        };
        write!(f, "refused {}: {refusal}", refusal.number())?;
        match refusal {
            EditRefusal::SequenceLower | EditRefusal::SequenceEqual => write!(f, "; {stands}"),
            _ => Ok(()),
        }
    }
}

// Bytes in hexadecimal.
// stays: by hand and not by the library, whose text would need memory, and printing has none
#[derive(Clone, Copy)]
struct Hex<'a>(&'a [u8]);

impl<'a> fmt::Display for Hex<'a> {
    fn fmt<W: fmt::Write>(&self, f: &mut fmt::Formatter<W>) -> fmt::Result {
        for byte in self.0 {
            write!(f, "{byte:02x}")?;
        }
        Ok(())
    }
}

// What a road's design speed asks, in one line.
#[derive(Clone, Copy)]
struct Demands(Asked);

impl fmt::Display for Demands {
    fn fmt<W: fmt::Write>(&self, f: &mut fmt::Formatter<W>) -> fmt::Result {
        let Asked {
            kmh,
            stopping,
            overtaking,
            free_change,
            least_length,
        } = self.0;
        write!(f, "{kmh} km/h, stopping sight {stopping} m, ")?;
        match overtaking {
            Some(distance) => write!(f, "overtaking sight {distance} m, ")?,
            None => f.write_str("no overtaking sight, ")?,
        }
        write!(
            f,
            "free change {free_change} per 1000, least length {least_length} m"
        )
    }
}

// The answer to a call: what it did or found, what the layers below made of it, or what stands against it.
#[derive(Drop)]
pub enum Answer {
    Begun,
    Road(Asked),
    Rows(usize),
    Table(usize),
    InUse(Choice),
    Verdict(Verdict),
    Shortest(Result<Length, NoLength>),
    Edited(Edited),
    Book(Result<Vec<u8>, TooShort>),
    BookRead(Result<(), BookFault>),
    Refused(Refusal),
    Missing(Missing),
}

impl fmt::Display for Answer {
    fn fmt<W: fmt::Write>(&self, f: &mut fmt::Formatter<W>) -> fmt::Result {
        match *self {
            Answer::Begun => f.write_str("ok: a new job: no pegs, no fixed levels, no code"),
            Answer::Road(asked) => write!(f, "ok: {}", Demands(asked)),
            Answer::Rows(count) => write!(f, "ok: rows for the next table: {count}"),
            Answer::Table(count) => write!(f, "ok: rows in the length table: {count}"),
            Answer::InUse(choice) => write!(f, "ok: {choice}"),
            Answer::Verdict(verdict) => write!(f, "{verdict}"),
            Answer::Shortest(Ok(Length { metres })) => write!(
                f,
                "ok length {metres}: the shortest that passes"
            ),
            Answer::Shortest(Err(NoLength { clause })) => write!(
                f,
                "none clause {}: no length up to 2000 m passes",
                clause.number
            ),
            Answer::Edited(edited) => write!(f, "{edited}"),
            Answer::Book(Ok(ref bytes)) => write!(
                f,
                "ok {} {}",
                bytes.len(),
                Hex(bytes.as_slice())
            ),
            Answer::Book(Err(short)) => write!(f, "refused {}: {short}", short.number()),
            Answer::BookRead(Ok(())) => f.write_str(
                "ok: the book stands in place of all before it",
            ),
            Answer::BookRead(Err(fault)) => write!(
                f,
                "refused {} byte {} layer {}: {fault}",
                fault.number(),
                fault.place(),
                fault.layer()
            ),
            Answer::Refused(refusal) => write!(f, "refused {}: {refusal}", refusal.number()),
            Answer::Missing(missing) => write!(f, "not understood: {missing}"),
        }
    }
}
