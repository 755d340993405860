// What a line comes to, told in one line: stable first words, then prose for a person.
use desk::answer::Answer;
use std::fmt;

// Why a line is no call.
#[derive(Clone, Copy)]
pub enum Misread<'a> {
    NotText,
    UnknownCall(&'a str),
    NoFigure(&'a str),
    Count { wanted: usize, given: usize },
    UnknownCode(&'a str),
    NoBytes(&'a str),
}

impl<'a> fmt::Display for Misread<'a> {
    fn fmt<W: fmt::Write>(&self, f: &mut fmt::Formatter<W>) -> fmt::Result {
        match *self {
            Misread::NotText => f.write_str("the line is no text in UTF-8"),
            Misread::UnknownCall(word) => write!(f, "there is no call '{word}'"),
            Misread::NoFigure(word) => write!(
                f,
                "'{word}' is no whole number from 0 to 4294967295"
            ),
            Misread::Count { wanted, given } => write!(
                f,
                "{wanted} figures are wanted and {given} are given"
            ),
            Misread::NoBytes(word) => write!(f, "'{word}' is no row of bytes in hexadecimal"),
            Misread::UnknownCode(word) => write!(
                f,
                "'{word}' is no code: use irc, table, irc table or table irc"
            ),
        }
    }
}

// The answer to a line's call, or why it is no call: a type of its own, since both are printed as a line.
#[derive(Drop)]
pub struct Reply<'a>(pub Result<Answer, Misread<'a>>);

impl<'a> fmt::Display for Reply<'a> {
    fn fmt<W: fmt::Write>(&self, f: &mut fmt::Formatter<W>) -> fmt::Result {
        match &self.0 {
            Ok(answer) => write!(f, "{answer}"),
            Err(misread) => write!(f, "not understood: {misread}"),
        }
    }
}
