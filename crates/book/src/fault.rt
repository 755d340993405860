// What is wrong with a book, by the layer in which it arose.
ghost use Rattle.std.specs.Prelude.{◌≡◌, Some, codes};
ghost use Rattle.book.specs.Faults.{book_fault_number, book_layer, book_place, entry_fault_number, entry_layer, entry_place, misfit_number, of_entry, of_number, of_number_book, too_short_number};
ghost use Rattle.book.specs.Words.{book_words, entry_words, layer_words, misfit_words, number_words};

use pegs::edit::EditRefusal;
use std::fmt;

// Why no number can be read: the bytes end within it, it has a shorter form, or it is above 4,294,967,295.
#[derive(Clone, Copy)]
pub enum NumberKind {
    Cut,
    Long,
    Large,
}

// A number that can't be read, with its first byte's place.
#[derive(Clone, Copy)]
pub struct NumberFault {
    pub place: usize,
    pub kind: NumberKind,
}

// Why a number of an entry isn't one that may stand there.
// stays: an enum beside EditRefusal, since five reasons are shared and each side has its own words and others of its own
#[derive(Clone, Copy)]
pub enum Misfit {
    NumberTooHigh,
    NotRising,
    SequenceZero,
    NoMark,
    StationTooHigh,
    LevelTooHigh,
    LowAboveHigh,
}

// What is wrong with an entry, with the place of the number at fault.
#[derive(Clone, Copy)]
pub enum EntryFault {
    Unread(NumberFault),
    Unfit { place: usize, misfit: Misfit },
}

// What is wrong with a book: a number or an entry of it, its form number, a count, or bytes left over.
#[derive(Clone, Copy)]
pub enum BookFault {
    Unread(NumberFault),
    Entry(EntryFault),
    Form(usize),
    Count(usize),
    Extra(usize),
}

// Where a fault arose.
#[derive(Clone, Copy)]
pub enum Layer {
    Number,
    Entry,
    Book,
}

// A buffer that a book doesn't fit into.
#[derive(Clone, Copy)]
pub struct TooShort;

impl From<NumberFault> for EntryFault {
    ghost from_gives = { λ x r. r ≡ of_number x };

    fn from(x: NumberFault) -> EntryFault {
        EntryFault::Unread(x)
    }
}

impl From<NumberFault> for BookFault {
    ghost from_gives = { λ x r. r ≡ of_number_book x };

    fn from(x: NumberFault) -> BookFault {
        BookFault::Unread(x)
    }
}

impl From<EntryFault> for BookFault {
    ghost from_gives = { λ x r. r ≡ of_entry x };

    fn from(x: EntryFault) -> BookFault {
        BookFault::Entry(x)
    }
}

// The number of a refusal of bytes that are no number.
const UNREAD: u8 = 11;

// The number of a refusal of a book that isn't in its form.
const UNFIT: u8 = 12;

impl Misfit {
    // The number by which the fault is told: an edit's, where an edit can have it too.
    pub(crate) fn number(self) -> u8
        ensures { result ≡ misfit_number self }
    {
        match self {
            Misfit::NumberTooHigh => EditRefusal::NumberTooHigh.number(),
            Misfit::NotRising | Misfit::NoMark => UNFIT,
            Misfit::SequenceZero => EditRefusal::SequenceZero.number(),
            Misfit::StationTooHigh => EditRefusal::StationTooHigh.number(),
            Misfit::LevelTooHigh => EditRefusal::LevelTooHigh.number(),
            Misfit::LowAboveHigh => EditRefusal::LowAboveHigh.number(),
        }
    }
}

impl EntryFault {
    // The byte place of the number at fault.
    pub(crate) fn place(self) -> usize
        ensures { result ≡ entry_place self }
    {
        match self {
            EntryFault::Unread(fault) => fault.place,
            EntryFault::Unfit { place, .. } => place,
        }
    }

    // The layer in which the fault arose.
    pub(crate) fn layer(self) -> Layer
        ensures { result ≡ entry_layer self }
    {
        match self {
            EntryFault::Unread(_) => Layer::Number,
            EntryFault::Unfit { .. } => Layer::Entry,
        }
    }

    // The number by which the fault is told.
    pub(crate) fn number(self) -> u8
        ensures { result ≡ entry_fault_number self }
    {
        match self {
            EntryFault::Unread(_) => UNREAD,
            EntryFault::Unfit { misfit, .. } => misfit.number(),
        }
    }
}

impl BookFault {
    // The byte place of the number at fault, or of the first byte left over.
    pub fn place(self) -> usize
        ensures { result ≡ book_place self }
    {
        match self {
            BookFault::Unread(fault) => fault.place,
            BookFault::Entry(fault) => fault.place(),
            BookFault::Form(place) | BookFault::Count(place) | BookFault::Extra(place) => place,
        }
    }

    // The layer in which the fault arose.
    pub fn layer(self) -> Layer
        ensures { result ≡ book_layer self }
    {
        match self {
            BookFault::Unread(_) => Layer::Number,
            BookFault::Entry(fault) => fault.layer(),
            BookFault::Form(_) | BookFault::Count(_) | BookFault::Extra(_) => Layer::Book,
        }
    }

    // The number by which the fault is told.
    pub fn number(self) -> u8
        ensures { result ≡ book_fault_number self }
    {
        match self {
            BookFault::Unread(_) => UNREAD,
            BookFault::Entry(fault) => fault.number(),
            BookFault::Form(_) | BookFault::Count(_) | BookFault::Extra(_) => UNFIT,
        }
    }
}

impl TooShort {
    // The number by which the refusal is told.
    pub fn number(self) -> u8
        ensures { result ≡ too_short_number }
    {
        10
    }
}

impl fmt::Display for NumberKind {
    ghost output = { λ kind. Some (number_words kind) };

    fn fmt<W: fmt::Write>(&self, f: &mut fmt::Formatter<W>) -> fmt::Result {
        f.write_str(match self {
            NumberKind::Cut => "the bytes end within a number, or before it",
            NumberKind::Long => "a number is not in its shortest form",
            NumberKind::Large => "a number is above 4294967295",
        })
    }
}

impl fmt::Display for Misfit {
    ghost output = { λ misfit. Some (misfit_words misfit) };

    fn fmt<W: fmt::Write>(&self, f: &mut fmt::Formatter<W>) -> fmt::Result {
        f.write_str(match self {
            Misfit::NumberTooHigh =>
                "an entry's number is above 39 for a peg, 15 for a fixed level",
            Misfit::NotRising => "an entry's number is not above the one before",
            Misfit::SequenceZero => "a sequence number is 0",
            Misfit::NoMark => "a mark is neither 0 nor 1",
            Misfit::StationTooHigh => "a station is above 10000 m",
            Misfit::LevelTooHigh => "a level is above 9000000 mm",
            Misfit::LowAboveHigh => "a low bound is above the high one",
        })
    }
}

impl fmt::Display for EntryFault {
    ghost output = { λ fault. Some (entry_words fault) };

    fn fmt<W: fmt::Write>(&self, f: &mut fmt::Formatter<W>) -> fmt::Result {
        match self {
            EntryFault::Unread(fault) => fault.kind.fmt(f),
            EntryFault::Unfit { misfit, .. } => misfit.fmt(f),
        }
    }
}

impl fmt::Display for BookFault {
    ghost output = { λ fault. Some (book_words fault) };

    fn fmt<W: fmt::Write>(&self, f: &mut fmt::Formatter<W>) -> fmt::Result {
        match self {
            BookFault::Unread(fault) => fault.kind.fmt(f),
            BookFault::Entry(fault) => fault.fmt(f),
            BookFault::Form(_) => f.write_str("the form number is not 1"),
            BookFault::Count(_) => f.write_str("a count is above 40 for pegs, 16 for fixed levels"),
            BookFault::Extra(_) => f.write_str("bytes are left over after the last entry"),
        }
    }
}

impl fmt::Display for Layer {
    ghost output = { λ layer. Some (layer_words layer) };

    fn fmt<W: fmt::Write>(&self, f: &mut fmt::Formatter<W>) -> fmt::Result {
        f.write_str(match self {
            Layer::Number => "number",
            Layer::Entry => "entry",
            Layer::Book => "book",
        })
    }
}

impl fmt::Display for TooShort {
    ghost output = { λ _. Some (codes "the buffer is too short for the book") };

    fn fmt<W: fmt::Write>(&self, f: &mut fmt::Formatter<W>) -> fmt::Result {
        f.write_str("the buffer is too short for the book")
    }
}
