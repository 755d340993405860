// A call, read from the words of a line.
use crate::reply::Misread;
use crate::words::{figures, words_of};
use desk::call::{Call, Choice, Inquiry};
use pegs::edit::Edit;
use rules::point::Point;
use rules::road::RoadFigures;
use rules::table::Row;
use std::alloc::{AllocError, Global};

// Why no call is read: the line is none, or memory is wanting.
#[derive(Clone, Copy)]
pub enum Unread<'a> {
    Misread(Misread<'a>),
    Memory(AllocError),
}

impl<'a> From<Misread<'a>> for Unread<'a> {
    fn from(misread: Misread<'a>) -> Unread<'a> {
        Unread::Misread(misread)
    }
}

impl<'a> From<AllocError> for Unread<'a> {
    fn from(error: AllocError) -> Unread<'a> {
        Unread::Memory(error)
    }
}

// The codes that are named, in their order.
fn read_choice<'a>(names: &[&'a str]) -> Result<Choice, Misread<'a>> {
    match names {
        ["irc"] => Ok(Choice::Irc),
        ["table"] => Ok(Choice::Table),
        ["irc", "table"] => Ok(Choice::IrcThenTable),
        ["table", "irc"] => Ok(Choice::TableThenIrc),
        [other, ..] => Err(Misread::UnknownCode(other)),
        [] => Err(Misread::Count {
            wanted: 1,
            given: 0,
        }),
    }
}

fn point(station: u32, level: u32) -> Point {
    Point { station, level }
}

// An inquiry by its name and figures; none where the name is another's.
fn read_inquiry<'a>(name: &str, rest: &[&'a str]) -> Result<Option<Inquiry>, Misread<'a>> {
    match name {
        "grade" => {
            let [s1, y1, s2, y2] = figures::<4>(rest)?;
            Ok(Some(Inquiry::Grade {
                from: point(s1, y1),
                to: point(s2, y2),
            }))
        }
        "curve" => {
            let [s1, y1, s2, y2, s3, y3, length] = figures::<7>(rest)?;
            Ok(Some(Inquiry::Curve {
                before: point(s1, y1),
                at: point(s2, y2),
                after: point(s3, y3),
                length,
            }))
        }
        "shortest" => {
            let [s1, y1, s2, y2, s3, y3] = figures::<6>(rest)?;
            Ok(Some(Inquiry::Shortest {
                before: point(s1, y1),
                at: point(s2, y2),
                after: point(s3, y3),
            }))
        }
        _ => Ok(None),
    }
}

// An edit by its name and figures.
fn read_edit<'a>(name: &'a str, rest: &[&'a str]) -> Result<Edit, Misread<'a>> {
    match name {
        "place" => {
            let [number, sequence, station, level] = figures::<4>(rest)?;
            Ok(Edit::Place {
                number,
                sequence,
                station,
                level,
            })
        }
        "lift" => {
            let [number, sequence] = figures::<2>(rest)?;
            Ok(Edit::Lift { number, sequence })
        }
        "fix" => {
            let [number, sequence, station, low, high] = figures::<5>(rest)?;
            Ok(Edit::Fix {
                number,
                sequence,
                station,
                low,
                high,
            })
        }
        "clear" => {
            let [number, sequence] = figures::<2>(rest)?;
            Ok(Edit::Clear { number, sequence })
        }
        _ => Err(Misread::UnknownCall(name)),
    }
}

// The size of the buffer for a book: 795 bytes hold every book.
fn read_size<'a>(rest: &[&'a str]) -> Result<u32, Misread<'a>> {
    if rest.is_empty() {
        return Ok(795);
    }
    let [size] = figures::<1>(rest)?;
    Ok(size)
}

// The bytes that a word writes in hexadecimal; room for each piece is asked for once its digits are known to be right.
fn decode<'a>(heap: Global, word: &'a str) -> Result<Vec<u8>, Unread<'a>> {
    if word.len() % 2 != 0 {
        return Err(Unread::Misread(Misread::NoBytes(word)));
    }
    let mut bytes = Vec::new(heap);
    let mut room = [0u8; 64];
    for digits in word.as_bytes().chunks(128) {
        let piece = &mut room[..digits.len() / 2];
        hex::decode_to_slice(digits, piece).map_err(|_| Misread::NoBytes(word))?;
        bytes.extend_from_slice(piece)?;
    }
    Ok(bytes)
}

// A book to read, as one word of hexadecimal.
fn read_bytes<'a>(heap: Global, rest: &[&'a str]) -> Result<Vec<u8>, Unread<'a>> {
    let [word] = rest else {
        let given = rest.len();
        return Err(Unread::Misread(Misread::Count { wanted: 1, given }));
    };
    decode(heap, word)
}

// The call that the words make: its name, then its figures.
fn read_call<'a>(name: &'a str, rest: &[&'a str]) -> Result<Call, Misread<'a>> {
    match name {
        "new" => {
            let [] = figures::<0>(rest)?;
            Ok(Call::New)
        }
        "irc" => {
            let [class, terrain, speed, gradient, sight] = figures::<5>(rest)?;
            Ok(Call::Irc(RoadFigures {
                class,
                terrain,
                speed,
                gradient,
                sight,
            }))
        }
        "row" => {
            let [kind, change, least, clause] = figures::<4>(rest)?;
            Ok(Call::Row(Row {
                kind,
                change,
                least,
                clause,
            }))
        }
        "table" => {
            let [bound, clause] = figures::<2>(rest)?;
            Ok(Call::Table { bound, clause })
        }
        "use" => read_choice(rest).map(Call::Use),
        "book" => read_size(rest).map(|size| Call::Book { size }),
        _ => match read_inquiry(name, rest)? {
            Some(inquiry) => Ok(Call::Ask(inquiry)),
            None => read_edit(name, rest).map(Call::Edit),
        },
    }
}

// The call that a line makes, or none where it has no words; a book's bytes are set aside for it.
pub fn read_line<'a>(heap: Global, line: &'a [u8]) -> Result<Option<Call>, Unread<'a>> {
    let text = std::str::from_utf8(line).map_err(|_| Misread::NotText)?;
    let words = words_of(heap, text)?;
    match words.as_slice() {
        [] => Ok(None),
        ["read", rest @ ..] => Ok(Some(Call::Read(read_bytes(heap, rest)?))),
        [name, rest @ ..] => Ok(Some(read_call(name, rest)?)),
    }
}
