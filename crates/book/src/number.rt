// Numbers in groups of seven bits, lowest first, in the shortest form.
ghost use Rattle.std.specs.Prelude.{◌≡◌, ◌+◌, ◌*◌, ◌≤◌, length};
ghost use Rattle.book.specs.Book.{written};
ghost use Rattle.book.specs.Numbers.{Taken, number, over};
ghost use Rattle.book.specs.Pairs.{ExactlyRead, NumberRead, PairWritten};

use crate::cursor::Cursor;
use crate::fault::{NumberFault, NumberKind, TooShort};

// A number that was read, and the place after it.
#[derive(Clone, Copy)]
pub struct Read {
    pub value: u32,
    pub end: usize,
}

impl Cursor<'_> {
    // No number stands here.
    fn no_number(&self, kind: NumberKind) -> NumberFault
        ensures { result ≡ record { place = self.now.at; kind = kind } }
    {
        NumberFault {
            place: self.at,
            kind,
        }
    }

    // The number that stands here, and the place after it.
    fn peek(&self) -> Result<Read, NumberFault>
        ensures { NumberRead self.now.bytes.now self.now.at result }
    {
        let rest = &self.bytes[self.at..];
        let groups = &rest[..rest.len().min(5)];
        let mut value: u64 = 0;
        let mut scale: u64 = 1;
        for (k, &byte) in groups.iter().enumerate() {
            if byte < 128 {
                if byte == 0 && k > 0 {
                    return Err(self.no_number(NumberKind::Long));
                }
                let whole = value + scale * byte as u64;
                if whole > u32::MAX as u64 {
                    return Err(self.no_number(NumberKind::Large));
                }
                return Ok(Read {
                    value: whole as u32,
                    end: self.at + k + 1,
                });
            }
            value += scale * (byte - 128) as u64;
            scale *= 128;
        }
        if groups.len() < 5 {
            return Err(self.no_number(NumberKind::Cut));
        }
        Err(self.no_number(NumberKind::Large))
    }

    // The number that stands here, which is passed.
    pub(crate) fn number(&mut self) -> Result<u32, NumberFault>
        ensures { Taken self.old self.new result }
    {
        let read = self.peek()?;
        self.at = read.end;
        Ok(read.value)
    }
}

// How many bytes a number takes.
pub(crate) fn number_size(n: u32) -> usize
    ensures is { result ≡ length (number n) }
    ensures few { result ≤ 5 }
{
    if n < 128 {
        1
    } else if n < 16384 {
        2
    } else if n < 2097152 {
        3
    } else if n < 268435456 {
        4
    } else {
        5
    }
}

// Writes a number at the front, and tells how many bytes it takes.
// stays: it and each writer above it state their room, size and text one by one, which callers need apart.
pub(crate) fn write_number(out: &mut [u8], n: u32) -> usize
    requires { length (number n) ≤ length out.old }
    ensures size { result ≡ length (number n) }
    ensures text { out.new ≡ over out.old (number n) }
{
    let mut left = n;
    let mut end = 0;
    // stays: the number ends the loop, and not the slice, so an iterator over `out` would have an end that is never met.
    while left >= 128 {
        out[end] = (128 + left % 128) as u8;
        left /= 128;
        end += 1;
    }
    out[end] = left as u8;
    end + 1
}

// How many bytes some numbers take.
pub(crate) fn numbers_size(numbers: &[u32]) -> usize
    requires { length numbers.now ≤ 6 }
    ensures is { result ≡ length (written numbers.now) }
    ensures few { result ≤ 5 * length numbers.now }
{
    numbers.iter().map(|n| number_size(*n)).sum()
}

// Writes some numbers at the front, and tells how many bytes they take.
pub(crate) fn write_numbers(out: &mut [u8], numbers: &[u32]) -> usize
    requires { length (written numbers.now) ≤ length out.old }
    ensures size { result ≡ length (written numbers.now) }
    ensures text { out.new ≡ over out.old (written numbers.now) }
{
    let mut end = 0;
    for n in numbers {
        end += write_number(&mut out[end..], *n);
    }
    end
}

// The number that stands at a place, or why none does; beyond the last byte it is cut off.
pub fn read_at(bytes: &[u8], at: usize) -> Result<Read, NumberFault>
    ensures answer { NumberRead bytes.now at result }
    ensures exact { ExactlyRead bytes.now at result }
{
    if at > bytes.len() {
        return Err(NumberFault {
            place: at,
            kind: NumberKind::Cut,
        });
    }
    Cursor { bytes, at }.peek()
}

// Writes two numbers at a place, and tells the place after them; where the room is short, nothing is written.
pub fn write_pair(out: &mut [u8], at: usize, first: u32, second: u32) -> Result<usize, TooShort>
    ensures { PairWritten out.old at first second out.new result }
{
    if out.len() < at {
        return Err(TooShort);
    }
    if out.len() - at < number_size(first) + number_size(second) {
        return Err(TooShort);
    }
    let middle = at + write_number(&mut out[at..], first);
    Ok(middle + write_number(&mut out[middle..], second))
}
