// Writing a book, after its length is known to fit.
ghost use Rattle.std.specs.Prelude.{◌≡◌, ◌≤◌, length};
ghost use Rattle.book.specs.Book.{OneBook, edited, entry_numbers, table_numbers, written};
ghost use Rattle.book.specs.Numbers.{over};
ghost use Rattle.book.specs.Writing.{Short, Tallied, Writes};

use crate::fault::TooShort;
use crate::held::Held;
use crate::number::{number_size, numbers_size, write_number, write_numbers};
use pegs::slot::Slot;
use pegs::tables::Tables;

// How many entries a table has in its book, and how many bytes these and their count take.
#[derive(Clone, Copy)]
pub(crate) struct Tally {
    count: u32,
    size: usize,
}

// How many bytes an entry takes.
fn entry_size<T: Held>(number: u32, slot: &Slot<T>) -> usize
    ensures is { result ≡ length (written (entry_numbers T.figures number slot.now)) }
    ensures few { result ≤ 30 }
{
    match slot.held {
        None => numbers_size(&[number, slot.last, 0]),
        Some(held) => numbers_size(&[number, slot.last, 1]) + held.size(),
    }
}

// The tally of a table.
fn tally_table<T: Held>(slots: &[Slot<T>]) -> Tally
    requires { length slots.now ≤ 40 }
    ensures { Tallied T.figures slots.now result }
{
    let mut count = 0;
    let mut size = 0;
    for (k, slot) in slots.iter().enumerate() {
        if slot.last > 0 {
            count += 1;
            size += entry_size(k as u32, slot);
        }
    }
    Tally {
        count,
        size: number_size(count) + size,
    }
}

// Writes an entry at the front, and tells how many bytes it takes.
fn write_entry<T: Held>(out: &mut [u8], number: u32, slot: &Slot<T>) -> usize
    requires { length (written (entry_numbers T.figures number slot.now)) ≤ length out.old }
    ensures size { result ≡ length (written (entry_numbers T.figures number slot.now)) }
    ensures text { out.new ≡ over out.old (written (entry_numbers T.figures number slot.now)) }
{
    match slot.held {
        None => write_numbers(out, &[number, slot.last, 0]),
        Some(held) => {
            let middle = write_numbers(out, &[number, slot.last, 1]);
            middle + held.write(&mut out[middle..])
        }
    }
}

// Writes the count of a table's entries and these at the front, and tells how many bytes they take.
fn write_table<T: Held>(out: &mut [u8], slots: &[Slot<T>], count: u32) -> usize
    requires few { length slots.now ≤ 40 }
    requires counted { count ≡ edited slots.now }
    requires room { length (written (table_numbers T.figures slots.now)) ≤ length out.old }
    ensures size { result ≡ length (written (table_numbers T.figures slots.now)) }
    ensures text { out.new ≡ over out.old (written (table_numbers T.figures slots.now)) }
{
    let mut end = write_number(out, count);
    for (k, slot) in slots.iter().enumerate() {
        if slot.last > 0 {
            end += write_entry(&mut out[end..], k as u32, slot);
        }
    }
    end
}

// Writes a book into a buffer, and tells its length; a buffer of 795 bytes is never too short for sound tables.
pub fn write(out: &mut [u8], tables: &Tables) -> Result<usize, TooShort>
    ensures writes { Writes out.old tables.now out.new result }
    ensures short { Short out.old tables.now result }
{
    let pegs = tally_table(&tables.pegs);
    let fixed = tally_table(&tables.fixed);
    if out.len() < number_size(1) + pegs.size + fixed.size {
        return Err(TooShort);
    }
    let start = write_number(out, 1);
    let middle = start + write_table(&mut out[start..], &tables.pegs, pegs.count);
    Ok(middle + write_table(&mut out[middle..], &tables.fixed, fixed.count))
}

// No two sound tables have one book: a proof and no code.
pub fn one_book()
    ensures { OneBook }
{}
