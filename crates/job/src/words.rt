// The words of a line, and the figures among them.
use crate::reply::Misread;
use std::alloc::{AllocError, Global};

// What stands before a '#', cut at blanks.
pub fn words_of(heap: Global, line: &str) -> Result<Vec<&str>, AllocError> {
    let text = line.split_once('#').map_or(line, |(front, _)| front);
    text.split_ascii_whitespace().collect(heap)
}

// A figure is written in digits alone.
pub fn figure(word: &str) -> Result<u32, Misread<'_>> {
    if !word.bytes().all(|b| b.is_ascii_digit()) {
        return Err(Misread::NoFigure(word));
    }
    word.parse().map_err(|_| Misread::NoFigure(word))
}

// The figures of a call that takes N of them.
pub fn figures<'a, const N: usize>(words: &[&'a str]) -> Result<[u32; N], Misread<'a>> {
    if words.len() != N {
        return Err(Misread::Count {
            wanted: N,
            given: words.len(),
        });
    }
    let mut read = [0; N];
    for (place, word) in read.iter_mut().zip(words) {
        *place = figure(word)?;
    }
    Ok(read)
}
