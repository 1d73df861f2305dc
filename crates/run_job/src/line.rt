// The words and numbers of a line.
use std::fmt;

// What is wrong with a line.
#[derive(Clone, Copy)]
pub enum Fault {
    Line,
    First,
    Again,
    Number,
    Offset,
    More,
    Pair,
    Past,
}

impl fmt::Display for Fault {
    fn fmt<W: fmt::Write>(&self, f: &mut fmt::Formatter<W>) -> fmt::Result {
        f.write_str(match self {
            Fault::Line => "region, image, load, range, ranges, no scratch or build expected",
            Fault::First => "a region expected first",
            Fault::Again => "a second region",
            Fault::Number => "a number in hexadecimal expected",
            Fault::Offset => "an offset in hexadecimal expected",
            Fault::More => "too many words",
            Fault::Pair => "index:word in hexadecimal expected",
            Fault::Past => "a word past the load",
        })
    }
}

pub(crate) fn is_blank(byte: u8) -> bool {
    matches!(byte, b' ' | b'\t' | b'\r')
}

// The first word of a text, and what follows it. The word is empty where there is none.
pub(crate) fn split_word(text: &[u8]) -> (&[u8], &[u8]) {
    let start = text.iter().position(|byte| !is_blank(*byte));
    let words = &text[start.unwrap_or(text.len())..];
    let end = words.iter().position(|byte| is_blank(*byte));
    words.split_at(end.unwrap_or(words.len()))
}

// The number that a text begins with, and what follows it.
pub(crate) fn number(text: &[u8]) -> Result<(u64, &[u8]), Fault> {
    let (word, rest) = split_word(text);
    let number = text::parse_hex(word).ok_or(Fault::Number)?;
    Ok((number, rest))
}

// The offset that a text begins with, and what follows it. One function for both would take the reader and the fault: no plainer.
fn offset(text: &[u8]) -> Result<(u64, &[u8]), Fault> {
    let (word, rest) = split_word(text);
    let offset = text::parse_signed(word).ok_or(Fault::Offset)?;
    Ok((offset, rest))
}

// Nothing may follow.
pub(crate) fn ends(rest: &[u8]) -> Result<(), Fault> {
    if rest.iter().all(|byte| is_blank(*byte)) {
        Ok(())
    } else {
        Err(Fault::More)
    }
}

// A text's numbers, which are N.
pub(crate) fn numbers<const N: usize>(text: &[u8]) -> Result<[u64; N], Fault> {
    let mut numbers = [0u64; N];
    let mut rest = text;
    for place in numbers.iter_mut() {
        (*place, rest) = number(rest)?;
    }
    ends(rest)?;
    Ok(numbers)
}

// A text's two numbers and the offset after them.
pub(crate) fn numbers_and_offset(text: &[u8]) -> Result<(u64, u64, u64), Fault> {
    let (first, rest) = number(text)?;
    let (second, rest) = number(rest)?;
    let (offset, rest) = offset(rest)?;
    ends(rest)?;
    Ok((first, second, offset))
}
