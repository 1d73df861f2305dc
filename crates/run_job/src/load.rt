// The line of a load: an address, a length, and words of the data as index:word.
use crate::line::{Fault, is_blank, number};

// Data longer than a page is refused whatever it is: a byte more than a page stands for all of it, in whole words.
pub(crate) const PAGE_BYTES: usize = 4104;

const LONGEST: u64 = 4097;

// The page's address, and how long its data is.
#[derive(Clone, Copy)]
pub struct Load {
    pub gpa: u64,
    pub length: usize,
}

// An index and a word, where a text is these.
fn read_pair(text: &[u8]) -> Option<(u64, u64)> {
    let colon = text.iter().position(|byte| *byte == b':')?;
    let index = text::parse_hex(&text[..colon])?;
    let word = text::parse_hex(&text[colon + 1..])?;
    Some((index, word))
}

// Puts the words of a line into a page of so many bytes.
fn fill(line: &[u8], size: u64, page: &mut [u8]) -> Result<(), Fault> {
    for text in line.split(|byte| is_blank(*byte)) {
        if text.is_empty() {
            continue;
        }
        let (index, word) = read_pair(text).ok_or(Fault::Pair)?;
        if index >= size.div_ceil(8) {
            return Err(Fault::Past);
        }
        tables::put(page, index as usize, word);
    }
    Ok(())
}

// Reads the line after its first word; the page gets the data. It is lent: a page of its own, or one handed back, would cost 4 KiB of
// writes for every line that is looked at, load or not.
pub(crate) fn read(line: &[u8], page: &mut [u8; PAGE_BYTES]) -> Result<Load, Fault> {
    let (gpa, rest) = number(line)?;
    let (length, rest) = number(rest)?;
    page.fill(0);
    fill(rest, length, page)?;
    Ok(Load {
        gpa,
        length: length.min(LONGEST) as usize,
    })
}
