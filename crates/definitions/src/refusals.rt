// The refusals (§9.1): each by its name and number, which are the header's and the loader's (tests/refusals.sh), and in words.
ghost use Rattle.std.specs.Prelude.{◌≡◌};
ghost use Rattle.definitions.specs.Refusals.{number_of};

use std::{error, fmt};

// What is refused. 5 is out of use: it was given for five levels.
#[derive(Clone, Copy, Debug, PartialEq, Eq)]
pub enum Error {
    Region = 1,
    PageLength = 2,
    PageGpa = 3,
    Lengths = 4,
    Cr3 = 6,
    TableOffset = 7,
    Ranges = 8,
    FreeTail = 9,
    SharedTable = 10,
    IntoMoved = 11,
    UnalignedOffset = 12,
    OutOfBounds = 13,
    SameAddress = 14,
    NoRoom = 15,
    LargeInTheWay = 16,
    WayOutside = 17,
    Occupied = 18,
    NoFreeTable = 19,
    // of the operations on entries and levels
    Entry = 20,
    // of a comparison
    NotComparable = 34,
}

impl Error {
    // Its number; 0 is none's.
    pub fn number(self) -> u64
        ensures { result ≡ number_of self }
    {
        self as u64
    }
}

impl fmt::Display for Error {
    fn fmt<W: fmt::Write>(&self, f: &mut fmt::Formatter<W>) -> fmt::Result {
        f.write_str(match self {
            Error::Region =>
                "the region is not whole pages, is empty, has more than 512 tables, ends past the bound, or uses more than its size",
            Error::PageLength => "the page data is not 4096 bytes long",
            Error::PageGpa => "the page's address is outside the region, or not a multiple of 4096",
            Error::Lengths =>
                "the image is not as long as the used part, or the output is shorter than the region",
            Error::Cr3 => "cr3 is not in the region",
            Error::TableOffset =>
                "the table offset is not a multiple of 4096, or moves the region out of 0 to the bound",
            Error::Ranges =>
                "the ranges are more than 1024, not words in threes or not ascending, or one is empty, past the bound or over the region",
            Error::FreeTail =>
                "a table, or the page of a load, lies in the free tail of the region",
            Error::SharedTable => "a table is reached twice",
            Error::IntoMoved => "an entry points outside the old region but into the moved one",
            Error::UnalignedOffset => "an offset is not a multiple of the size that the entry maps",
            Error::OutOfBounds => "a leaf would move out of 0 to the bound",
            Error::SameAddress => "two leaves would move to one address",
            Error::NoRoom =>
                "the scratch has no room for another moved leaf, or a list is too short",
            Error::LargeInTheWay => "a large leaf stands in the way of a moved leaf",
            Error::WayOutside => "the way to a moved leaf leaves the moved region",
            Error::Occupied => "a different entry stands where a moved leaf goes",
            Error::NoFreeTable => "the region has no free table left",
            Error::Entry =>
                "the address has a bit that the entry can't hold, the level is above 4, or above 2 for a leaf, or the kind of entry is unknown",
            Error::NotComparable =>
                "two images differ in length, are not whole pages, or are longer than 2097152 bytes",
        })
    }
}

impl error::Error for Error {}
