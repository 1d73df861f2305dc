// A build's report and a load's answer as people read them: counts and levels in decimal, all else in hexadecimal.
#![tactic(auto)]

use definitions::refusals::Error;
use definitions::{Counts, Place, Refusal};
use std::fmt;
use std::rt::{Env, Files};

// The report of a build.
#[derive(Clone, Copy)]
pub struct Report(pub Result<Counts, Refusal>);

// A page's load that is refused: at which address, and why.
#[derive(Clone, Copy)]
pub struct RefusedLoad {
    pub gpa: u64,
    pub error: Error,
}

// An offset as the signed number that it stands for.
#[derive(Clone, Copy)]
struct Signed(u64);

impl fmt::Display for Signed {
    fn fmt<W: fmt::Write>(&self, f: &mut fmt::Formatter<W>) -> fmt::Result {
        let offset = self.0;
        if offset < 0x8000_0000_0000_0000 {
            write!(f, "{offset:#x}")
        } else {
            write!(f, "-{:#x}", offset.wrapping_neg())
        }
    }
}

// A refusal's number and sentence.
#[derive(Clone, Copy)]
struct Numbered(Error);

impl fmt::Display for Numbered {
    fn fmt<W: fmt::Write>(&self, f: &mut fmt::Formatter<W>) -> fmt::Result {
        let error = self.0;
        write!(f, "number {} {error}", error.number())
    }
}

impl fmt::Display for RefusedLoad {
    fn fmt<W: fmt::Write>(&self, f: &mut fmt::Formatter<W>) -> fmt::Result {
        let gpa = self.gpa;
        writeln!(f, "load {gpa:#x} {}", Numbered(self.error))
    }
}

// Where an entry stands that a refusal names, or a moved leaf that found no way. The root of five levels stands above all
// entries, and has no size.
fn write_place<W: fmt::Write>(f: &mut fmt::Formatter<W>, name: &str, place: Place) -> fmt::Result {
    let address = place.address;
    let level = place.level;
    writeln!(f, "{name} address {address:#x}\nlevel {level}")?;
    match levels::mapping_size(level) {
        Ok(size) => writeln!(f, "size {size:#x}"),
        Err(_) => Ok(()),
    }
}

// A refusal's place, as far as it has one.
fn write_refusal<W: fmt::Write>(f: &mut fmt::Formatter<W>, refusal: Refusal) -> fmt::Result {
    let place = refusal.place;
    writeln!(f, "{}", Numbered(refusal.error))?;
    match refusal.error {
        Error::UnalignedOffset | Error::OutOfBounds => {
            write_place(f, "old", place)?;
            writeln!(f, "offset {}", Signed(place.offset))
        }
        Error::FreeTail
        | Error::SharedTable
        | Error::IntoMoved
        | Error::SameAddress
        | Error::NoRoom => write_place(f, "old", place),
        Error::LargeInTheWay | Error::WayOutside | Error::Occupied | Error::NoFreeTable => {
            write_place(f, "new", place)
        }
        _ => Ok(()),
    }
}

impl fmt::Display for Report {
    fn fmt<W: fmt::Write>(&self, f: &mut fmt::Formatter<W>) -> fmt::Result {
        match self.0 {
            Err(refusal) => write_refusal(f, refusal),
            Ok(counts) => writeln!(
                f,
                "number 0 accepted\nused {:#x}\nmoved {}\nmerged {}\nreached {}",
                counts.used, counts.moved, counts.merged, counts.reached
            ),
        }
    }
}

// The end of a build: its tables go to the file that argument `at` names, and are there when the report says so.
pub fn finish(
    rt: &(impl Env + Files + Print + Eprint),
    at: usize,
    what: &str,
    out: &[u8],
    built: Result<Counts, Refusal>,
) {
    if let Ok(counts) = built {
        if !files::save(rt, at, what, files::front(out, counts.used as usize)) {
            return;
        }
    }
    if let Err(error) = rt.print(Report(built)) {
        files::fail(rt, "archwend: the report", error);
    }
}
