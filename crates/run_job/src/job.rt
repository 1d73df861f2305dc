// A job as its text says it, read line by line up to its build.
use crate::line::{Fault, ends, numbers, numbers_and_offset, split_word};
use crate::load::{self, PAGE_BYTES};
use arrayvec::ArrayVec;
use build::CpuPagingState;
use definitions::Region;
use files::{RANGE_WORDS, SCRATCH_WORDS};
use std::fmt;

// The ranges, three words each.
type Ranges = ArrayVec<u64, RANGE_WORDS>;

// What is read so far beside the ranges: the region, the image's length, and the words of the scratch.
#[derive(Clone, Copy)]
pub struct Job {
    pub region: Region,
    pub image: u64,
    pub scratch: usize,
}

// What to build of it.
#[derive(Clone, Copy)]
pub struct Build {
    pub job: Job,
    pub cpu: CpuPagingState,
    pub offset: u64,
}

// Why a text is no job: its first line that is wrong, or that it has no build.
#[derive(Clone, Copy)]
pub enum Wrong {
    Line(Fault, usize),
    Unbuilt,
}

impl fmt::Display for Wrong {
    fn fmt<W: fmt::Write>(&self, f: &mut fmt::Formatter<W>) -> fmt::Result {
        match self {
            Wrong::Line(fault, row) => write!(f, "line {row}: {fault}"),
            Wrong::Unbuilt => f.write_str("no build"),
        }
    }
}

// What a line is.
#[derive(Clone, Copy)]
enum Kind {
    Region,
    Image,
    Load,
    Range,
    Ranges,
    No,
    Build,
}

// What a line makes of a job.
#[derive(Clone, Copy)]
enum Step {
    On(Job),
    Built(Build),
}

fn kind_of(word: &[u8]) -> Option<Kind> {
    match word {
        b"region" => Some(Kind::Region),
        b"image" => Some(Kind::Image),
        b"load" => Some(Kind::Load),
        b"range" => Some(Kind::Range),
        b"ranges" => Some(Kind::Ranges),
        b"no" => Some(Kind::No),
        b"build" => Some(Kind::Build),
        _ => None,
    }
}

fn region_line(rest: &[u8]) -> Result<Job, Fault> {
    let [gpa, size, used] = numbers::<3>(rest)?;
    Ok(Job {
        region: Region { gpa, size, used },
        image: used,
        scratch: SCRATCH_WORDS,
    })
}

// A range, where it has room.
fn range_line(rest: &[u8], ranges: &mut Ranges) -> Result<(), Fault> {
    let (first, last, offset) = numbers_and_offset(rest)?;
    let _ = ranges.try_extend_from_slice(&[first, last, offset]);
    Ok(())
}

// So many ranges of one address each, with offset 0, as far as there is room.
fn ranges_line(rest: &[u8], ranges: &mut Ranges) -> Result<(), Fault> {
    let [many, first] = numbers::<2>(rest)?;
    for k in 0..many {
        let address = first.wrapping_add(k);
        if ranges
            .try_extend_from_slice(&[address, address, 0])
            .is_err()
        {
            break;
        }
    }
    Ok(())
}

fn no_line(rest: &[u8], job: Job) -> Result<Job, Fault> {
    let (word, rest) = split_word(rest);
    if word != b"scratch".as_slice() {
        return Err(Fault::Line);
    }
    ends(rest)?;
    Ok(Job { scratch: 0, ..job })
}

fn build_line(rest: &[u8], job: Job) -> Result<Build, Fault> {
    let (cr3, cr4, offset) = numbers_and_offset(rest)?;
    Ok(Build {
        job,
        cpu: CpuPagingState { cr3, cr4 },
        offset,
    })
}

// A line after its first word. A load is done later, when cr4 is known.
fn read_rest(
    kind: Kind,
    rest: &[u8],
    job: Option<Job>,
    ranges: &mut Ranges,
    page: &mut [u8; PAGE_BYTES],
) -> Result<Step, Fault> {
    let Some(job) = job else {
        return match kind {
            Kind::Region => Ok(Step::On(region_line(rest)?)),
            _ => Err(Fault::First),
        };
    };
    Ok(Step::On(match kind {
        Kind::Region => return Err(Fault::Again),
        Kind::Image => {
            let [image] = numbers::<1>(rest)?;
            Job { image, ..job }
        }
        Kind::Load => {
            let _ = load::read(rest, page)?;
            job
        }
        Kind::Range => {
            range_line(rest, ranges)?;
            job
        }
        Kind::Ranges => {
            ranges_line(rest, ranges)?;
            job
        }
        Kind::No => no_line(rest, job)?,
        Kind::Build => return Ok(Step::Built(build_line(rest, job)?)),
    }))
}

// Reads a text up to its build: that, and how many lines stand before it. The ranges get its ranges.
pub(crate) fn read(text: &[u8], ranges: &mut Ranges) -> Result<(Build, usize), Wrong> {
    let mut job = None;
    let mut page = [0u8; PAGE_BYTES];
    for (row, line) in text.split(|byte| *byte == b'\n').enumerate() {
        let (word, rest) = split_word(line);
        if word.is_empty() || word.starts_with(b"#") {
            continue;
        }
        let step = match kind_of(word) {
            Some(kind) => read_rest(kind, rest, job, ranges, &mut page),
            None => Err(Fault::Line),
        };
        match step {
            Ok(Step::On(next)) => job = Some(next),
            Ok(Step::Built(build)) => return Ok((build, row)),
            Err(fault) => return Err(Wrong::Line(fault, row + 1)),
        }
    }
    Err(Wrong::Unbuilt)
}
