// relocate IMAGE RANGES OUTPUT GPA SIZE CR3 CR4 OFFSET: moves the page tables of one file into another, and reports.
#![tactic(auto)]

ghost use Rattle.std.specs.Prelude.{◌≡◌, ◌*◌, ◌%◌};

use arrayvec::ArrayVec;
use build::CpuPagingState;
use definitions::Region;
use files::{Buffers, RANGE_WORDS};
use std::alloc::AllocError;
use std::rt::{Env, Files};
use text::{parse_hex, parse_signed};

// A record of RANGES is three words.
const RECORD_BYTES: usize = 24;

const RECORDS_BYTES: usize = RANGE_WORDS * 8;

// A longer argument is no number.
const NUMBER_BYTES: usize = 4096;

const NO_NUMBER: &str = "not a number in hexadecimal with 0x, of at most 64 bits";

const NO_OFFSET: &str =
    "not a number in hexadecimal with 0x, of at most 64 bits, or one after '-' of at most 2^63";

// The numbers of the command line.
#[derive(Clone, Copy)]
struct Asked {
    gpa: u64,
    size: u64,
    cpu: CpuPagingState,
    offset: u64,
}

// Argument `at` as a number that `parse` reads; where it is none, that is said on standard error.
fn number<F: Fn(&[u8]) -> Option<u64>>(
    rt: &(impl Env + Eprint),
    at: usize,
    what: &str,
    parse: F,
    why: &str,
) -> Option<u64>
    requires { F.IsAlwaysCallable parse }
{
    let mut room = [0u8; NUMBER_BYTES];
    let n = rt.arg(at, &mut room).unwrap_or(0);
    let text = &room[..n];
    let read = if text::marked(text) {
        parse(text)
    } else {
        None
    };
    if read.is_none() {
        files::complain(rt, what, why);
    }
    read
}

fn numbers(rt: &(impl Env + Eprint)) -> Option<Asked> {
    let gpa = number(rt, 4, "relocate: GPA", parse_hex, NO_NUMBER)?;
    let size = number(rt, 5, "relocate: SIZE", parse_hex, NO_NUMBER)?;
    let cr3 = number(rt, 6, "relocate: CR3", parse_hex, NO_NUMBER)?;
    let cr4 = number(rt, 7, "relocate: CR4", parse_hex, NO_NUMBER)?;
    let offset = number(rt, 8, "relocate: OFFSET", parse_signed, NO_OFFSET)?;
    Some(Asked {
        gpa,
        size,
        cpu: CpuPagingState { cr3, cr4 },
        offset,
    })
}

// How many words a build is lent for so many bytes: three divides them just where the records are whole.
fn words_of(n: usize) -> usize
    ensures { (n % 24 ≡ 0 → 8 * result ≡ n) × (result % 3 ≡ 0 → n % 24 ≡ 0) }
{
    let whole = n / RECORD_BYTES * 3;
    if n % RECORD_BYTES == 0 {
        whole
    } else {
        whole + 1
    }
}

// Reads the ranges of the second argument; a part of a record is words of zeros past its end.
fn load_ranges(
    rt: &(impl Env + Files + Eprint),
    ranges: &mut ArrayVec<u64, RANGE_WORDS>,
) -> Option<()> {
    let mut room = [0u8; RECORDS_BYTES];
    let n = files::read(rt, 2, "relocate: RANGES", &mut room)?;
    let records = files::front(&room, n);
    for k in 0..words_of(n) {
        let _ = ranges.try_push(tables::word_at(records, k));
    }
    Some(())
}

// Does what the command line asks; none where that can't be read, which is said then.
fn relocate(rt: &(impl Env + Files + Print + Eprint), lent: &mut Buffers) -> Option<()> {
    let asked = numbers(rt)?;
    let used = files::read(rt, 1, "relocate: IMAGE", &mut lent.image)?;
    load_ranges(rt, &mut lent.ranges)?;
    let image = files::front(&lent.image, used);
    let region = Region {
        gpa: asked.gpa,
        size: asked.size,
        used: image.len() as u64,
    };
    let built = build::build(
        image,
        &mut lent.output,
        &mut lent.scratch,
        lent.ranges.as_slice(),
        region,
        asked.cpu,
        asked.offset,
    );
    reports::finish(rt, 3, "relocate: OUTPUT", &lent.output, built);
    Some(())
}

fn main(rt: HostRuntime) -> Result<(), AllocError> {
    if files::arg_count(&rt) != 9 {
        files::complain(
            &rt,
            "usage",
            "relocate IMAGE RANGES OUTPUT GPA SIZE CR3 CR4 OFFSET",
        );
        return Ok(());
    }
    let mut lent = Buffers::new(rt.alloc())?;
    let _ = relocate(&rt, &mut lent);
    Ok(())
}
