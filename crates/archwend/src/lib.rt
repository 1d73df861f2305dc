// The functions that a loader links; crates/archwend_c exports them to C. Flat parameters, answers in arrays and refusals as numbers:
// the C interface needs them.
#![tactic(auto)]

ghost use Rattle.std.specs.Prelude.{◌≡◌, length};
ghost use Rattle.definitions.specs.Refusals.{number_in};
ghost use Rattle.definitions.specs.Build.{job_of};
ghost use Rattle.archwend.specs.Exports.{region_at, Answers, LoadsPage, ComparesImages, NamesInterface};

use build::CpuPagingState;
use definitions::refusals::Error;
use definitions::{Refusal, Region};

pub mod entries;

// The version of what is exported; the name of `archwend_interface_2` carries it.
const INTERFACE: u64 = 2;

// The number of an answer; 0 is no refusal's.
fn number<T: Copy>(answer: Result<T, Error>) -> u64
    ensures { result ≡ number_in answer }
{
    match answer {
        Ok(_) => 0,
        Err(refused) => refused.number(),
    }
}

// Builds the relocated tables of the image into the output; report: number, used, moved, merged, reached, and the place's
// address, level and offset.
pub fn archwend_build(
    image: &[u8],
    output: &mut [u8],
    scratch: &mut [u64],
    ranges: &[u64],
    gpa: u64,
    size: u64,
    used: u64,
    cr3: u64,
    cr4: u64,
    table_offset: u64,
    report: &mut [u64; 8],
)
    ensures { Answers
        (job_of (region_at gpa size used) cr3 cr4 table_offset ranges.now image.now
        (length output.old) (length scratch.old))
        report.new output.new scratch.new }
{
    let r = Region { gpa, size, used };
    let cpu = CpuPagingState { cr3, cr4 };
    *report = match build::build(image, output, scratch, ranges, r, cpu, table_offset) {
        Ok(counts) => [
            0,
            counts.used,
            counts.moved,
            counts.merged,
            counts.reached,
            0,
            0,
            0,
        ],
        Err(Refusal { error, place }) => [
            error.number(),
            0,
            0,
            0,
            0,
            place.address,
            place.level,
            place.offset,
        ],
    };
}

// Loads one page into the image: 0, or the number of the refusal.
pub fn archwend_set_page_data(
    image: &mut [u8],
    gpa: u64,
    size: u64,
    used: u64,
    page_gpa: u64,
    data: &[u8],
    cr4: u64,
) -> u64
    ensures { LoadsPage cr4 (region_at gpa size used) image.old page_gpa «data».now result image.new }
{
    let r = Region { gpa, size, used };
    let geometry = levels::geometry_of(cr4);
    number(region::set_page_data(image, geometry, r, page_gpa, data))
}

// Holds two images against each other; list: four words for each entry that differs, table, entry, older value, newer value;
// answer: number, count, and the first byte and the length of the first page that differs.
pub fn archwend_compare(older: &[u8], newer: &[u8], list: &mut [u64], answer: &mut [u64; 4])
    ensures { ComparesImages older.now newer.now (length list.old) answer.new list.new }
{
    *answer = match compare::compare(older, newer, list) {
        Ok(found) => [
            0,
            found.count as u64,
            found.start as u64,
            found.part.len() as u64,
        ],
        Err(error) => [error.number(), 0, 0, 0],
    };
}

// What was built for another version asks for another name, and so does not link.
pub fn archwend_interface_2() -> u64
    ensures { NamesInterface result }
{
    INTERFACE
}
