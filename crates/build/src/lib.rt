// The build: the checks, both passes, and what is counted.
#![tactic(auto)]

ghost use Rattle.std.specs.Prelude.{◌≡◌, ℕ, ◌+◌, ◌*◌, ◌^◌, ◌<◌, length};
ghost use Rattle.definitions.specs.Inputs as I;
ghost use Rattle.definitions.specs.Words.{words_of};
ghost use Rattle.definitions.specs.Build.{geometry_of, job_of};
ghost use Rattle.build.specs.Meaning.{counted, Starts, Ready, Passes, Builds};

use definitions::refusals::Error;
use definitions::{Counts, Refusal, Region};
use pass1::{Plan, Walk};
use pass2::{Fill, Site};

// The registers that a build looks at.
#[derive(Clone, Copy)]
pub struct CpuPagingState {
    pub cr3: u64,
    pub cr4: u64,
}

// The checks before pass 1, in order: the root's table, or the first refusal that applies.
fn check_inputs(
    image: &[u8],
    output_length: usize,
    ranges: &[u64],
    plan: Plan,
    cpu: CpuPagingState,
) -> Result<usize, Refusal>
    requires { plan.geometry ≡ geometry_of cpu.cr4 }
    ensures { (n : ℕ)
        → Starts (job_of plan.old cpu.cr3 cpu.cr4 plan.offset ranges.now image.now output_length n) result }
{
    let geometry = plan.geometry;
    let r = plan.old;
    if !region::valid(geometry, r) {
        return Err(Error::Region.into());
    }
    if image.len() as u64 != r.used {
        return Err(Error::Lengths.into());
    }
    if (output_length as u64) < r.size {
        return Err(Error::Lengths.into());
    }
    let Some(root) = region::calculate_page_table_index(r, cpu.cr3) else {
        return Err(Error::Cr3.into());
    };
    if !region::offset_valid(geometry, r, plan.offset) {
        return Err(Error::TableOffset.into());
    }
    if !ranges::list_valid(ranges, geometry, r) {
        return Err(Error::Ranges.into());
    }
    if r.used / 4096 <= root as u64 {
        return Err(Refusal::at(Error::FreeTail, 0, geometry.top + 1));
    }
    Ok(root)
}

// What both passes counted.
fn count(walked: Walk, fill: Fill) -> Counts
    requires { (4096 * fill.next < 2 ^ 64) × (walked.store.front + walked.store.back < 2 ^ 64) }
    ensures { result ≡ counted walked fill }
{
    let store = walked.store;
    Counts {
        used: 4096 * fill.next,
        moved: (store.front + store.back) as u64,
        merged: fill.merged,
        reached: walked.reached.count(),
    }
}

// Both passes, over the output that holds the image and then zeros.
fn passes(
    out: &mut [u8],
    scratch: &mut [u64],
    ranges: &[u64],
    plan: Plan,
    root: usize,
) -> Result<Counts, Refusal>
    requires { (j : I.Job) × Ready j out.old scratch.old ranges.now plan root }
    ensures { (j : I.Job)
        → Ready j out.old scratch.old ranges.now plan root
        → Passes j (words_of out.new) result }
{
    let walked = pass1::first_pass(out, scratch, ranges, plan, root)?;
    let site = Site {
        geometry: plan.geometry,
        region: plan.new,
        root,
    };
    let fill = pass2::second_pass(out, scratch, site, walked.store)?;
    Ok(count(walked, fill))
}

// The checks and the passes: on an error what the passes left.
fn relocate(
    image: &[u8],
    out: &mut [u8],
    scratch: &mut [u64],
    ranges: &[u64],
    r: Region,
    cpu: CpuPagingState,
    table_offset: u64,
) -> Result<Counts, Refusal>
    ensures { Passes
        (job_of r cpu.cr3 cpu.cr4 table_offset ranges.now image.now
        (length out.old) (length scratch.old))
        (words_of out.new) result }
{
    let plan = Plan {
        geometry: levels::geometry_of(cpu.cr4),
        old: r,
        new: region::moved_by(r, table_offset),
        offset: table_offset,
    };
    let root = check_inputs(image, out.len(), ranges, plan, cpu)?;
    words::copy(out, 0, image);
    words::fill_from(out, image.len(), 0);
    passes(out, scratch, ranges, plan, root)
}

// Builds the relocated tables of the image into the output. A refused build leaves it zeroed, and the scratch is zeroed always. Each
// caller has the buffers, the region, the registers and the offset apart: a struct of the last three would be no plainer.
pub fn build(
    image: &[u8],
    out: &mut [u8],
    scratch: &mut [u64],
    ranges: &[u64],
    r: Region,
    cpu: CpuPagingState,
    table_offset: u64,
) -> Result<Counts, Refusal>
    ensures { Builds
        (job_of r cpu.cr3 cpu.cr4 table_offset ranges.now image.now
        (length out.old) (length scratch.old))
        result out.new scratch.new }
{
    let built = relocate(image, out, scratch, ranges, r, cpu, table_offset);
    words::fill_from(scratch, 0, 0);
    let Err(refusal) = built else {
        return built;
    };
    words::fill_from(out, 0, 0);
    Err(refusal)
}
