// run JOB IMAGE OUTPUT: does a job that is a text. The image, with the pages loaded, goes to IMAGE, and the tables to OUTPUT.
#![tactic(auto)]

mod job;
mod line;
mod load;

use definitions::Region;
use definitions::paging::Geometry;
use files::Buffers;
use job::Build;
use load::{Load, PAGE_BYTES};
use reports::RefusedLoad;
use std::alloc::AllocError;
use std::rt::{Env, Files};

const TEXT_MAX: usize = 262144;

// One byte more shows a text that is too long.
const TEXT_BYTES: usize = TEXT_MAX + 1;

// Does the load that a line asks for, if it asks for one; a refusal is printed. Where that can't be written the job goes on.
fn load_line(
    out: &impl Print,
    line: &[u8],
    page: &mut [u8; PAGE_BYTES],
    image: &mut [u8],
    geometry: Geometry,
    region: Region,
) {
    let (word, rest) = line::split_word(line);
    if word != b"load".as_slice() {
        return;
    }
    let Ok(Load { gpa, length }) = load::read(rest, page) else {
        return;
    };
    let page = files::front(page, length);
    if let Err(error) = region::set_page_data(image, geometry, region, gpa, page) {
        let _ = out.print(RefusedLoad { gpa, error });
    }
}

// The job itself: its loads, which stand in so many lines of the text, then its build. Image and scratch are as long as the job
// says, so far as that can change the answer.
fn execute(
    rt: &(impl Env + Files + Print + Eprint),
    text: &[u8],
    lines: usize,
    build: Build,
    lent: &mut Buffers,
) {
    let job = build.job;
    let geometry = levels::geometry_of(build.cpu.cr4);
    let length = (job.image as usize).min(lent.image.len());
    let image = &mut lent.image[..length];
    let mut page = [0u8; PAGE_BYTES];
    for line in text.split(|byte| *byte == b'\n').take(lines) {
        load_line(rt, line, &mut page, image, geometry, job.region);
    }
    if !files::save(rt, 2, "run: IMAGE", image) {
        return;
    }
    let room = job.scratch.min(lent.scratch.len());
    let built = build::build(
        image,
        &mut lent.output,
        &mut lent.scratch[..room],
        lent.ranges.as_slice(),
        job.region,
        build.cpu,
        build.offset,
    );
    reports::finish(rt, 3, "run: OUTPUT", &lent.output, built);
}

fn main(rt: HostRuntime) -> Result<(), AllocError> {
    if files::arg_count(&rt) != 4 {
        files::complain(&rt, "usage", "run JOB IMAGE OUTPUT");
        return Ok(());
    }
    let mut text = vec![in rt.alloc(); 0u8; TEXT_BYTES]?;
    let Some(n) = files::read(&rt, 1, "run: JOB", &mut text) else {
        return Ok(());
    };
    if n > TEXT_MAX {
        files::complain(&rt, "run: JOB", "longer than 262144 bytes");
        return Ok(());
    }
    let text = files::front(&text, n);
    let mut lent = Buffers::new(rt.alloc())?;
    match job::read(text, &mut lent.ranges) {
        Err(wrong) => {
            let _ = eprintln!(&rt; "run: JOB: {wrong}");
        }
        Ok((build, lines)) => execute(&rt, text, lines, build, &mut lent),
    }
    Ok(())
}
