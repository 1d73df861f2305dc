// What libarchwend.a exports: C's calling convention, a slice being a pointer and a length. Each function calls archwend's of
// the same name, which says what it does, and promises the same.
#![tactic(auto)]

ghost use Rattle.std.specs.Prelude.{length};
ghost use Rattle.definitions.specs.Build.{job_of};
ghost use Rattle.archwend.specs.Exports.{region_at, Answers, LoadsPage, ComparesImages, NamesInterface};

mod entries;

#[unsafe(no_mangle)]
pub extern "C" fn archwend_build(
    image: &[u8],
    output: &mut [u8],
    scratch: &mut [u64],
    ranges: &[u64],
    gpa: u64,
    size: u64,
    used: u64,
    cr3: u64,
    cr4: u64,
    table_offset: u64,
    report: &mut [u64; 8],
)
    ensures { Answers
        (job_of (region_at gpa size used) cr3 cr4 table_offset ranges.now image.now
        (length output.old) (length scratch.old))
        report.new output.new scratch.new }
{
    archwend::archwend_build(
        image,
        output,
        scratch,
        ranges,
        gpa,
        size,
        used,
        cr3,
        cr4,
        table_offset,
        report,
    );
}

#[unsafe(no_mangle)]
pub extern "C" fn archwend_set_page_data(
    image: &mut [u8],
    gpa: u64,
    size: u64,
    used: u64,
    page_gpa: u64,
    data: &[u8],
    cr4: u64,
) -> u64
    ensures { LoadsPage cr4 (region_at gpa size used) image.old page_gpa «data».now result image.new }
{
    archwend::archwend_set_page_data(image, gpa, size, used, page_gpa, data, cr4)
}

#[unsafe(no_mangle)]
pub extern "C" fn archwend_compare(
    older: &[u8],
    newer: &[u8],
    list: &mut [u64],
    answer: &mut [u64; 4],
)
    ensures { ComparesImages older.now newer.now (length list.old) answer.new list.new }
{
    archwend::archwend_compare(older, newer, list, answer);
}

#[unsafe(no_mangle)]
pub extern "C" fn archwend_interface_2() -> u64
    ensures { NamesInterface result }
{
    archwend::archwend_interface_2()
}
