// compare OLDER NEWER: how many entries of two images differ, and a line for each. Both files are read twice, a page at a time:
// once to count, once to list.
#![tactic(auto)]

mod page;

ghost use Rattle.std.specs.Prelude.{◌+◌, ◌^◌, ◌<◌, ◌≤◌, IfSome};
ghost use Rattle.compare_files.specs.Meaning.{HoldsPage};

use definitions::refusals::Error;
use page::{Lines, PAGE, Pages, TEXT, WORDS};
use std::io;
use std::io::Read;
use std::rt::{Env, Files};

// A reading stops after so many pages: one more than an image may have.
const PAGES: u64 = 513;

// Room for the line with the count.
const COUNT: usize = 33;

// Two sums over words: of the words, and of what the first sum was after each, so that their order counts too.
#[derive(Clone, Copy, PartialEq, Eq, Default)]
struct Sums {
    plain: u64,
    running: u64,
}

// What a reading found: the bytes of each file, how many entries differ, and the sums over both.
#[derive(Clone, Copy, PartialEq, Eq, Default)]
struct Reading {
    older: u64,
    newer: u64,
    count: u64,
    sums: Sums,
}

// Reads a page of each file: how many bytes they are. What goes wrong is said on standard error, here and below.
fn read_pair(
    rt: &impl Eprint,
    older_file: &mut impl Read,
    newer_file: &mut impl Read,
    pages: &mut Pages,
) -> Option<(usize, usize)>
    ensures { IfSome result (λ p. (p.0 ≤ 4096) × (p.1 ≤ 4096)) }
{
    let m = files::fill(rt, older_file, "compare: OLDER", &mut pages.older)?;
    let n = files::fill(rt, newer_file, "compare: NEWER", &mut pages.newer)?;
    Some((m, n))
}

// The sums with a page's words added.
fn add_words(mut sums: Sums, page: &[u8; PAGE]) -> Sums {
    for word in page.as_chunks::<8>().0 {
        sums.plain = sums.plain.wrapping_add(u64::from_le_bytes(*word));
        sums.running = sums.running.wrapping_add(sums.plain);
    }
    sums
}

// Writes to standard output.
fn put(rt: &(impl Print + Eprint), bytes: &[u8]) -> Option<()> {
    match rt.write_all(bytes) {
        Ok(()) => Some(()),
        Err(error) => {
            files::fail(rt, "compare: the differences", error);
            None
        }
    }
}

// Two pages more: their differences are counted, and printed where they are to be listed.
fn hold(
    rt: &(impl Print + Eprint),
    reading: Reading,
    is_listing: bool,
    pages: &Pages,
    table: u64,
    lines: &mut Lines,
) -> Option<Reading>
    requires { reading.count + 512 < 2 ^ 64 }
    ensures { HoldsPage reading pages.now.older pages.now.newer result }
{
    let page = page::differences(is_listing, pages, table, lines);
    put(rt, files::front(&lines.text, page.length))?;
    Some(Reading {
        count: reading.count + page.count as u64,
        sums: add_words(add_words(reading.sums, &pages.older), &pages.newer),
        ..reading
    })
}

// Ends at the first page that is not whole in both files: how long both are is known then, or that they can't be compared.
fn read_pages(
    rt: &(impl Print + Eprint),
    older_file: &mut impl Read,
    newer_file: &mut impl Read,
    is_listing: bool,
) -> Option<Reading> {
    let mut pages = Pages {
        older: [0; PAGE],
        newer: [0; PAGE],
    };
    let mut lines = Lines {
        list: [0; WORDS],
        text: [0; TEXT],
    };
    let mut reading = Reading::default();
    for table in 0..PAGES {
        let (m, n) = read_pair(rt, older_file, newer_file, &mut pages)?;
        reading.older += m as u64;
        reading.newer += n as u64;
        if m < PAGE || n < PAGE {
            break;
        }
        reading = hold(rt, reading, is_listing, &pages, table, &mut lines)?;
    }
    Some(reading)
}

fn read_files(rt: &(impl Env + Files + Print + Eprint), is_listing: bool) -> Option<Reading> {
    let mut older_file = files::open(rt, 1, "compare: OLDER")?;
    let mut newer_file = files::open(rt, 2, "compare: NEWER")?;
    read_pages(rt, &mut older_file, &mut newer_file, is_listing)
}

fn print_count(rt: &(impl Print + Eprint), count: u64) -> Option<()> {
    let mut out = [0u8; COUNT];
    let n = page::put_count(&mut out, count);
    put(rt, files::front(&out, n))
}

fn main(rt: HostRuntime) -> io::Result<()> {
    if files::arg_count(&rt) != 3 {
        files::complain(&rt, "usage", "compare OLDER NEWER");
        return Ok(());
    }
    let Some(first) = read_files(&rt, false) else {
        return Ok(());
    };
    if !compare::lengths_valid(first.older, first.newer) {
        let error = Error::NotComparable;
        return eprintln!(&rt; "compare: {} {error}", error.number());
    }
    if print_count(&rt, first.count).is_none() {
        return Ok(());
    }
    if let Some(second) = read_files(&rt, true) {
        if first != second {
            files::complain(&rt, "compare", "a file changed while it was read");
        }
    }
    Ok(())
}
