// The text of the differences. Each function puts bytes into a buffer, from a place on, and gives the place after them.
ghost use Rattle.std.specs.Prelude.{◌+◌, ◌*◌, ◌<◌, ◌≤◌, [], ◌∷◌, ◌++◌, length};
ghost use Rattle.compare_files.specs.Text.{field, line_of, lines, in_table, quadruples, count_line};
ghost use Rattle.compare_files.specs.Meaning.{Puts, CountsPage, GivesPage};

pub const PAGE: usize = 4096;

// four words for each entry of a page
pub const WORDS: usize = 2048;

// room for 76 bytes for each entry of a page
pub const TEXT: usize = 65536;

// A page of each image.
#[derive(Drop)]
pub struct Pages {
    pub older: [u8; PAGE],
    pub newer: [u8; PAGE],
}

// The differences of two pages: as words, and as lines.
#[derive(Drop)]
pub struct Lines {
    pub list: [u64; WORDS],
    pub text: [u8; TEXT],
}

// What a page gives: how many of its entries differ, and how many bytes their lines have. (A length and no part of the text, since
// the promise GivesPage says what the whole buffer is afterwards.)
#[derive(Clone, Copy)]
pub struct Page {
    pub count: usize,
    pub length: usize,
}

// A text, and a byte after it.
fn put_text(out: &mut [u8], at: usize, text: &[u8], end: u8) -> usize
    requires { at + length text.now < length out.old }
    ensures { Puts (length text.now + 1) out.old at (text.now ++ end ∷ []) out.new result }
{
    words::copy(out, at, text);
    let last = at + text.len();
    out[last] = end;
    last + 1
}

// A number in decimal, and a byte after it.
fn put_decimal(out: &mut [u8], at: usize, n: u64, end: u8) -> usize
    requires { at + 21 ≤ length out.old }
    ensures { Puts 21 out.old at (field 10 n end) out.new result }
{
    let mut text = [0u8; 20];
    let k = io::decimal(n, &mut text);
    put_text(out, at, &text[..k], end)
}

// A number in hexadecimal, and a byte after it. (Not one with the above: io spells the bases by two functions, of two lengths.)
fn put_hex(out: &mut [u8], at: usize, n: u64, end: u8) -> usize
    requires { at + 17 ≤ length out.old }
    ensures { Puts 17 out.old at (field 16 n end) out.new result }
{
    let mut text = [0u8; 16];
    let k = io::hex(n, 1, &mut text);
    put_text(out, at, &text[..k], end)
}

// The line of an entry that differs.
fn put_line(out: &mut [u8], at: usize, table: u64, index: u64, before: u64, after: u64) -> usize
    requires { at + 76 ≤ length out.old }
    ensures { Puts 76 out.old at (line_of table index before after) out.new result }
{
    let second = put_decimal(out, at, table, b' ');
    let third = put_decimal(out, second, index, b' ');
    let fourth = put_hex(out, third, before, b' ');
    put_hex(out, fourth, after, b'\n')
}

// The lines of a table's differences, as the list has them.
fn put_lines(out: &mut [u8], list: &[u64], count: usize, table: u64) -> usize
    requires listed { 4 * count ≤ length list.now }
    requires room { 76 * count ≤ length out.old }
    ensures { Puts (76 * count) out.old 0 (lines (in_table table (quadruples count list.now))) out.new result }
{
    let mut at: usize = 0;
    for j in 0..count {
        let k = 4 * j;
        at = put_line(out, at, table, list[k + 1], list[k + 2], list[k + 3]);
    }
    at
}

// Holds two pages against each other: how many entries differ. The list has them, four words each, then zeros.
fn count_page(pages: &Pages, list: &mut [u64; WORDS]) -> usize
    ensures { CountsPage pages.now.older pages.now.newer list.new result }
{
    match compare::compare(&pages.older, &pages.newer, list) {
        Ok(differences) => differences.count,
        Err(_) => 0,
    }
}

// The same, and where they are to be listed their lines, as entries of a table. (A flag, since the promise GivesPage speaks of it.)
pub(crate) fn differences(is_listing: bool, pages: &Pages, table: u64, lines: &mut Lines) -> Page
    ensures { GivesPage is_listing pages.now.older pages.now.newer table lines.new.list lines.old.text lines.new.text result }
{
    let count = count_page(pages, &mut lines.list);
    let length = if is_listing {
        put_lines(&mut lines.text, &lines.list, count, table)
    } else {
        0
    };
    Page { count, length }
}

// The line with the count.
pub(crate) fn put_count(out: &mut [u8], n: u64) -> usize
    requires { 33 ≤ length out.old }
    ensures { Puts 33 out.old 0 (count_line n) out.new result }
{
    words::copy(out, 0, b"differences ");
    put_decimal(out, 12, n, b'\n')
}
