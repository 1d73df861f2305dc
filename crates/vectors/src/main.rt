// Replays the Rust's recorded answers (data/vectors, made as data/README says) through the proved operations, all but the build
// as the library exports them. A line is up to four words in hexadecimal: what it is, and its numbers.
#![tactic(auto)]

use archwend::entries;
use arrayvec::ArrayVec;
use build::CpuPagingState;
use definitions::{Place, Refusal, Region};
use std::io::Read;
use std::{fs, io};

const IMAGE: usize = 0x8000;

const OUTPUT: usize = 0x20000;

const SCRATCH: usize = 3000;

const RANGE_WORDS: usize = 63;

// What a line is; data/README has the words after the first.
#[derive(Clone, Copy)]
enum Line {
    Region,
    Image,
    Range,
    Cpu,
    Build,
    Output,
    Blank,
    Load,
    Fresh,
    Set,
    Index,
    Read,
    Mask,
    Place,
    Bits,
    Clear,
    Size,
    Table,
}

// By its first word.
impl TryFrom<u64> for Line {
    type Error = u64;

    fn try_from(word: u64) -> Result<Line, u64> {
        match word {
            0x1 => Ok(Line::Region),
            0x2 => Ok(Line::Image),
            0x3 => Ok(Line::Range),
            0x4 => Ok(Line::Cpu),
            0x5 => Ok(Line::Build),
            0x6 => Ok(Line::Output),
            0x7 => Ok(Line::Blank),
            0x8 => Ok(Line::Load),
            0x9 => Ok(Line::Fresh),
            0xa => Ok(Line::Set),
            0xb => Ok(Line::Index),
            0xc => Ok(Line::Read),
            0xd => Ok(Line::Mask),
            0xe => Ok(Line::Place),
            0xf => Ok(Line::Bits),
            0x10 => Ok(Line::Clear),
            0x11 => Ok(Line::Size),
            0x12 => Ok(Line::Table),
            _ => Err(word),
        }
    }
}

// What is lent to the operations, what earlier lines have set, and the answers so far. The buffers are main's: as parts of this they
// would take their room on the stack again with each move.
#[derive(Drop)]
struct Replay<'a> {
    image: &'a mut [u8; IMAGE],
    output: &'a mut [u8; OUTPUT],
    scratch: &'a mut [u64; SCRATCH],
    ranges: ArrayVec<u64, RANGE_WORDS>,
    region: Region,
    cpu: CpuPagingState,
    table_offset: u64,
    // that of the last build
    place: Place,
    answers: u64,
    different: u64,
}

impl<'a> Replay<'a> {
    fn new(
        image: &'a mut [u8; IMAGE],
        output: &'a mut [u8; OUTPUT],
        scratch: &'a mut [u64; SCRATCH],
    ) -> Replay<'a> {
        Replay {
            image,
            output,
            scratch,
            ranges: ArrayVec::new(),
            region: Region {
                gpa: 0,
                size: 0,
                used: 0,
            },
            cpu: CpuPagingState { cr3: 0, cr4: 0 },
            table_offset: 0,
            place: Place::none(),
            answers: 0,
            different: 0,
        }
    }

    // Counts one answer more, and whether it differs.
    fn count(&mut self, same: bool) {
        self.answers = self.answers.wrapping_add(1);
        self.different = self.different.wrapping_add(u64::from(!same));
    }

    // A region, with an image all zeros and no ranges.
    fn region_line(&mut self, region: Region) {
        words::fill_from(self.image, 0, 0);
        self.region = region;
        self.ranges.clear();
    }

    // A range; past the room, nothing.
    fn range_line(&mut self, range: [u64; 3]) {
        let _ = self.ranges.try_extend_from_slice(&range);
    }

    // A load of some bytes at an address, which is to answer a number with four levels and with five: the Rust's loads know no
    // cr4, and the recorded regions lie below both bounds.
    fn load_line(&mut self, page_gpa: u64, length: usize, number: u64) {
        let page = [0x5au8; 8192];
        let Region { gpa, size, used } = self.region;
        let image = self.image.get_mut(..used as usize);
        let mut same = false;
        if let (Some(image), Some(data)) = (image, page.get(..length)) {
            let four = archwend::archwend_set_page_data(image, gpa, size, used, page_gpa, data, 0);
            let five = archwend::archwend_set_page_data(
                image, gpa, size, used, page_gpa, data, 0x1000,
            );
            same = four == number && five == number;
        }
        self.count(same);
    }

    // The build, which is to answer a number, with so many bytes of tables and leaves merged.
    fn build_line(&mut self, number: u64, used: u64, merged: u64) {
        let output = &mut *self.output;
        let scratch = &mut *self.scratch;
        let Some(image) = self.image.get(..self.region.used as usize) else {
            return self.count(false);
        };
        let built = build::build(
            image,
            output,
            scratch,
            self.ranges.as_slice(),
            self.region,
            self.cpu,
            self.table_offset,
        );
        let (answer, place) = match built {
            Ok(counts) => ((0, counts.used, counts.merged), Place::none()),
            Err(Refusal { error, place }) => ((error.number(), 0, 0), place),
        };
        self.count(answer.0 == number);
        self.count(answer.1 == used);
        self.count(answer.2 == merged);
        self.place = place;
    }

    // The place of a 12: address, mapped size, offset.
    fn place_line(&mut self, address: u64, size: u64, offset: u64) {
        let place = self.place;
        self.count(place.address == address);
        self.count(answer(0, |x| entries::archwend_mapping_size(place.level, x)) == (0, size));
        self.count(place.offset == offset);
    }

    // An entry of the output. Each word found is taken out, so that nothing may be left at the end.
    fn output_line(&mut self, k: usize, word: u64) {
        let same = tables::word_at(self.output, k) == word;
        self.count(same);
        tables::put(self.output, k, 0);
    }

    // Whether an operation of one answer gives what its line says.
    fn same(&self, operation: Line, a: u64, b: u64, c: u64) -> bool {
        let Region { gpa, size, used } = self.region;
        match operation {
            Line::Fresh => answer(0, |x| entries::archwend_set_entry(x, a, b)) == (0, c),
            Line::Set => answer(a, |x| entries::archwend_set_addr(x, b)) == (0, c),
            Line::Index => answer(0, |x| entries::archwend_get_amd64_pte_index(a, b, x)) == (0, c),
            Line::Read => answer(0, |x| entries::archwend_gpa(a, x)) == (b, c),
            Line::Clear => cleared(a) == b,
            Line::Size => answer(0, |x| entries::archwend_mapping_size(a, x)) == (0, b),
            Line::Table => {
                let table = |x: &mut u64| entries::archwend_calculate_page_table_index(
                    gpa, size, used, a, x,
                );
                answer(0, table) == (b, c)
            }
            Line::Mask => mask_bit(a, b) == c,
            _ => false,
        }
    }

    fn line(&mut self, [kind, a, b, c]: [u64; 4]) {
        match Line::try_from(kind) {
            Ok(Line::Region) => self.region_line(Region {
                gpa: a,
                size: b,
                used: c,
            }),
            Ok(Line::Image) => tables::put(self.image, a as usize, b),
            Ok(Line::Range) => self.range_line([a, b, c]),
            Ok(Line::Cpu) => {
                self.cpu = CpuPagingState { cr3: a, cr4: b };
                self.table_offset = c;
            }
            Ok(Line::Build) => self.build_line(a, b, c),
            Ok(Line::Output) => self.output_line(a as usize, b),
            Ok(Line::Blank) => {
                let same = tables::blank(self.output);
                self.count(same);
            }
            Ok(Line::Load) => self.load_line(a, b as usize, c),
            Ok(Line::Place) => self.place_line(a, b, c),
            Ok(Line::Bits) => {
                self.count(entries::archwend_is_present(a) == b);
                self.count(entries::archwend_is_large_page(a) == c);
            }
            Ok(operation) => {
                let same = self.same(operation, a, b, c);
                self.count(same);
            }
            Err(_) => self.count(false),
        }
    }
}

// What an operation returns, and what it makes of a word.
fn answer<F: FnOnce(&mut u64) -> u64>(mut word: u64, operation: F) -> (u64, u64)
    requires { F.IsAlwaysCallable operation }
{
    let number = operation(&mut word);
    (number, word)
}

fn cleared(mut entry: u64) -> u64 {
    entries::archwend_clear(&mut entry);
    entry
}

// The single bit of a mask at a place, 0 past its last.
fn mask_bit(mask: u64, place: u64) -> u64 {
    let mut bits = [0u32; 32];
    entries::archwend_extract_individual_masks((mask % 0x1_0000_0000) as u32, &mut bits);
    u64::from(bits[(place % 32) as usize])
}

// A line as far as it is read: its words, and the place of the one that is read.
#[derive(Clone, Copy)]
struct Words {
    words: [u64; 4],
    at: usize,
}

impl Words {
    fn new() -> Words {
        Words {
            words: [0; 4],
            at: 0,
        }
    }

    // A digit more.
    fn push(&mut self, c: u8) {
        let i = self.at % 4;
        self.words[i] = self.words[i] << 4 | digit(c);
    }
}

// Of any byte: `char::to_digit` would leave those that are no digits without an answer.
fn digit(c: u8) -> u64 {
    let x = u64::from(c);
    if x < 58 { x % 16 } else { (x + 9) % 16 }
}

// Reads the file to its end. No file is longer than these turns.
fn read_all(file: &mut impl Read, replay: &mut Replay) -> io::Result<()> {
    let mut line = Words::new();
    let mut text = [0u8; 4096];
    for _ in 0..u64::MAX {
        let n = file.read(&mut text)?;
        for &c in &text[..n] {
            match c {
                b' ' => line.at = line.at % 4 + 1,
                b'\n' => {
                    replay.line(line.words);
                    line = Words::new();
                }
                _ => line.push(c),
            }
        }
        if n == 0 {
            break;
        }
    }
    Ok(())
}

fn main(rt: HostRuntime) -> io::Result<()> {
    let mut file = match fs::open(&rt, "vectors") {
        Ok(file) => file,
        Err(error) => {
            files::fail(&rt, "vectors", error);
            return Ok(());
        }
    };
    let mut image = [0u8; IMAGE];
    let mut output = [0xa5u8; OUTPUT];
    let mut scratch = [7u64; SCRATCH];
    let mut replay = Replay::new(&mut image, &mut output, &mut scratch);
    read_all(&mut file, &mut replay)?;
    println!(rt; "answers {} different {}", replay.answers, replay.different)
}
