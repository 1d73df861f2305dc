// The specification's examples through the build, on bytes. One line each: the offset of the one range, what differs from
// the base, the report, and each entry of the output that differs from the image. After the indices the base under a level-4 root,
// and then leaves with bits below their field.
#![tactic(auto)]

use build::CpuPagingState;
use definitions::{Counts, Refusal, Region};
use std::io;

const GPA: u64 = 0x10_0000;

// The bytes of the base's tables, and of the tables with a level-4 root.
const USED: usize = 0x3000;

const USED_5: usize = 0x4000;

// Those of most regions.
const MOST: usize = 0x8000;

const SIZE: u64 = 0x8000;

// The first words of the base's second and third table, and of the level-4 root.
const TABLE_1: usize = 512;

const TABLE_2: usize = 1024;

const TABLE_3: usize = 1536;

const ROOT_5: u64 = 0x10_3000;

// The word of the base's one leaf.
const MAPPED: usize = TABLE_2 + 1;

// So many entries a guest has at most.
const ENTRIES: usize = 8;

// A guest: how many bytes of tables it has, their entries, each with its word's number (the last one of a word stands), and its
// registers. The tables are made for each build: as a part of the guest they would be on the stack once for each.
#[derive(Clone, Copy)]
struct Guest {
    used: usize,
    entries: [(usize, u64); ENTRIES],
    count: usize,
    cpu: CpuPagingState,
}

impl Guest {
    // The tables of the base, in so many bytes.
    fn base(used: usize, cpu: CpuPagingState) -> Guest {
        let empty = Guest {
            used,
            entries: [(0, 0); ENTRIES],
            count: 0,
            cpu,
        };
        empty
            .with(0, 0x10_1023)
            .with(TABLE_1, 0x10_2023)
            .with(MAPPED, 0x20_00e3)
    }

    // With another entry.
    fn with(mut self, slot: usize, word: u64) -> Guest {
        if self.count < ENTRIES {
            self.entries[self.count] = (slot, word);
            self.count += 1;
        }
        self
    }

    // Puts its tables into room that is zero.
    fn put(&self, room: &mut [u8]) {
        for &(slot, word) in self.entries.iter().take(self.count) {
            tables::put(room, slot, word);
        }
    }

    // Prints what the build with one range makes of it. The buffers are lent full of other bytes.
    fn build(&self, rt: &impl Print, label: &str, range: [u64; 3], size: u64) -> io::Result<()> {
        let mut room = [0u8; MOST];
        self.put(&mut room);
        let image = room.get(..self.used).unwrap_or(&room);
        let mut out = [0xa5u8; MOST];
        let mut scratch = [7u64; 4];
        let region = Region {
            gpa: GPA,
            size,
            used: self.used as u64,
        };
        let built = build::build(image, &mut out, &mut scratch, &range, region, self.cpu, 0);
        print!(rt; "{label}")?;
        match built {
            Ok(counts) => {
                accepted(rt, counts)?;
                changes(rt, image, &out)?;
            }
            Err(refusal) => {
                refused(rt, refusal)?;
                if !tables::blank(&out) {
                    print!(rt; " output not zero")?;
                }
            }
        }
        if !scratch.iter().all(|&word| word == 0) {
            print!(rt; " scratch not zero")?;
        }
        println!(rt; "")
    }

    // With an offset of the range over the base's leaf.
    fn moved(&self, rt: &impl Print, label: &str, offset: u64) -> io::Result<()> {
        self.build(rt, label, [0x20_0000, 0x3f_ffff, offset], SIZE)
    }
}

fn accepted(rt: &impl Print, counts: Counts) -> io::Result<()> {
    print!(rt;
        " number 0 used {:x} moved {:x} merged {:x} reached {:x} at 0 level 0 offset 0",
        counts.used, counts.moved, counts.merged, counts.reached
    )
}

fn refused(rt: &impl Print, refusal: Refusal) -> io::Result<()> {
    let Refusal { error, place } = refusal;
    print!(rt;
        " number {} used 0 moved 0 merged 0 reached 0 at {:x} level {:x} offset {:x}",
        error.number(),
        place.address,
        place.level,
        place.offset
    )
}

// The entries that the build changed, as table.entry value.
fn changes(rt: &impl Print, image: &[u8], out: &[u8]) -> io::Result<()> {
    for k in 0..MOST / 8 {
        let new = tables::word_at(out, k);
        if tables::word_at(image, k) != new {
            print!(rt; " | {:x}.{} {new:x}", k / 512, k % 512)?;
        }
    }
    Ok(())
}

// The base.
fn four() -> Guest {
    Guest::base(USED, CpuPagingState { cr3: GPA, cr4: 0 })
}

// The base under a level-4 root.
fn five(used: usize, cr3: u64) -> Guest {
    let base = Guest::base(used, CpuPagingState { cr3, cr4: 0x1000 });
    base.with(TABLE_3, 0x10_0023)
}

fn four_levels(rt: &impl Print) -> io::Result<()> {
    let base = four();
    base.moved(rt, "offset 1ff000:", 0x1f_f000)?;
    base.moved(rt, "offset 200000:", 0x20_0000)?;
    base.moved(rt, "offset 201000:", 0x20_1000)?;
    base.moved(rt, "offset 40000000:", 0x4000_0000)?;
    let far = [0x20_0000, 0x3f_ffff, 0x4000_0000];
    base.build(rt, "offset 40000000, size 3000:", far, 0x3000)?;
    base.moved(rt, "offset -200000:", 0xffff_ffff_ffe0_0000)?;
    base.moved(rt, "offset -400000:", 0xffff_ffff_ffc0_0000)?;
    base.with(TABLE_2 + 2, 0x40_00e3)
        .moved(rt, "offset 200000, 2.2 = 4000e3:", 0x20_0000)?;
    base.with(TABLE_2 + 2, 0x40_00e1)
        .moved(rt, "offset 200000, 2.2 = 4000e1:", 0x20_0000)?;
    base.with(511, 0x10_0023)
        .moved(rt, "offset 200000, 0.511 = 100023:", 0x20_0000)?;
    base.with(TABLE_2, 0x10_3023)
        .moved(rt, "offset 200000, 2.0 = 103023:", 0x20_0000)?;
    base.with(TABLE_2, 0x10_8023)
        .moved(rt, "offset 200000, 2.0 = 108023:", 0x20_0000)?;
    base.moved(rt, "offset ffffffc00000:", 0xffff_ffc0_0000)?;
    base.moved(rt, "offset ffffffe00000:", 0xffff_ffe0_0000)
}

fn indices(rt: &impl Print) -> io::Result<()> {
    let [i0, i1, i2, i3, i4] = levels::indices(0x60_3000);
    println!(rt; "address 603000: indices {i4:x} {i3:x} {i2:x} {i1:x} {i0:x}")
}

fn five_levels(rt: &impl Print) -> io::Result<()> {
    let base = five(USED_5, ROOT_5);
    base.moved(rt, "five levels, offset 200000:", 0x20_0000)?;
    base.moved(rt, "five levels, offset 1000000000000:", 0x1_0000_0000_0000)?;
    let far = [0x20_0000, 0x3f_ffff, 0x1_0000_0000_0000];
    base.build(
        rt,
        "five levels, offset 1000000000000, size 4000:",
        far,
        0x4000,
    )?;
    let in_tail = five(USED_5, 0x10_4000);
    in_tail.moved(rt, "five levels, offset 200000, cr3 104000:", 0x20_0000)?;
    base.moved(rt, "five levels, offset fffffffc00000:", 0xf_ffff_ffc0_0000)?;
    base.moved(rt, "five levels, offset fffffffe00000:", 0xf_ffff_ffe0_0000)?;
    let bit_seven = base.with(TABLE_3, 0x10_00a3).with(0, 0x10_10a3);
    bit_seven.moved(
        rt,
        "five levels, offset 200000, 3.0 = 1000a3, 0.0 = 1010a3:",
        0x20_0000,
    )?;
    let outside = base.with(TABLE_3 + 1, 0x20_0023);
    outside.moved(
        rt,
        "five levels, offset 1000000000000, 3.1 = 200023:",
        0x1_0000_0000_0000,
    )?;
    let tail = base.with(TABLE_3 + 511, 0x10_7023);
    tail.moved(rt, "five levels, offset 200000, 3.511 = 107023:", 0x20_0000)?;
    far_leaf(rt)
}

fn far_leaf(rt: &impl Print) -> io::Result<()> {
    let base = five(0x6000, ROOT_5);
    let far = base
        .with(TABLE_3 + 16, 0x10_4023)
        .with(TABLE_3 + 512, 0x10_5023)
        .with(TABLE_3 + 1024, 0xe3);
    far.moved(
        rt,
        "five levels, offset 200000, used 6000, 3.16 = 104023, 4.0 = 105023, 5.0 = e3:",
        0x20_0000,
    )
}

fn leaf_bits(rt: &impl Print) -> io::Result<()> {
    let base = four();
    base.with(MAPPED, 0x30_10e3)
        .moved(rt, "offset 200000, 2.1 = 3010e3:", 0x20_0000)?;
    let gigabyte = base.with(TABLE_1 + 1, 0x6000_00e3);
    let range = [0x4000_0000, 0x7fff_ffff, 0x4000_0000];
    gigabyte.build(
        rt,
        "range 40000000 to 7fffffff, offset 40000000, 1.1 = 600000e3:",
        range,
        SIZE,
    )?;
    // a leaf with bit 12 meets an entry
    let leaf = base.with(MAPPED, 0x20_10e3);
    leaf.with(TABLE_2 + 2, 0x40_00e3).moved(
        rt,
        "offset 200000, 2.1 = 2010e3, 2.2 = 4000e3:",
        0x20_0000,
    )?;
    leaf.with(TABLE_2 + 2, 0x40_10e3).moved(
        rt,
        "offset 200000, 2.1 = 2010e3, 2.2 = 4010e3:",
        0x20_0000,
    )
}

fn main(rt: HostRuntime) -> io::Result<()> {
    four_levels(&rt)?;
    indices(&rt)?;
    five_levels(&rt)?;
    leaf_bits(&rt)
}
