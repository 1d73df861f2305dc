// The operations on one entry, a level, a region's tables and a mask, for C. An entry is a word. An answer is a number that is
// returned and a word that is left where the caller says. Numbers for kinds and answers, flat parameters, and a function for each
// operation though two are alike: the C interface needs them.
ghost use Rattle.std.specs.Prelude.{◌≡◌, Result};
ghost use Rattle.std.specs.Fn.{FnOnceReturnsAtMut};
ghost use Rattle.definitions.specs.Entry.{Answer};
ghost use Rattle.definitions.specs.declared.refusals.Error.{Error as Refused};
ghost use Rattle.levels.specs.Answers.{answer_of};
ghost use Rattle.entry.specs.Kinds.{answer_in};
ghost use Rattle.entry.specs.declared.PageTableEntry.{PageTableEntry as Entry};
ghost use Rattle.archwend.specs.Exports.{region_at};
ghost use Rattle.archwend.specs.Entries.{fresh_of, Leaves, Finds, SetsFresh, SetsAddr, ReadsAddr, SetsLeafAddr, ReadsLeafAddr, FlagsPresent, FlagsLarge};
ghost use Rattle.archwend.specs.Entries.{ClearsWord, SizesLevel, IndexesLevel, FindsTable, SplitsInto};

use crate::number;
use definitions::Region;
use definitions::refusals::Error;
use entry::{PageTableEntry, PageTableEntryType};

// The kinds of a fresh entry, as C gives them; a leaf's is its level.
const LEAF_4K: u64 = 0;

const LEAF_2M: u64 = 1;

const LEAF_1G: u64 = 2;

const TABLE: u64 = 3;

// The number of an answer; its word is left, or 0.
fn leave(answer: Result<u64, Error>, out: &mut u64) -> u64
    ensures { Leaves (answer_of answer) result out.new }
{
    *out = answer.unwrap_or(0);
    number(answer)
}

// 1 and the value, or 0 and 0.
fn find(found: Option<u64>, out: &mut u64) -> u64
    ensures { Finds found result out.new }
{
    *out = found.unwrap_or(0);
    u64::from(found.is_some())
}

// What an operation makes of the entry that a word is; the number of its answer.
fn change<F: FnOnce(&mut PageTableEntry) -> Result<(), Error>>(word: &mut u64, operation: F) -> u64
    requires { F.IsAlwaysCallable operation }
    ensures { (a : Answer)
        → ((r : Result Unit Refused) (y : Entry)
        → FnOnceReturnsAtMut F.FnOnce operation (record { entry = word.old }) r y → answer_in r y ≡ a)
        → Leaves a result word.new }
{
    let mut entry = PageTableEntry { entry: *word };
    let answer = operation(&mut entry);
    *word = entry.entry;
    number(answer)
}

// A fresh entry of a kind, any number being taken as one.
fn fresh(entry: &mut PageTableEntry, kind: u64, addr: u64) -> Result<(), Error>
    ensures { answer_in result entry.new ≡ fresh_of kind entry.old.entry addr }
{
    let made = match kind {
        LEAF_4K => PageTableEntryType::Leaf4kPage(addr),
        LEAF_2M => PageTableEntryType::Leaf2MbPage(addr),
        LEAF_1G => PageTableEntryType::Leaf1GbPage(addr),
        TABLE => PageTableEntryType::Pde(addr),
        _ => return Err(Error::Entry),
    };
    entry.set_entry(made)
}

// The entry becomes a fresh one: 0, or 20 and it stays.
pub fn archwend_set_entry(word: &mut u64, kind: u64, addr: u64) -> u64
    ensures { SetsFresh word.old kind addr result word.new }
{
    change(word, |entry| fresh(entry, kind, addr))
}

// A table entry gets another address: 0, or 20 and it stays.
pub fn archwend_set_addr(word: &mut u64, addr: u64) -> u64
    ensures { SetsAddr word.old addr result word.new }
{
    change(word, |entry| entry.set_addr(addr))
}

// 1 and a present table entry's address, or 0 and 0.
pub fn archwend_gpa(word: u64, gpa: &mut u64) -> u64
    ensures { ReadsAddr word result gpa.new }
{
    let entry = PageTableEntry { entry: word };
    find(entry.gpa(), gpa)
}

// A leaf of a level gets another address: 0, or 20 and it stays.
pub fn archwend_set_leaf_addr(word: &mut u64, level: u64, addr: u64) -> u64
    ensures { SetsLeafAddr word.old level addr result word.new }
{
    change(word, |entry| entry.set_leaf_addr(level, addr))
}

// 1 and the address of a present leaf of a level, or 0 and 0, or 20 and 0.
pub fn archwend_leaf_gpa(word: u64, level: u64, found: &mut u64) -> u64
    ensures { ReadsLeafAddr word level result found.new }
{
    let entry = PageTableEntry { entry: word };
    match entry.leaf_gpa(level) {
        Ok(gpa) => find(gpa, found),
        Err(refused) => leave(Err(refused), found),
    }
}

pub fn archwend_is_present(word: u64) -> u64
    ensures { FlagsPresent word result }
{
    let entry = PageTableEntry { entry: word };
    u64::from(entry.is_present())
}

pub fn archwend_is_large_page(word: u64) -> u64
    ensures { FlagsLarge word result }
{
    let entry = PageTableEntry { entry: word };
    u64::from(entry.is_large_page())
}

pub fn archwend_clear(word: &mut u64)
    ensures { ClearsWord word.new }
{
    let mut entry = PageTableEntry { entry: *word };
    entry.clear();
    *word = entry.entry;
}

// 0 and what one entry of the level maps, or 20 and 0.
pub fn archwend_mapping_size(level: u64, size: &mut u64) -> u64
    ensures { SizesLevel level result size.new }
{
    leave(levels::mapping_size(level), size)
}

// 0 and the index of an address at the level, or 20 and 0.
pub fn archwend_get_amd64_pte_index(gva: u64, level: u64, index: &mut u64) -> u64
    ensures { IndexesLevel gva level result index.new }
{
    leave(levels::get_amd64_pte_index(gva, level), index)
}

// 1 and the number of the region's table that holds the address, or 0 and 0.
pub fn archwend_calculate_page_table_index(
    gpa: u64,
    size: u64,
    used: u64,
    address: u64,
    index: &mut u64,
) -> u64
    ensures { FindsTable (region_at gpa size used) address result index.new }
{
    let r = Region { gpa, size, used };
    let table = region::calculate_page_table_index(r, address);
    find(table.map(|i| i as u64), index)
}

// How many single bits the mask has; they are left lowest first, zeros after them.
pub fn archwend_extract_individual_masks(mask: u32, bits: &mut [u32; 32]) -> u64
    ensures { SplitsInto mask result bits.new }
{
    let s = masks::extract_individual_masks(mask);
    let list = s.bits;
    *bits = list;
    s.count as u64
}
