// The operations on one entry, a level, a region's tables and a mask.
ghost use Rattle.archwend.specs.Exports.{region_at};
ghost use Rattle.archwend.specs.Entries.{SetsFresh, SetsAddr, ReadsAddr, SetsLeafAddr, ReadsLeafAddr, FlagsPresent, FlagsLarge};
ghost use Rattle.archwend.specs.Entries.{ClearsWord, SizesLevel, IndexesLevel, FindsTable, SplitsInto};

use archwend::entries;

#[unsafe(no_mangle)]
pub extern "C" fn archwend_set_entry(word: &mut u64, kind: u64, addr: u64) -> u64
    ensures { SetsFresh word.old kind addr result word.new }
{
    entries::archwend_set_entry(word, kind, addr)
}

#[unsafe(no_mangle)]
pub extern "C" fn archwend_set_addr(word: &mut u64, addr: u64) -> u64
    ensures { SetsAddr word.old addr result word.new }
{
    entries::archwend_set_addr(word, addr)
}

#[unsafe(no_mangle)]
pub extern "C" fn archwend_gpa(word: u64, gpa: &mut u64) -> u64
    ensures { ReadsAddr word result gpa.new }
{
    entries::archwend_gpa(word, gpa)
}

#[unsafe(no_mangle)]
pub extern "C" fn archwend_set_leaf_addr(word: &mut u64, level: u64, addr: u64) -> u64
    ensures { SetsLeafAddr word.old level addr result word.new }
{
    entries::archwend_set_leaf_addr(word, level, addr)
}

#[unsafe(no_mangle)]
pub extern "C" fn archwend_leaf_gpa(word: u64, level: u64, found: &mut u64) -> u64
    ensures { ReadsLeafAddr word level result found.new }
{
    entries::archwend_leaf_gpa(word, level, found)
}

#[unsafe(no_mangle)]
pub extern "C" fn archwend_is_present(word: u64) -> u64
    ensures { FlagsPresent word result }
{
    entries::archwend_is_present(word)
}

#[unsafe(no_mangle)]
pub extern "C" fn archwend_is_large_page(word: u64) -> u64
    ensures { FlagsLarge word result }
{
    entries::archwend_is_large_page(word)
}

#[unsafe(no_mangle)]
pub extern "C" fn archwend_clear(word: &mut u64)
    ensures { ClearsWord word.new }
{
    entries::archwend_clear(word);
}

#[unsafe(no_mangle)]
pub extern "C" fn archwend_mapping_size(level: u64, size: &mut u64) -> u64
    ensures { SizesLevel level result size.new }
{
    entries::archwend_mapping_size(level, size)
}

#[unsafe(no_mangle)]
pub extern "C" fn archwend_get_amd64_pte_index(gva: u64, level: u64, index: &mut u64) -> u64
    ensures { IndexesLevel gva level result index.new }
{
    entries::archwend_get_amd64_pte_index(gva, level, index)
}

#[unsafe(no_mangle)]
pub extern "C" fn archwend_calculate_page_table_index(
    gpa: u64,
    size: u64,
    used: u64,
    address: u64,
    index: &mut u64,
) -> u64
    ensures { FindsTable (region_at gpa size used) address result index.new }
{
    entries::archwend_calculate_page_table_index(gpa, size, used, address, index)
}

#[unsafe(no_mangle)]
pub extern "C" fn archwend_extract_individual_masks(mask: u32, bits: &mut [u32; 32]) -> u64
    ensures { SplitsInto mask result bits.new }
{
    entries::archwend_extract_individual_masks(mask, bits)
}
