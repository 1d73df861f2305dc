// Two images held against each other: the entries that differ, and the first page that does.
#![tactic(auto)]

ghost use Rattle.std.specs.Prelude.{◌≡◌, [], ◌∷◌, ◌+◌, ◌*◌, ◌/◌, ◌%◌, ◌≤◌, length};
ghost use Rattle.std.proofs.lemmas.List.Edits.{sets};
ghost use Rattle.definitions.specs.Compare.{comparable};
ghost use Rattle.compare.specs.Meaning.{Lists, Inside, Accepts, Compares};

use definitions::refusals::Error;

// What two images differ in: how many entries, and the first page of the newer one that has one, where it starts and its bytes.
#[derive(Clone, Copy)]
pub struct Differences<'a> {
    pub count: usize,
    pub start: usize,
    pub part: &'a [u8],
}

// Whether images of these lengths can be held against each other.
#[tactic(auto, unfolding(definitions::specs::Compare::comparable))]
pub fn lengths_valid(older: u64, newer: u64) -> bool
    ensures { result ≡ comparable older newer }
{
    older == newer && newer % 4096 == 0 && newer <= 2097152
}

// Puts a difference into the list, as its quadruple j.
fn put_change(list: &mut [u64], j: usize, k: usize, before: u64, after: u64)
    requires { 4 * j + 4 ≤ length list.old }
    ensures { list.new ≡ sets list.old (4 * j) (k / 512 ∷ k % 512 ∷ before ∷ after ∷ []) }
{
    list[4 * j] = (k / 512) as u64;
    list[4 * j + 1] = (k % 512) as u64;
    list[4 * j + 2] = before;
    list[4 * j + 3] = after;
}

// Lists the entries that differ, from the list's start on, and counts them; stops at the first that finds no room.
fn list_changes(older: &[u8], newer: &[u8], list: &mut [u64]) -> Result<usize, Error>
    ensures { Lists older.now newer.now (length list.old) list.new result }
{
    if !lengths_valid(older.len() as u64, newer.len() as u64) {
        return Err(Error::NotComparable);
    }
    let mut count: usize = 0;
    for k in 0..newer.len() / 8 {
        let before = words::read_word(older, k);
        let after = words::read_word(newer, k);
        if before != after {
            if list.len() < 4 * count + 4 {
                return Err(Error::NoRoom);
            }
            put_change(list, count, k, before, after);
            count += 1;
        }
    }
    Ok(count)
}

// With count differences listed: the part is the first page that differs.
fn accept<'a>(newer: &'a [u8], list: &[u64], count: usize) -> Differences<'a>
    requires { Inside newer.now list.now count }
    ensures { Accepts newer.now list.now count result }
{
    if count == 0 {
        return Differences {
            count: 0,
            start: 0,
            part: &newer[..0],
        };
    }
    let start = 4096 * list[0] as usize;
    let part = &newer[start..start + 4096];
    Differences { count, start, part }
}

// Holds two images against each other. The list has four words for each difference, then zeros; after a refusal, zeros.
pub fn compare<'a>(
    older: &[u8],
    newer: &'a [u8],
    list: &mut [u64],
) -> Result<Differences<'a>, Error>
    ensures { Compares older.now newer.now (length list.old) result list.new }
{
    match list_changes(older, newer, list) {
        Ok(count) => {
            words::fill_from(list, 4 * count, 0);
            Ok(accept(newer, list, count))
        }
        Err(error) => {
            words::fill_from(list, 0, 0);
            Err(error)
        }
    }
}
