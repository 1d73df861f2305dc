// Files as the programs handle them: read and written by an argument's number, as far as a buffer has room, and a line on standard
// error for what goes wrong.
#![tactic(auto)]

ghost use Rattle.std.specs.Prelude.{◌≡◌, ◌≤◌, [], length, take, IfSome, IfOk, vec_len};
ghost use Rattle.files.specs.Meaning.{Fills};

use arrayvec::ArrayVec;
use std::alloc::{AllocError, Global};
use std::env::FillError;
use std::fmt::InlineText;
use std::fs::File;
use std::io::Read;
use std::rt::{Env, Files};
use std::{fs, io, str};

// What the programs lend to a build. An image or a list of ranges that fills its buffer is too long for any build, and what is
// cut off does not change the answer: it is 1 for 512 tables and a byte, and 8 for 1,025 ranges.
pub const IMAGE_BYTES: usize = 2097153;

pub const RANGE_WORDS: usize = 3075;

// 512 tables.
pub const OUTPUT_BYTES: usize = 2097152;

// 131,072 moved leaves of three words.
pub const SCRATCH_WORDS: usize = 393216;

// Room for any name of a file.
const NAME_BYTES: usize = 4096;

// Room for any error in words.
const WORDS_BYTES: usize = 256;

// What a program lends to a build.
#[derive(Drop)]
pub struct Buffers {
    pub image: Vec<u8>,
    pub output: Vec<u8>,
    pub scratch: Vec<u64>,
    pub ranges: ArrayVec<u64, RANGE_WORDS>,
}

impl Buffers {
    // Zeros, as many as can change a build's answer, and no ranges yet.
    pub fn new(alloc: Global) -> Result<Buffers, AllocError>
        ensures { IfOk result (λ b.
            (vec_len b.image ≡ IMAGE_BYTES) × (vec_len b.output ≡ OUTPUT_BYTES) × (vec_len b.scratch ≡ SCRATCH_WORDS)
            × (b.ranges.items ≡ [])) }
    {
        let image = vec![in alloc; 0u8; IMAGE_BYTES]?;
        let output = vec![in alloc; 0u8; OUTPUT_BYTES]?;
        let scratch = vec![in alloc; 0u64; SCRATCH_WORDS]?;
        let ranges = ArrayVec::new();
        Ok(Buffers {
            image,
            output,
            scratch,
            ranges,
        })
    }
}

// How many arguments the program was started with, its own name among them.
pub fn arg_count(rt: &impl Env) -> usize {
    for i in 0..usize::MAX {
        if let Err(FillError::NotPresent) = rt.arg(i, &mut []) {
            return i;
        }
    }
    usize::MAX
}

// One line on standard error. Where that can't be written there is nothing left to say it on.
pub fn complain(rt: &impl Eprint, what: &str, why: &str) {
    let _ = eprintln!(rt; "{what}: {why}");
}

// What failed, and why in the system's words, without the number that an error of the system's has after them.
pub fn fail(rt: &impl Eprint, what: &str, error: io::Error) {
    let text = InlineText::<WORDS_BYTES>::of(error);
    let words = text.as_str();
    match words.split_once(" (os error ") {
        Some((why, _)) => complain(rt, what, why),
        None => complain(rt, what, words),
    }
}

// The first n, or all where there are fewer.
pub fn front<T>(items: &[T], n: usize) -> &[T]
    ensures { result.now ≡ take n items.now }
{
    items.get(..n).unwrap_or(items)
}

// The name that argument `at` is; where it can be none, that is said on standard error.
fn name<'a>(
    rt: &(impl Env + Eprint),
    at: usize,
    what: &str,
    room: &'a mut [u8; NAME_BYTES],
) -> Option<&'a str> {
    let n = match rt.arg(at, room) {
        Ok(n) => n,
        Err(FillError::NotPresent) => {
            complain(rt, what, "Invalid argument");
            return None;
        }
        Err(FillError::TooLong) => {
            complain(rt, what, "File name too long");
            return None;
        }
    };
    match str::from_utf8(&room[..n]) {
        Ok(path) => Some(path),
        Err(_) => {
            complain(rt, what, "a name that is not UTF-8");
            None
        }
    }
}

// Opens the file that argument `at` names, for reading: the file, or none after a line on standard error.
pub fn open<R: Env + Files + Eprint>(rt: &R, at: usize, what: &str) -> Option<R::File> {
    let mut room = [0u8; NAME_BYTES];
    let path = name(rt, at, what, &mut room)?;
    match File::open(rt, path) {
        Ok(file) => Some(file),
        Err(error) => {
            fail(rt, what, error);
            None
        }
    }
}

// Reads until the buffer is full or the file ends: how many bytes are at its start, or none where a read failed, which is said on
// standard error.
pub fn fill<F: Read>(rt: &impl Eprint, file: &mut F, what: &str, buf: &mut [u8]) -> Option<usize>
    ensures within { IfSome result (λ n. n ≤ length buf.old) }
    ensures bytes { IfSome result (λ n. Fills (F.remaining file.old) (F.remaining file.new) buf.new n) }
{
    let mut n: usize = 0;
    // A while: how far a read comes is known only after it.
    while n < buf.len() {
        let more = match file.read(&mut buf[n..]) {
            Ok(more) => more,
            Err(error) => {
                fail(rt, what, error);
                return None;
            }
        };
        if more == 0 {
            return Some(n);
        }
        n += more;
    }
    Some(n)
}

// Reads the file that argument `at` names, as far as the buffer has room; what goes wrong is said on standard error.
pub fn read<R: Env + Files + Eprint>(
    rt: &R,
    at: usize,
    what: &str,
    buf: &mut [u8],
) -> Option<usize> {
    let mut file = open(rt, at, what)?;
    fill(rt, &mut file, what, buf)
}

// Writes the bytes to the file that argument `at` names; what goes wrong is said on standard error.
pub fn save(rt: &(impl Env + Files + Eprint), at: usize, what: &str, bytes: &[u8]) -> bool {
    let mut room = [0u8; NAME_BYTES];
    let Some(path) = name(rt, at, what, &mut room) else {
        return false;
    };
    match fs::write(rt, path, bytes) {
        Ok(()) => true,
        Err(error) => {
            fail(rt, what, error);
            false
        }
    }
}
