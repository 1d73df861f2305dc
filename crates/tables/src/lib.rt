// Tables as the programs handle them: words by number, with nothing read or written past the end, and whether all is zero.
#![tactic(auto)]

ghost use Rattle.std.specs.Prelude.{◌≡◌};
ghost use Rattle.tables.specs.Meaning.{word_at, Written, all_zero};

// The word k, or 0 past the end.
#[tactic(auto, unfolding(crate::specs::Meaning::word_at))]
pub fn word_at(bytes: &[u8], k: usize) -> u64
    ensures { result ≡ word_at bytes.now k }
{
    if k < bytes.len() / 8 {
        words::read_word(bytes, k)
    } else {
        0
    }
}

// Puts a word at place k; past the end, nothing.
pub fn put(bytes: &mut [u8], k: usize, word: u64)
    ensures { Written bytes.old bytes.new k word }
{
    if k < bytes.len() / 8 {
        words::write_word(bytes, k, word);
    }
}

// Whether every byte is 0.
pub fn blank(bytes: &[u8]) -> bool
    ensures { result ≡ all_zero bytes.now }
{
    bytes.iter().all(|byte| *byte == 0)
}
