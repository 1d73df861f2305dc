// Numbers as people write them: hexadecimal, with or without 0x.
#![tactic(auto)]

ghost use Rattle.std.specs.Prelude.{◌≡◌, ◌≤◌, MatchOption};
ghost use Rattle.text.specs.Hex.{digit_of, digits_of, hex_of, signed_of, prefixed_of, marked_of};

// What a digit counts; none for any other byte.
#[tactic(auto, using(std::proofs::lemmas::Bool::Decides::nat_tests), unfolding(crate::specs::Hex::digit_of))]
fn digit(byte: u8) -> Option<u64>
    ensures { MatchOption result (digit_of byte ≡ 16) (λ d. (d ≡ digit_of byte) × (d ≤ 15)) }
{
    match byte {
        b'0'..=b'9' => Some(u64::from(byte - b'0')),
        b'A'..=b'F' => Some(u64::from(byte - b'A') + 10),
        b'a'..=b'f' => Some(u64::from(byte - b'a') + 10),
        _ => None,
    }
}

// The value of a run of digits below 2^64.
fn digits(s: &[u8]) -> Option<u64>
    ensures { result ≡ digits_of s.now }
{
    let mut value: u64 = 0;
    for byte in s {
        let counts = digit(*byte)?;
        value = value.checked_mul(16)? + counts;
    }
    Some(value)
}

// Whether a text is 0x with more after it.
#[tactic(auto, using(std::proofs::lemmas::Bool::Decides::nat_tests), unfolding(crate::specs::Hex::prefixed_of))]
fn prefixed(s: &[u8]) -> bool
    ensures { result ≡ prefixed_of s.now }
{
    matches!(s, [b'0', b'x', _, ..])
}

// A number below 2^64 in hexadecimal.
#[tactic(auto, using(crate::proofs::Values::reads), unfolding(crate::specs::Hex::hex_of, crate::specs::Hex::prefixed_of))]
pub fn parse_hex(s: &[u8]) -> Option<u64>
    ensures { result ≡ hex_of s.now }
{
    match s {
        [] => None,
        [_, _, rest @ ..] if prefixed(s) => digits(rest),
        _ => digits(s),
    }
}

// A number as parse_hex reads it, or one to -2^63 after '-', as a word in two's complement.
#[tactic(auto, using(crate::proofs::Values::reads), unfolding(crate::specs::Hex::signed_of, crate::specs::Hex::hex_of, crate::specs::Hex::at_most))]
pub fn parse_signed(s: &[u8]) -> Option<u64>
    ensures { result ≡ signed_of s.now }
{
    let [b'-', rest @ ..] = s else {
        return parse_hex(s);
    };
    let magnitude = parse_hex(rest)?;
    if magnitude > 0x8000_0000_0000_0000 {
        return None;
    }
    Some(magnitude.wrapping_neg())
}

// Whether a text says by 0x that it is hexadecimal, after '-' too.
#[tactic(auto, using(std::proofs::lemmas::Bool::Decides::nat_tests), unfolding(crate::specs::Hex::marked_of, crate::specs::Hex::prefixed_of))]
pub fn marked(s: &[u8]) -> bool
    ensures { result ≡ marked_of s.now }
{
    match s {
        [b'-', rest @ ..] => prefixed(rest),
        _ => prefixed(s),
    }
}
