// The control bytes of a list of words: where the first above 15 is.
#![tactic(auto)]

ghost use Rattle.std.specs.Prelude.{◌≡◌, true, ℕ, ◌*◌, ◌/◌, ◌%◌, ◌<◌, max, length, get_or, position, nat_lt, slice_index, MatchOption};
ghost use Rattle.std.specs.Simd.{first_chunks};
ghost use Rattle.bits.specs.Bits.{stream_bit, line_bit};
ghost use Rattle.control_bytes.specs.Control.{high_control};

use line::load;

// The first word whose control byte is above 15.
fn high_word(bytes: &[u8]) -> Option<usize>
    ensures { result ≡ position (λ w. nat_lt 15 (slice_index w 0)) (first_chunks 5 (length bytes.now / 5) bytes.now) }
{
    let (words, _) = bytes.as_chunks::<5>();
    words.iter().position(|word| 15 < word[0])
}

// One more group of eight words laid over those before: a bit of the 320 is set where it is in one of them. They are 64 to a number, the first
// lowest.
fn joined(over: [u64; 5], group: &[u8; 40]) -> [u64; 5]
    ensures { (n : ℕ) → n < 320 → stream_bit 64 result n ≡ max (stream_bit 64 over n) (line_bit group.now n) }
{
    [
        over[0] | load(group, 0),
        over[1] | load(group, 8),
        over[2] | load(group, 16),
        over[3] | load(group, 24),
        over[4] | load(group, 32),
    ]
}

// Whether all control bytes of whole groups are seen at once to be below 16: none of their four high bits is set.
fn all_low(bytes: &[u8]) -> bool
    requires { length bytes.now % 40 ≡ 0 }
    ensures { result ≡ true → (i : ℕ) → 5 * i < length bytes.now → get_or bytes.now (5 * i) 0 < 16 }
{
    let (groups, _) = bytes.as_chunks::<40>();
    let mut over = [0; 5];
    for group in groups {
        over = joined(over, group);
    }
    (over[0] & 0x0000_f000_0000_00f0)
        | (over[1] & 0xf000_0000_00f0_0000)
        | (over[2] & 0x0000_00f0_0000_0000)
        | (over[3] & 0x00f0_0000_0000_f000)
        | (over[4] & 0x0000_0000_f000_0000)
        == 0
}

// The byte offset of the first control byte above 15 of whole groups. It is looked for only where there is one.
pub fn first_high(bytes: &[u8]) -> Option<usize>
    requires { length bytes.now % 40 ≡ 0 }
    ensures { MatchOption result (high_control bytes.now ≡ length bytes.now) (λ p. (p ≡ high_control bytes.now) × (p < length bytes.now)) }
{
    if all_low(bytes) {
        return None;
    }
    let word = high_word(bytes)?;
    Some(5 * word)
}
