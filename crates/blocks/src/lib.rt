// Blocks as they stand on the line, from any bit on: one, or four at once.
#![tactic(auto)]

ghost use Rattle.std.specs.Prelude.{◌≡◌, ◌+◌, ◌*◌, ◌/◌, ◌≤◌, ◌<◌, length};
ghost use Rattle.bits.specs.Bits.{number, line_bit};
ghost use Rattle.blocks.specs.Blocks.{header_at, payload_at, Fours};

use line::{Block, load};

// Four blocks: their headers, two bits each, the first lowest, and their payloads.
#[derive(Clone, Copy)]
pub struct Four {
    pub headers: u64,
    pub a: u64,
    pub b: u64,
    pub c: u64,
    pub d: u64,
}

// Two whole bytes of the line.
fn load_two(s: &[u8], at: usize) -> u64
    requires { at + 2 ≤ length s.now }
    ensures { result ≡ number 16 (λ i. line_bit s.now (8 * at + i)) }
{
    u64::from(u16::from_le_bytes([s[at], s[at + 1]]))
}

// The block from bit pos on: it ends within ten bytes.
pub fn one_at(s: &[u8], pos: usize) -> Block
    requires { pos / 8 + 10 ≤ length s.now }
    ensures { (result.header ≡ header_at s.now pos) × (result.payload ≡ payload_at s.now pos) }
{
    let at = pos / 8;
    let sh = pos % 8;
    let first = load_two(s, at);
    let w = load(s, at);
    let last = load_two(s, at + 8);
    Block {
        header: (first >> sh) % 4,
        payload: (w >> (sh + 2)) | (last << (62 - sh)),
    }
}

// The four blocks from bit 8 * at + sh on: block i begins at bit sh + 2 * i of word i, so four words and two bytes have them all. A word is
// shifted to its header, and from there to its payload.
fn four_from(s: &[u8], at: usize, sh: usize) -> Four
    requires { (at + 34 ≤ length s.now) × (sh < 8) }
    ensures { Fours s.now (8 * at + sh) result }
{
    let w = load(s, at) >> sh;
    let x = load(s, at + 8);
    let y = load(s, at + 16);
    let z = load(s, at + 24);
    let last = load_two(s, at + 32);
    let b = x >> (sh + 2);
    let c = y >> (sh + 4);
    let d = z >> (sh + 6);
    Four {
        headers: w % 4 + b % 4 * 4 + c % 4 * 16 + d % 4 * 64,
        a: (w >> 2) | (x << (62 - sh)),
        b: (b >> 2) | (y << (60 - sh)),
        c: (c >> 2) | (z << (58 - sh)),
        d: (d >> 2) | (last << (56 - sh)),
    }
}

// The same, with numbers for sh: the compiler knows each shift then.
pub fn four_at(s: &[u8], at: usize, sh: usize) -> Four
    requires { (at + 34 ≤ length s.now) × (sh < 8) }
    ensures { Fours s.now (8 * at + sh) result }
{
    match sh {
        0 => four_from(s, at, 0),
        1 => four_from(s, at, 1),
        2 => four_from(s, at, 2),
        3 => four_from(s, at, 3),
        4 => four_from(s, at, 4),
        5 => four_from(s, at, 5),
        6 => four_from(s, at, 6),
        _ => four_from(s, at, sh),
    }
}
