// Bits of the line at any place, and blocks put on it.
#![tactic(auto)]

ghost use Rattle.std.specs.Prelude.{◌≡◌, [], ◌∷◌, ◌++◌, ◌+◌, ◌*◌, ◌≤◌, ◌<◌, length, take, drop};
ghost use Rattle.bits.specs.Bits.{bit, number, line_bit, stream_bit, cut};
ghost use Rattle.line.specs.BlockNumber.{block_number};

// A block: its two header bits and its 64 payload bits, each with the first bit lowest.
#[derive(Clone, Copy, Debug, PartialEq, Eq)]
pub struct Block {
    pub header: u64,
    pub payload: u64,
}

// Four whole bytes of the line.
pub fn load_half(s: &[u8], at: usize) -> u64
    requires { at + 4 ≤ length s.now }
    ensures { (result ≡ number 32 (λ i. line_bit s.now (8 * at + i))) × (result < 4294967296) }
{
    u64::from(u32::from_le_bytes(s[at..at + 4].try_into().unwrap()))
}

// Eight whole bytes of the line.
pub fn load(s: &[u8], at: usize) -> u64
    requires { at + 8 ≤ length s.now }
    ensures { result ≡ number 64 (λ i. line_bit s.now (8 * at + i)) }
{
    u64::from_le_bytes(s[at..at + 8].try_into().unwrap())
}

// The 64 line bits from bit pos on.
pub fn bits_at(s: &[u8], pos: usize) -> u64
    requires { pos + 64 ≤ 8 * length s.now }
    ensures { result ≡ number 64 (λ i. line_bit s.now (pos + i)) }
{
    let at = pos / 8;
    let lo = load(s, at);
    let sh = pos % 8;
    if sh == 0 {
        return lo;
    }
    let hi = u64::from(s[at + 8]);
    (lo >> sh) | (hi << (64 - sh))
}

// The header of the block that starts at bit pos.
pub fn header_at(s: &[u8], pos: usize) -> u64
    requires { pos + 66 ≤ 8 * length s.now }
    ensures { result ≡ number 2 (λ i. line_bit s.now (pos + i)) }
{
    let at = pos / 8;
    let two = u16::from_le_bytes([s[at], s[at + 1]]);
    u64::from((two >> (pos % 8)) % 4)
}

// Four whole bytes put on the line: the lower half of a word. The room comes with a place and not as a part: so what stands before and behind is
// said here, and not by each caller.
pub fn store_half(room: &mut [u8], at: usize, w: u64)
    requires { at + 4 ≤ length room.old }
    ensures { room.new ≡ take at room.old ++ cut 8 (bit w) 4 ++ drop (at + 4) room.old }
{
    room[at..at + 4].copy_from_slice(&w.to_le_bytes()[..4]);
}

// Eight whole bytes put on the line.
pub fn store(room: &mut [u8], at: usize, w: u64)
    requires { at + 8 ≤ length room.old }
    ensures { room.new ≡ take at room.old ++ cut 8 (bit w) 8 ++ drop (at + 8) room.old }
{
    room[at..at + 8].copy_from_slice(&w.to_le_bytes());
}

// Four words and a byte put on the line.
fn put_words(room: &mut [u8], at: usize, w: u64, x: u64, y: u64, z: u64, last: u8)
    requires { at + 33 ≤ length room.old }
    ensures { room.new ≡ take at room.old ++ (cut 8 (bit w) 8 ++ cut 8 (bit x) 8 ++ cut 8 (bit y) 8 ++ cut 8 (bit z) 8 ++ (last ∷ [])) ++ drop (at + 33) room.old }
{
    store(room, at, w);
    store(room, at + 8, x);
    store(room, at + 16, y);
    store(room, at + 24, z);
    room[at + 32] = last;
}

// Four blocks put on the line, one after the other: 264 bits, which are four words and a byte. They are no array: each word has parts of two
// blocks that stand side by side, and an array would only be taken apart for them.
pub fn put_group(room: &mut [u8], at: usize, a: Block, b: Block, c: Block, d: Block)
    requires { (at + 33 ≤ length room.old) × (a.header < 4) × (b.header < 4) × (c.header < 4) × (d.header < 4) }
    ensures { room.new ≡ take at room.old ++ cut 8 (stream_bit 66 (block_number a ∷ block_number b ∷ block_number c ∷ block_number d ∷ [])) 33 ++ drop (at + 33) room.old }
{
    put_words(
        room,
        at,
        a.header | (a.payload << 2),
        (a.payload >> 62) | (b.header << 2) | (b.payload << 4),
        (b.payload >> 60) | (c.header << 4) | (c.payload << 6),
        (c.payload >> 58) | (d.header << 6) | (d.payload << 8),
        (d.payload >> 56) as u8,
    );
}
