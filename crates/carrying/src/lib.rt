// Blocks taken from the line: a whole one where nothing is carried, else the bits that the carried one lacks.
#![tactic(auto)]

ghost use Rattle.std.specs.Prelude.{◌≡◌, false, ◌+◌, ◌-◌, ◌*◌, ◌^◌, ◌<◌, ◌≤◌, length};
ghost use Rattle.bits.specs.Bits.{number, line_bit, line_bits};
ghost use Rattle.line.specs.BlockNumber.{block_number};
ghost use Rattle.carrying.specs.Carrying.{word_of, Sound, Takes};

use line::{Block, bits_at, header_at};

// The bits since the last tested block, fewer than 66: the header's two, then the payload's, each with the first bit lowest. That they are Sound
// is asked in clauses and is no invariant: a state that C lends may have any words here.
#[derive(Clone, Copy, Debug, Default, PartialEq, Eq)]
pub struct Carried {
    pub count: u64,
    pub header: u64,
    pub payload: u64,
}

// What is taken from the line: a full block or none, what is carried now, and where the line goes on.
#[derive(Clone, Copy, Debug, Default, PartialEq, Eq)]
pub struct Taken {
    pub block: Option<Block>,
    pub carried: Carried,
    pub next: usize,
}

// The bytes of the line from byte at on, at most eight, as one word.
fn tail(line: &[u8], at: usize) -> u64
    requires { (at ≤ length line.now) × (length line.now ≤ at + 8) }
    ensures { result ≡ number 64 (λ i. line_bit line.now (8 * at + i)) }
{
    let mut word = 0;
    for &byte in line[at..].iter().rev() {
        word = word * 256 + u64::from(byte);
    }
    word
}

// The 64 line bits from bit pos on; past the end they are zeros.
fn bits_from(line: &[u8], pos: usize) -> u64
    requires { (pos < 8 * length line.now + 8) × (length line.now ≤ 825000) }
    ensures { result ≡ number 64 (λ i. line_bit line.now (pos + i)) }
{
    if pos + 64 <= line.len() * 8 {
        return bits_at(line, pos);
    }
    tail(line, pos / 8) >> (pos % 8)
}

// The block that starts with the carried bits and goes on with the line bits from bit pos on; past the line's end they are zeros.
fn join(line: &[u8], pos: usize, c: Carried) -> Block
    requires { (pos < 8 * length line.now) × (length line.now ≤ 825000) × Sound c }
    ensures { (result.header < 4) × (block_number result ≡ word_of c + number (66 - c.count) (λ i. line_bit line.now (pos + i)) * 2 ^ c.count) }
{
    let more = bits_from(line, pos);
    if c.count < 2 {
        return Block {
            header: (c.header + (more << c.count)) % 4,
            payload: bits_from(line, pos + 2 - c.count as usize),
        };
    }
    Block {
        header: c.header,
        payload: c.payload + (more << (c.count - 2)),
    }
}

// All the bits that the carried block lacks are taken, or all that the line has left, if these are fewer.
fn fill(line: &[u8], pos: usize, c: Carried) -> Taken
    requires { (pos < 8 * length line.now) × (length line.now ≤ 825000) × Sound c }
    ensures { Takes (line_bits line.now) pos false c result }
{
    let block = join(line, pos, c);
    let left = line.len() * 8 - pos;
    let lacks = 66 - c.count as usize;
    if left < lacks {
        return Taken {
            block: None,
            carried: Carried {
                count: c.count + left as u64,
                header: block.header,
                payload: block.payload,
            },
            next: pos + left,
        };
    }
    Taken {
        block: Some(block),
        carried: Carried::default(),
        next: pos + lacks,
    }
}

// What is taken from the line at pos; skip says that the bit there is to be skipped.
pub fn take_at(line: &[u8], pos: usize, skip: bool, c: Carried) -> Taken
    requires { (pos < 8 * length line.now) × (length line.now ≤ 825000) × Sound c }
    ensures { Takes (line_bits line.now) pos skip c result }
{
    if skip {
        return Taken {
            block: None,
            carried: Carried::default(),
            next: pos + 1,
        };
    }
    if c.count == 0 && pos + 66 <= line.len() * 8 {
        let block = Block {
            header: header_at(line, pos),
            payload: bits_at(line, pos + 2),
        };
        return Taken {
            block: Some(block),
            carried: Carried::default(),
            next: pos + 66,
        };
    }
    fill(line, pos, c)
}
