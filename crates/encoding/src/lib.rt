// One vector to be sent: the block that carries it.
#![tactic(auto)]

ghost use Rattle.std.specs.Prelude.{◌≡◌, ◌+◌, ◌*◌, ◌<◌, ◌≤◌, length};
ghost use Rattle.block.specs.Block.{two_words, carrier, encode_answer};
ghost use Rattle.block.specs.Coded.{coded_of};
ghost use Rattle.block.specs.Rows.{row, SameFlags};
ghost use Rattle.fields.specs.Parts.{spread, sum_by};
ghost use Rattle.encoding.specs.Answer.{answer_of};
ghost use Rattle.encoding.specs.Parts.{lanes_at, carried_by};

use block::{Coded, Edition, Kind};
use fields::{field_code, placed, rows};
use quick_encoding::quick;
use refusals::{Refusal, Refused};
use vectors::Vector;

// The payload of row r, whose control bits are the vector's, if it carries the vector; c0 and c1 say which vector the lanes belong to.
fn pack(edition: Edition, r: usize, c0: u8, c1: u8, lanes: u64) -> Option<u64>
    requires { (r < 16) × SameFlags (spread c0 c1 lanes) (row r) }
    ensures { result ≡ sum_by edition (spread c0 c1 lanes) (row r) }
{
    let mut payload = rows::type_of(r);
    for i in 0..8 {
        let code = field_code(edition, r, i, lanes)?;
        payload += placed(r, i, code);
    }
    Some(payload)
}

// A vector with a control character: the rows with its control bits are tried one after the other. Kept out of line, so that the quick way in
// `encode` stays short.
#[inline(never)]
fn encode_rows(edition: Edition, c0: u8, c1: u8, lanes: u64) -> Coded
    requires { (c0 ≤ 15) × (c1 ≤ 15) × (0 < c0 + 16 * c1) }
    ensures { result ≡ coded_of (carrier edition (spread c0 c1 lanes)) }
{
    let mut next = rows::first_row(u64::from(c0) + 16 * u64::from(c1));
    while let Some(r) = next {
        if let Some(payload) = pack(edition, r, c0, c1, lanes) {
            let vector = Vector {
                c0,
                c1,
                d0: (lanes % 4294967296) as u32,
                d1: (lanes / 4294967296) as u32,
            };
            return Coded {
                kind: tables::kind_of(r, vector),
                header: 1,
                payload,
            };
        }
        next = rows::next_row(r);
    }
    Coded {
        kind: Kind::E,
        header: 1,
        payload: 0x3c78f1e3c78f1e1e,
    }
}

// A vector as two words: control bytes and lanes, lane 0 lowest.
pub fn encode(edition: Edition, c0: u8, d0: u32, c1: u8, d1: u32) -> Coded
    requires { (c0 ≤ 15) × (c1 ≤ 15) }
    ensures { result ≡ coded_of (carrier edition (two_words c0 d0 c1 d1)) }
{
    let lanes = u64::from(d0) + u64::from(d1) * 4294967296;
    if let Some(coded) = quick(c0, c1, lanes) {
        return coded;
    }
    if edition == Edition::New && lanes == 0x0606_0606_0606_0606 && c0 == 15 && c1 == 15 {
        return Coded {
            kind: Kind::LI,
            header: 1,
            payload: 0x0c18_3060_c183_061e,
        };
    }
    encode_rows(edition, c0, c1, lanes)
}

// Four bytes as lanes, the first lowest.
pub fn lanes_at(v: &[u8], p: usize) -> u32
    requires { p + 3 < length v.now }
    ensures { result ≡ lanes_at v.now p }
{
    u32::from_le_bytes([v[p], v[p + 1], v[p + 2], v[p + 3]])
}

// The block of a vector, if one carries it: kind E says that none does.
fn carried(coded: Coded) -> Option<Coded>
    ensures { result ≡ carried_by coded }
{
    if coded.kind == Kind::E {
        None
    } else {
        Some(coded)
    }
}

// One vector by itself: the block that carries it, if one does; or a refusal and its place.
pub fn encode_vector(edition: Edition, v: &[u8]) -> Result<Option<Coded>, Refused>
    ensures { answer_of result ≡ encode_answer edition v.now }
{
    if v.len() != 10 {
        return Err(Refused(Refusal::NotGroups, 0));
    }
    let c0 = v[0];
    if 15 < c0 {
        return Err(Refused(Refusal::ControlByte, 0));
    }
    let c1 = v[5];
    if 15 < c1 {
        return Err(Refused(Refusal::ControlByte, 5));
    }
    let d0 = lanes_at(v, 1);
    let d1 = lanes_at(v, 6);
    Ok(carried(encode(edition, c0, d0, c1, d1)))
}
