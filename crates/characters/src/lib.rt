// The octet of a received character, by its slot: 0 data, 1 a control character, 2 one whose code is not 1e, 3 an ordered set, 4 Start,
// 5 Terminate. The slots stay numbers: they are read out of the words of `shapes`, a byte each, and an enum would be made of the number first.
#![tactic(auto)]

ghost use Rattle.std.specs.Prelude.{◌≡◌, ◌/◌, ◌%◌, ◌^◌, ◌<◌, unwrap_or};
ghost use Rattle.block.specs.Block.{Control, Calm, sets, octet_in, octet_of};
ghost use Rattle.block.specs.Rows.{width};
ghost use Rattle.characters.specs.Octets.{slot_at, octet_from, read_as, control_fault, joined, four_by};

use block::{Edition, Reason};

// The eight control codes, each in the byte of its number's top three bits, and their octets.
const CODES: u64 = 0x7866554b332d1e00;

const OCTETS: u64 = 0xf7dcbc7c3c1cfe07;

// The octet of a control code, if it has one; code 06 has one in the newer edition.
fn control(edition: Edition, v: u64) -> Option<u8>
    requires { v < 128 }
    ensures { unwrap_or result 256 ≡ octet_of edition Control v }
{
    let i = 8 * (v / 16);
    if v == (CODES >> i) % 256 {
        Some(((OCTETS >> i) % 256) as u8)
    } else if v == 6 && edition == Edition::New {
        Some(6)
    } else {
        None
    }
}

// The same in a block of type 1e.
fn calm(edition: Edition, v: u64) -> Option<u8>
    requires { v < 128 }
    ensures { unwrap_or result 256 ≡ octet_of edition Calm v }
{
    if v == 0x1e { None } else { control(edition, v) }
}

// The octet of an ordered set code, if it has one.
fn set(v: u64) -> Option<u8>
    ensures { unwrap_or result 512 ≡ octet_in 512 sets v }
{
    match v {
        0 => Some(0x9c),
        15 => Some(0x5c),
        _ => None,
    }
}

// The octet of the character whose field begins at this place of x; else which code of it is bad.
fn character(edition: Edition, slot: u64, place: u64, x: u64) -> Result<u8, Reason>
    requires { place < 64 }
    ensures { result ≡ read_as (octet_of edition (slot_at slot) (x / 2 ^ place % 2 ^ width (slot_at slot))) }
{
    let v = x >> place;
    match slot {
        0 => Ok((v % 256) as u8),
        1 => control(edition, v % 128).ok_or(Reason::ControlCode),
        2 => calm(edition, v % 128).ok_or(Reason::ControlCode),
        3 => set(v % 16).ok_or(Reason::SetCode),
        4 => Ok(0xfb),
        _ => Ok(0xfd),
    }
}

// Whether a character says that its control code is bad.
fn control_fault(r: Result<u8, Reason>) -> bool
    ensures { result ≡ control_fault r }
{
    matches!(r, Err(Reason::ControlCode))
}

// Four octets as lanes; else why not, a control code's fault before one of an ordered set.
fn joined(
    a: Result<u8, Reason>,
    b: Result<u8, Reason>,
    c: Result<u8, Reason>,
    d: Result<u8, Reason>,
) -> Result<u32, Reason>
    ensures { result ≡ joined a b c d }
{
    if let (Ok(a), Ok(b), Ok(c), Ok(d)) = (a, b, c, d) {
        Ok(u32::from_le_bytes([a, b, c, d]))
    } else if control_fault(a) || control_fault(b) || control_fault(c) || control_fault(d) {
        Err(Reason::ControlCode)
    } else {
        Err(Reason::SetCode)
    }
}

// Four characters, whose places and slots are four bytes each: their octets as lanes; else why not, a control code's fault before one of an
// ordered set.
pub fn four(edition: Edition, places: u64, slots: u64, x: u64) -> Result<u32, Reason>
    ensures { result ≡ four_by (octet_from edition places slots x 0) (octet_from edition places slots x 1) (octet_from edition places slots x 2) (octet_from edition places slots x 3) }
{
    let a = character(edition, slots % 8, places % 64, x);
    let b = character(edition, slots / 256 % 8, places / 256 % 64, x);
    let c = character(edition, slots / 65536 % 8, places / 65536 % 64, x);
    let d = character(edition, slots / 16777216 % 8, places / 16777216 % 64, x);
    joined(a, b, c, d)
}
