// One field of a block format, as encoding fills it: its code, and its place in the payload.
#![tactic(auto)]

ghost use Rattle.std.specs.Prelude.{◌≡◌, ◌*◌, ◌<◌, ◌^◌};
ghost use Rattle.block.specs.Block.{Control, code_of};
ghost use Rattle.fields.specs.Parts.{slot_of, field_in, code_as, field_code, place_of_field};

use block::Edition;

pub mod rows;

// The code of a control character, if the edition has one.
fn control_code(edition: Edition, octet: u8) -> Option<u8>
    ensures { result ≡ code_as (code_of edition Control octet) }
{
    match octet {
        0x06 if edition == Edition::New => Some(0x06),
        0x07 => Some(0x00),
        0x1c => Some(0x2d),
        0x3c => Some(0x33),
        0x7c => Some(0x4b),
        0xbc => Some(0x55),
        0xdc => Some(0x66),
        0xf7 => Some(0x78),
        0xfe => Some(0x1e),
        _ => None,
    }
}

// The code of an octet in a slot, if it has one. The slots stay numbers: they are read out of the words of `rows`, and an enum would be made of
// the number first.
fn code_of(edition: Edition, slot: u64, octet: u8) -> Option<u8>
    ensures { result ≡ code_as (code_of edition (slot_of slot) octet) }
{
    match slot {
        0 => Some(octet),
        1 => control_code(edition, octet),
        2 => if octet == 0xfe {
            None
        } else {
            control_code(edition, octet)
        },
        3 => match octet {
            0x5c => Some(15),
            0x9c => Some(0),
            _ => None,
        },
        4 => if octet == 0xfb { Some(0) } else { None },
        _ => if octet == 0xfd { Some(0) } else { None },
    }
}

// The code of field i of row r for its octet of the eight, if it has one.
pub fn field_code(edition: Edition, r: usize, i: usize, lanes: u64) -> Option<u8>
    requires { (r < 16) × (i < 8) }
    ensures { result ≡ code_as (field_code edition r i lanes) }
{
    let field = (rows::fields_of(r) >> (8 * i)) % 256;
    let octet = (lanes >> (8 * (field % 8))) % 256;
    code_of(edition, field / 8, octet as u8)
}

// A code at the place of field i of row r.
pub fn placed(r: usize, i: usize, code: u8) -> u64
    requires { (r < 16) × (i < 8) × (code < 2 ^ (field_in r i).bits) }
    ensures { result ≡ 2 ^ place_of_field r i * code }
{
    let place = (rows::places_of(r) >> (8 * i)) % 64;
    u64::from(code) << place
}
