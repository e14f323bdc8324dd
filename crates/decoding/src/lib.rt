// One received block: its class and its vector.
#![tactic(auto)]

ghost use Rattle.std.specs.Prelude.{◌≡◌, ◌<◌};
ghost use Rattle.block.specs.Block.{error_vector, decoded_by, decoded, good, class_by, class_of, kind_in};
ghost use Rattle.block.specs.Rows.{row};
ghost use Rattle.vectors.specs.Vector.{vector_bytes};
ghost use Rattle.shapes.specs.Shapes.{OfFormat};
ghost use Rattle.decoding.specs.Halves.{both};

use block::{Class, Edition, Kind, Reason};
use characters::four;
use quick_decoding::{Decoded, quick};
use shapes::{Shape, shape_of};
use vectors::{Vector, bytes_of};

// The kind of a class.
pub fn kind_in(c: Class) -> Kind
    ensures { result ≡ kind_in c }
{
    match c {
        Class::D => Kind::D,
        Class::C => Kind::C,
        Class::S => Kind::S,
        Class::T => Kind::T,
        Class::LI => Kind::LI,
        Class::Bad(_) => Kind::E,
    }
}

// The class of a block of this kind that is not bad.
pub fn good_class(k: Kind) -> Class
    ensures { result ≡ good k }
{
    match k {
        Kind::D => Class::D,
        Kind::C => Class::C,
        Kind::S => Class::S,
        Kind::T => Class::T,
        Kind::E => Class::Bad(Reason::BlockType),
        Kind::LI => Class::LI,
    }
}

// A bad block.
fn bad(why: Reason) -> Decoded
    ensures { (result.class ≡ Class.Bad why) × (vector_bytes result.vector ≡ error_vector) }
{
    Decoded {
        class: Class::Bad(why),
        vector: Vector {
            c0: 15,
            d0: 0xfefefefe,
            c1: 15,
            d1: 0xfefefefe,
        },
    }
}

// Both halves of a vector's lanes; else why not, a control code's fault before one of an ordered set.
fn both(low: Result<u32, Reason>, high: Result<u32, Reason>) -> Result<(u32, u32), Reason>
    ensures { result ≡ both low high }
{
    match (low, high) {
        (Ok(d0), Ok(d1)) => Ok((d0, d1)),
        (Err(Reason::ControlCode), _) | (_, Err(Reason::ControlCode)) => Err(Reason::ControlCode),
        _ => Err(Reason::SetCode),
    }
}

// A block of row r, with its shape.
fn decode_row(edition: Edition, r: usize, s: Shape, x: u64) -> Decoded
    requires { (r < 16) × OfFormat (row r) s }
    ensures { (result.class ≡ class_by edition (row r) x) × (vector_bytes result.vector ≡ decoded_by edition (row r) x) }
{
    let low = four(edition, s.places, s.slots, x);
    let high = four(edition, s.places >> 32, s.slots >> 32, x);
    match both(low, high) {
        Ok((d0, d1)) => {
            let vector = Vector {
                c0: s.c0,
                c1: s.c1,
                d0,
                d1,
            };
            Decoded {
                class: good_class(tables::kind_of(r, vector)),
                vector,
            }
        }
        Err(why) => bad(why),
    }
}

// A control block. Kept out of line, so that the quick way in `decode` stays short.
#[inline(never)]
fn decode_control(edition: Edition, payload: u64) -> Decoded
    ensures { (result.class ≡ class_of edition 1 payload) × (vector_bytes result.vector ≡ decoded edition 1 payload) }
{
    let r = tables::type_row(payload % 256);
    if r == 0 {
        return bad(Reason::BlockType);
    }
    // eight low power idles, if the edition has them
    if payload == 0x0c183060c183061e && edition == Edition::New {
        return Decoded {
            class: Class::LI,
            vector: Vector {
                c0: 15,
                c1: 15,
                d0: 0x06060606,
                d1: 0x06060606,
            },
        };
    }
    let s = shape_of(payload % 16);
    decode_row(edition, r, s, payload)
}

// A block with this header (its two bits as a number, block bit 0 the lower) and payload.
pub fn decode(edition: Edition, header: u64, payload: u64) -> Decoded
    ensures { (result.class ≡ class_of edition header payload) × (vector_bytes result.vector ≡ decoded edition header payload) }
{
    if let Some(decoded) = quick(header, payload) {
        return decoded;
    }
    if header == 2 {
        return Decoded {
            class: Class::D,
            vector: Vector {
                c0: 0,
                c1: 0,
                d0: (payload % 4294967296) as u32,
                d1: (payload / 4294967296) as u32,
            },
        };
    }
    if header == 1 {
        return decode_control(edition, payload);
    }
    bad(Reason::Header)
}

// The class of a block; its vector, the error vector where it is bad, goes into out.
pub fn decode_block(edition: Edition, header: u8, payload: u64, out: &mut [u8; 10]) -> Class
    ensures { (result ≡ class_of edition header payload) × (out.new ≡ decoded edition header payload) }
{
    let decoded = decode(edition, u64::from(header), payload);
    *out = bytes_of(decoded.vector);
    decoded.class
}

// The class of a block.
pub fn classify(edition: Edition, header: u8, payload: u64) -> Class
    ensures { result ≡ class_of edition header payload }
{
    let mut out = [0u8; 10];
    decode_block(edition, header, payload, &mut out)
}
