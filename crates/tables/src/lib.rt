// The types of blocks, their kinds, and the editions.
#![tactic(auto)]

ghost use Rattle.std.specs.Prelude.{◌≡◌, ◌<◌, get_or};
ghost use Rattle.block.specs.Block.{edition_of, low_power, kind_for};
ghost use Rattle.block.specs.Rows.{row};
ghost use Rattle.block.specs.Types.{types};
ghost use Rattle.vectors.specs.Vector.{vector_bytes};
ghost use Rattle.tables.specs.Tables.{type_word};

use block::{Edition, Kind};
use vectors::Vector;

// The edition of a number: 0 is the old one, and any other is read as the new one. So it cannot fail and is no `TryFrom`; its name says more than
// a `From` would.
pub fn edition_of(n: u64) -> Edition
    ensures { result ≡ edition_of n }
{
    if n == 0 { Edition::Old } else { Edition::New }
}

// What each byte means as a type: one constant table of 256 entries of four bits each, sixteen to a word, the lowest byte's first. The entry of a type
// is its row; that of any other byte is 0.
fn type_word(k: u64) -> u64
    requires { k < 16 }
    ensures { result ≡ type_word k }
{
    match k {
        0 => 0x0000000000000000,
        1 => 0x0100000000000000,
        2 => 0x0020000000000000,
        3 => 0x0000000000003000,
        4 => 0x0000700000000000,
        5 => 0x0000000000500000,
        6 => 0x0000000004000000,
        7 => 0x0000000600000000,
        8 => 0x0000000080000000,
        9 => 0x0000009000000000,
        10 => 0x00000a0000000000,
        11 => 0x00000000000b0000,
        12 => 0x000c000000000000,
        13 => 0x0000000000000d00,
        14 => 0x00000000000000e0,
        15 => 0xf000000000000000,
        _ => 0,
    }
}

// The entry of a byte.
pub fn type_row(y: u64) -> usize
    requires { y < 256 }
    ensures { result ≡ get_or types y 0 }
{
    ((type_word(y / 16) >> (4 * (y % 16))) % 16) as usize
}

// The kind of a row.
fn kind_at(r: usize) -> Kind
    requires { r < 16 }
    ensures { result ≡ (row r).kind }
{
    match r {
        0 => Kind::D,
        1 | 2 | 5 | 7 => Kind::C,
        3 | 4 | 6 => Kind::S,
        _ => Kind::T,
    }
}

// Whether a vector of row r is low power idle; row 1 is type 1e.
fn low_power(r: usize, v: Vector) -> bool
    requires { r < 16 }
    ensures { result ≡ low_power (row r) (vector_bytes v) }
{
    r == 1 && v.c0 == 0x0f && v.c1 == 0x0f && v.d0 == 0x06060606 && v.d1 == 0x06060606
}

// The kind of a valid vector of row r.
pub fn kind_of(r: usize, v: Vector) -> Kind
    requires { r < 16 }
    ensures { result ≡ kind_for (row r) (vector_bytes v) }
{
    if low_power(r, v) {
        Kind::LI
    } else {
        kind_at(r)
    }
}
