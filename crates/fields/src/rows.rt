// What encoding has to know of each row. Numbers in a `match`, not arrays: the compiler makes a table of them that no call builds anew.
ghost use Rattle.std.specs.Prelude.{◌≡◌, ◌<◌, IfSome, unwrap_or};
ghost use Rattle.block.specs.Rows.{row};
ghost use Rattle.fields.specs.Parts.{fields_by, places_by, first_by, next_by};

// The type of row r.
pub fn type_of(r: usize) -> u64
    requires { r < 16 }
    ensures { result ≡ (row r).type }
{
    match r {
        0 => 0x00,
        1 => 0x1e,
        2 => 0x2d,
        3 => 0x33,
        4 => 0x66,
        5 => 0x55,
        6 => 0x78,
        7 => 0x4b,
        8 => 0x87,
        9 => 0x99,
        10 => 0xaa,
        11 => 0xb4,
        12 => 0xcc,
        13 => 0xd2,
        14 => 0xe1,
        _ => 0xff,
    }
}

// The fields of row r, a byte for each, the first lowest: its character, and above three bits the number of its slot.
pub fn fields_of(r: usize) -> u64
    requires { r < 16 }
    ensures { result ≡ fields_by r }
{
    match r {
        0 => 0x0706_0504_0302_0100,
        1 => 0x1716_1514_1312_1110,
        2 => 0x0706_051c_0b0a_0908,
        3 => 0x0706_0524_0b0a_0908,
        4 => 0x0706_0524_1803_0201,
        5 => 0x0706_051c_1803_0201,
        6 => 0x0706_0504_0302_0120,
        7 => 0x0f0e_0d0c_1803_0201,
        8 => 0x0f0e_0d0c_0b0a_0928,
        9 => 0x0f0e_0d0c_0b0a_2900,
        10 => 0x0f0e_0d0c_0b2a_0100,
        11 => 0x0f0e_0d0c_2b02_0100,
        12 => 0x0f0e_0d2c_0302_0100,
        13 => 0x0f0e_2d04_0302_0100,
        14 => 0x0f2e_0504_0302_0100,
        _ => 0x2f06_0504_0302_0100,
    }
}

// Their places in the payload, a byte for each; of a Terminate that is the last, 0.
pub fn places_of(r: usize) -> u64
    requires { r < 16 }
    ensures { result ≡ places_by r }
{
    match r {
        0 => 0x3830_2820_1810_0800,
        1 => 0x3932_2b24_1d16_0f08,
        2 => 0x3830_2824_1d16_0f08,
        3 => 0x3830_2824_1d16_0f08,
        4 => 0x3830_2824_2018_1008,
        5 => 0x3830_2824_2018_1008,
        6 => 0x3830_2820_1810_0808,
        7 => 0x3932_2b24_2018_1008,
        8 => 0x3932_2b24_1d16_0f08,
        9 => 0x3932_2b24_1d16_1008,
        10 => 0x3932_2b24_1d18_1008,
        11 => 0x3932_2b24_2018_1008,
        12 => 0x3932_2b28_2018_1008,
        13 => 0x3932_3028_2018_1008,
        14 => 0x3938_3028_2018_1008,
        _ => 0x0038_3028_2018_1008,
    }
}

// The first row with these control bits, c0 + 16 * c1, if there is one.
pub fn first_row(m: u64) -> Option<usize>
    requires { m < 256 }
    ensures row { unwrap_or result 16 ≡ first_by m }
    ensures inside { IfSome result (λ r. r < 16) }
{
    match m {
        0x00 => Some(0),
        0x01 => Some(6),
        0x11 => Some(4),
        0x1f => Some(2),
        0x80 => Some(15),
        0xc0 => Some(14),
        0xe0 => Some(13),
        0xf0 => Some(12),
        0xf1 => Some(7),
        0xf8 => Some(11),
        0xfc => Some(10),
        0xfe => Some(9),
        0xff => Some(1),
        _ => None,
    }
}

// The next row with the control bits of row r, if there is one.
pub fn next_row(r: usize) -> Option<usize>
    requires { r < 16 }
    ensures row { unwrap_or result 16 ≡ next_by r }
    ensures inside { IfSome result (λ n. n < 16) }
{
    match r {
        1 => Some(8),
        2 => Some(3),
        4 => Some(5),
        _ => None,
    }
}
