// A vector as the code holds it, and its ten bytes in a room.
#![tactic(auto)]

ghost use Rattle.std.specs.Prelude.{◌≡◌, ◌++◌, ◌+◌, ◌≤◌, length, take, drop};
ghost use Rattle.vectors.specs.Vector.{vector_bytes};

// A vector: two words, each a control byte and four lanes, lane 0 lowest. The control bytes stand together, so that no gap of three bytes is
// copied with it.
#[derive(Clone, Copy, Debug, Default, PartialEq, Eq)]
pub struct Vector {
    pub c0: u8,
    pub c1: u8,
    pub d0: u32,
    pub d1: u32,
}

// The ten bytes of a vector.
pub fn bytes_of(v: Vector) -> [u8; 10]
    ensures { result ≡ vector_bytes v }
{
    let [a, b, c, d] = v.d0.to_le_bytes();
    let [e, f, g, h] = v.d1.to_le_bytes();
    [v.c0, a, b, c, d, v.c1, e, f, g, h]
}

// A vector's ten bytes, from byte at on.
pub fn put_vector(room: &mut [u8], at: usize, v: Vector)
    requires { at + 10 ≤ length room.old }
    ensures { room.new ≡ take at room.old ++ (vector_bytes v ++ drop (at + 10) room.old) }
{
    room[at..at + 10].copy_from_slice(&bytes_of(v));
}
