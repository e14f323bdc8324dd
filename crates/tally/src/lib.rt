// How many error vectors and vectors of kind S there are among some vectors of a list.
#![tactic(auto)]

ghost use Rattle.std.specs.Prelude.{◌≡◌, ◌≤◌, length, get_or};
ghost use Rattle.control_bytes.specs.Control.{Low};
ghost use Rattle.lent_words.specs.Words.{flag_word};
ghost use Rattle.block.specs.Block.{vector_list, is_error_vector};
ghost use Rattle.vector_tests.specs.Tests.{of_kind_s};
ghost use Rattle.tally.specs.Tally.{tally_of};

use lent_words::flag;
use vector_tests::{is_error, is_start, vector_of};

#[derive(Clone, Copy, Debug, Default, PartialEq, Eq)]
pub struct Tally {
    pub errors: u64,
    pub starts: u64,
}

// Of one vector. One whose first word is all data is neither; the error vector is not of kind S: it is of kind E.
fn one_of(vector: &[u8]) -> Tally
    requires { (length vector.now ≡ 10) × (get_or vector.now 0 0 ≤ 15) × (get_or vector.now 5 0 ≤ 15) }
    ensures { (result.errors ≡ flag_word (is_error_vector vector.now)) × (result.starts ≡ flag_word (of_kind_s vector.now)) }
{
    let v = vector_of(vector);
    if v.c0 == 0 {
        return Tally::default();
    }
    if is_error(v) {
        return Tally {
            errors: 1,
            starts: 0,
        };
    }
    Tally {
        errors: 0,
        starts: flag(is_start(v)),
    }
}

// Of these vectors. By the number of a vector, not by `chunks_exact`: with that an index of 100,000 vectors took 292 us in place of 168.
pub fn tally_of(vectors: &[u8]) -> Tally
    requires { Low vectors.now }
    ensures { result ≡ tally_of (vector_list vectors.now) }
{
    let mut tally = Tally::default();
    for i in 0..vectors.len() / 10 {
        let one = one_of(&vectors[10 * i..10 * i + 10]);
        tally.errors += one.errors;
        tally.starts += one.starts;
    }
    tally
}
