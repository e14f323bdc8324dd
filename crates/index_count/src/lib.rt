// Counting with an index: document 02, 8/13.
#![tactic(auto)]

ghost use Rattle.std.specs.Prelude.{◌≡◌, ◌*◌, ◌/◌, ◌≤◌, length};
ghost use Rattle.control_bytes.specs.Control.{Low};
ghost use Rattle.block.specs.Block.{is_error_vector, vector_list};
ghost use Rattle.vector_tests.specs.Tests.{of_kind_s};
ghost use Rattle.index.specs.Index.{entry_count, errors_at, starts_at};
ghost use Rattle.index_count.specs.Counting.{count_up_to};
ghost use Rattle.index_count.specs.Answer.{counts_with, count_answer, answer_of};

use index::entries;
use line::load_half;
use refusals::{Refusal, Refused};
use tally::{Tally, tally_of};
use vector_checks::check_vectors;

// Up to but not vector a: one entry, and the vectors after it.
fn up_to(bytes: &[u8], index: &[u8], a: usize) -> Tally
    requires { (length bytes.now ≤ 1000000) × Low bytes.now × (length index.now ≡ 8 * entry_count (vector_list bytes.now)) × (a ≤ length bytes.now / 10) }
    ensures { result ≡ record { errors = count_up_to is_error_vector (errors_at index.now) (vector_list bytes.now) a; starts = count_up_to of_kind_s (starts_at index.now) (vector_list bytes.now) a } }
{
    let k = a / 64;
    let t = tally_of(&bytes[640 * k..10 * a]);
    Tally {
        errors: load_half(index, 8 * k) + t.errors,
        starts: load_half(index, 8 * k + 4) + t.starts,
    }
}

// Counting with an index of the right length, where a and b are in range: "subtracts, and holds the result to 0 through b - a".
fn between(bytes: &[u8], index: &[u8], a: usize, b: usize) -> Tally
    requires { (length bytes.now ≤ 1000000) × Low bytes.now × (length index.now ≡ 8 * entry_count (vector_list bytes.now)) × (a ≤ b) × (b ≤ length bytes.now / 10) }
    ensures { answer_of (Ok result) ≡ counts_with bytes.now index.now a b }
{
    let low = up_to(bytes, index, a);
    let high = up_to(bytes, index, b);
    let most = (b - a) as u64;
    Tally {
        errors: high.errors.saturating_sub(low.errors).min(most),
        starts: high.starts.saturating_sub(low.starts).min(most),
    }
}

// How many error vectors and vectors of kind S there are from vector a up to but not vector b.
pub fn count(vectors: &[u8], index: &[u8], a: u64, b: u64) -> Result<Tally, Refused>
    ensures { answer_of result ≡ count_answer vectors.now index.now a b }
{
    check_vectors(vectors)?;
    if b < a || vectors.len() / 10 < b as usize || index.len() != 8 * entries(vectors) {
        return Err(Refused(Refusal::Range, 0));
    }
    Ok(between(vectors, index, a as usize, b as usize))
}
