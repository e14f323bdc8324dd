// The index of a list of vectors: document 02, 8/13.
#![tactic(auto)]

ghost use Rattle.std.specs.Prelude.{◌≡◌, [], ◌∷◌, ◌++◌, ◌+◌, ◌*◌, ◌≤◌, ◌<◌, length, take, drop};
ghost use Rattle.control_bytes.specs.Control.{Low};
ghost use Rattle.lent_words.specs.Words.{word_bytes};
ghost use Rattle.block.specs.Block.{vector_list};
ghost use Rattle.index.specs.Index.{entry_count, index_for};
ghost use Rattle.index.specs.Answer.{Builds};

use line::store_half;
use refusals::{Refusal, Refused};
use tally::{Tally, tally_of};
use vector_checks::check_vectors;

// How many entries the index of so many vector bytes has.
pub fn entries(vectors: &[u8]) -> usize
    ensures { result ≡ entry_count (vector_list vectors.now) }
{
    vectors.len() / 10 / 64 + 1
}

// Entry k: what stands before its vectors.
fn put_entry(index: &mut [u8], k: usize, before: Tally)
    requires { 8 * (k + 1) ≤ length index.old }
    ensures { index.new ≡ take (8 * k) index.old ++ word_bytes 4 (before.errors ∷ before.starts ∷ []) ++ drop (8 * k + 8) index.old }
{
    store_half(index, 8 * k, before.errors);
    store_half(index, 8 * k + 4, before.starts);
}

// Every entry. The last has no vectors after it that another entry counts.
fn fill(bytes: &[u8], index: &mut [u8])
    requires { (length bytes.now ≤ 1000000) × Low bytes.now × (length index.old ≡ 8 * entry_count (vector_list bytes.now)) }
    ensures { index.new ≡ index_for (vector_list bytes.now) }
{
    let last = bytes.len() / 640;
    let mut before = Tally::default();
    for k in 0..last {
        put_entry(index, k, before);
        let tally = tally_of(&bytes[640 * k..640 * k + 640]);
        before.errors += tally.errors;
        before.starts += tally.starts;
    }
    put_entry(index, last, before);
}

// Builds the index of a list of vectors in lent memory of exactly its length.
pub fn build(vectors: &[u8], index: &mut [u8]) -> Result<(), Refused>
    ensures { Builds vectors.now index.old result index.new }
{
    check_vectors(vectors)?;
    if index.len() != 8 * entries(vectors) {
        return Err(Refused(Refusal::Range, 0));
    }
    fill(vectors, index);
    Ok(())
}
