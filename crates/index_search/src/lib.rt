// Finding the n-th error vector with an index: document 02, 8/13.
#![tactic(auto)]

ghost use Rattle.std.specs.Prelude.{◌≡◌, ℕ, ◌+◌, ◌*◌, ◌<◌, ◌≤◌, length};
ghost use Rattle.block.specs.Block.{vector_list};
ghost use Rattle.index.specs.Index.{entry_count};
ghost use Rattle.index_search.specs.Search.{halved};
ghost use Rattle.index_search.specs.Answer.{find_answer, answer_of};
ghost use Rattle.index_search.specs.Parts.{found_by, IsNth};

use index::entries;
use line::load_half;
use refusals::{Refusal, Refused};
use vector_checks::check_vectors;
use vector_tests::{is_error, vector_of};

// Where an error vector was found: its number, and how many entries were read.
#[derive(Clone, Copy, Debug, PartialEq, Eq)]
pub struct Place {
    pub vector: usize,
    pub read: usize,
}

// The entry that remains, and how many entries were read.
#[derive(Clone, Copy, Debug, PartialEq, Eq)]
pub struct Halved {
    pub entry: usize,
    pub read: usize,
}

// A range of entries is halved until one remains. A search of the library does not say how many entries it read, which `find_answer` fixes.
fn halve(index: &[u8], n: u64, low: usize, len: usize) -> Halved
    requires { (0 < len) × (8 * (low + len) ≤ length index.now) }
    ensures { (enough : ℕ) → len ≤ enough → result ≡ halved enough index.now n low len }
{
    if len <= 1 {
        return Halved {
            entry: low,
            read: 1,
        };
    }
    let half = len / 2;
    let middle = low + half;
    let rest = if load_half(index, 8 * middle) < n {
        halve(index, n, middle, len - half)
    } else {
        halve(index, n, low, half)
    };
    Halved {
        read: rest.read + 1,
        ..rest
    }
}

// Which of these vectors is the n-th error vector, n from 1.
fn nth_error(vectors: &[u8], n: u64) -> Option<usize>
    ensures { IsNth n (vector_list vectors.now) result }
{
    let mut left = n;
    for (i, vector) in vectors.chunks_exact(10).enumerate() {
        if is_error(vector_of(vector)) {
            if left == 1 {
                return Some(i);
            }
            left = left.saturating_sub(1);
        }
    }
    None
}

// Finding with an index of the right length: among the at most 64 vectors after the entry that remains.
fn find_in(bytes: &[u8], index: &[u8], n: u64) -> Result<Place, Refused>
    requires { (length bytes.now ≤ 1000000) × (length index.now ≡ 8 * entry_count (vector_list bytes.now)) }
    ensures { answer_of result ≡ found_by bytes.now index.now n }
{
    let Halved { entry, read } = halve(index, n, 0, entries(bytes));
    let from = 64 * entry;
    let to = (from + 64).min(bytes.len() / 10);
    let left = n.saturating_sub(load_half(index, 8 * entry));
    match nth_error(&bytes[10 * from..10 * to], left) {
        Some(i) => Ok(Place {
            vector: from + i,
            read,
        }),
        None => Err(Refused(Refusal::NoSuchVector, 0)),
    }
}

// Where the n-th error vector is, n from 1.
pub fn find_error(vectors: &[u8], index: &[u8], n: u64) -> Result<Place, Refused>
    ensures { answer_of result ≡ find_answer vectors.now index.now n }
{
    check_vectors(vectors)?;
    if index.len() != 8 * entries(vectors) {
        return Err(Refused(Refusal::Range, 0));
    }
    find_in(vectors, index, n)
}
