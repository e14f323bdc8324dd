// The C boundary of the index: byte slices and 64-bit numbers. include/holzmotte.h says what each pointer is.
#![tactic(auto)]

ghost use Rattle.holzmotte_index.specs.Boundary.{IndexesThroughC, CountsThroughC, FindsThroughC};

use index::build;
use index_count::count;
use index_search::find_error;
use lent_words::{refusal, told};

// Builds the index of a list of vectors, which fills the lent slice.
pub fn holzmotte_index(vectors: &[u8], index: &mut [u8]) -> u64
    ensures { IndexesThroughC vectors.now index.old result index.new }
{
    match build(vectors, index) {
        Ok(()) => 0,
        Err(refused) => refusal(refused),
    }
}

// Counts error vectors and vectors of kind S, from vector a up to but not vector b: two words to the summary.
pub fn holzmotte_count(vectors: &[u8], index: &[u8], a: u64, b: u64, summary: &mut [u8]) -> u64
    ensures { CountsThroughC vectors.now index.now a b summary.old result summary.new }
{
    match count(vectors, index, a, b) {
        Ok(tally) => told(summary, &[tally.errors, tally.starts]),
        Err(refused) => {
            told(summary, &[0; 2]);
            refusal(refused)
        }
    }
}

// Finds the n-th error vector, n from 1: its number and the entries read to the summary.
pub fn holzmotte_find_error(vectors: &[u8], index: &[u8], n: u64, summary: &mut [u8]) -> u64
    ensures { FindsThroughC vectors.now index.now n summary.old result summary.new }
{
    match find_error(vectors, index, n) {
        Ok(place) => told(summary, &[place.vector as u64, place.read as u64]),
        Err(refused) => {
            told(summary, &[0; 2]);
            refusal(refused)
        }
    }
}
