// Bursts through C: byte slices and 64-bit numbers. include/holzmotte.h says what each pointer is.
#![tactic(auto)]

ghost use Rattle.std.specs.Prelude.{◌≡◌, cond, ◌^◌, ◌<◌, ◌≤◌, length};
ghost use Rattle.std.specs.Result.{ForErr};
ghost use Rattle.refusals.specs.Refused.{verdict_of};
ghost use Rattle.lent_words.specs.Words.{result_of};
ghost use Rattle.receiving.specs.Answer.{answer_of};
ghost use Rattle.slices.specs.Slices.{short_slice};
ghost use Rattle.holzmotte_bursts.specs.Boundary.{BeginsThroughC, burst_left, close_left, Leaves};
ghost use Rattle.holzmotte_bursts.specs.Coded.{AnswerFits, LeftBy};

use bursts::{Reply, begin, burst, close};
use counters::add_counts;
use lent_words::{refusal, result_of};
use refusals::{Refusal, Refused};
use slices::{clear, load_counters, put_summary, short_slice, store_counters};
use stored::{load_state, store_state};

// A fresh state of an edition to lent bytes, or what it is refused for.
fn begun(edition: u64, state: &mut [u8]) -> Result<(), Refused>
    ensures comes { BeginsThroughC edition state.old (result_of (verdict_of result)) state.new }
    ensures fits { ForErr result (λ r. r.1 < 2 ^ 56) }
{
    let s = begin(edition)?;
    if state.len() < 232 {
        return Err(Refused(Refusal::Room, 0));
    }
    store_state(state, s);
    Ok(())
}

// A fresh state of an edition (0 old, 1 new) in lent bytes.
pub fn holzmotte_begin(edition: u64, state: &mut [u8]) -> u64
    ensures { BeginsThroughC edition state.old result state.new }
{
    result_of(begun(edition, state))
}

// What a reply leaves in the slices, which are long enough where it is no refusal, and the result.
#[inline(always)]
fn answered(state: &mut [u8], summary: &mut [u8], counters: &mut [u8], r: Reply) -> u64
    requires { (232 ≤ length state.old) × AnswerFits (answer_of r.answer) (length summary.old) (length counters.old) }
    ensures { LeftBy (answer_of r.answer) r.state r.added state.old summary.old counters.old result state.new summary.new counters.new }
{
    match r.answer {
        Ok(s) => {
            store_state(state, r.state);
            put_summary(summary, s);
            let before = load_counters(counters);
            store_counters(counters, add_counts(before, r.added.counts, r.added.handed));
            0
        }
        Err(refused) => {
            clear(summary);
            refusal(refused)
        }
    }
}

// How many bytes of a room are lent: none where the summary or the counters are too short, and so the call is refused.
fn lent(room: usize, summary: usize, counters: usize) -> usize
    ensures { (result ≡ cond (short_slice summary counters) 0 room) × (result ≤ room) }
{
    if short_slice(summary, counters) {
        0
    } else {
        room
    }
}

// One more part of a line: vectors to the room, twelve words to the summary, and the state after it in the state's bytes; what was counted
// is added to the counters.
pub fn holzmotte_burst(
    state: &mut [u8],
    line: &[u8],
    vectors: &mut [u8],
    summary: &mut [u8],
    counters: &mut [u8],
) -> u64
    ensures { Leaves (burst_left state.old line.now vectors.old summary.old counters.old) result state.new vectors.new summary.new counters.new }
{
    if state.len() < 232 {
        clear(summary);
        return 4;
    }
    let s = load_state(state);
    let n = lent(vectors.len(), summary.len(), counters.len());
    let r = burst(s, line, &mut vectors[0..n]);
    answered(state, summary, counters, r)
}

// The closing call: the last vector to the room, and the rest as a burst does. One function for both would be no plainer: it would take a flag,
// or a closure with a contract on the room that it leaves.
pub fn holzmotte_close(
    state: &mut [u8],
    vectors: &mut [u8],
    summary: &mut [u8],
    counters: &mut [u8],
) -> u64
    ensures { Leaves (close_left state.old vectors.old summary.old counters.old) result state.new vectors.new summary.new counters.new }
{
    if state.len() < 232 {
        clear(summary);
        return 4;
    }
    let s = load_state(state);
    let n = lent(vectors.len(), summary.len(), counters.len());
    let r = close(s, &mut vectors[0..n]);
    answered(state, summary, counters, r)
}
