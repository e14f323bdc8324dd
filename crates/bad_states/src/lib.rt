// The states that refusal 10 is given for, document 02, 2/13 and 9/13.
#![tactic(auto)]

ghost use Rattle.std.specs.Prelude.{◌≡◌, length};
ghost use Rattle.block.specs.Block.{edition_of};
ghost use Rattle.kept_state.specs.Meaning.{states};
ghost use Rattle.bad_states.specs.BadStates.{any, over_counts, over_summary, at_odds, out_of_range, bad_state};

use kept_state::State;

// A count of the summary above its limit.
fn over_summary(s: State) -> bool
    ensures { result ≡ any (over_summary s) }
{
    let c = s.counts;
    let h = s.handed;
    [
        c.tested, c.slips, s.vectors, c.headers, c.types, c.codes, c.sets, h.begun, h.replaced,
    ]
    .iter()
    .any(|&n| 100000 < n)
}

// A count of the lock, of the window or of line bytes above its limit.
fn over_counts(s: State) -> bool
    ensures { result ≡ any (over_counts s) }
{
    63 < s.lock.tested
        || 15 < s.lock.invalid
        || 19530 < s.rate.blocks
        || 19530 < s.rate.invalid
        || 825000 < s.bytes
}

// Counts that are at odds.
fn at_odds(s: State) -> bool
    ensures { result ≡ any (at_odds s) }
{
    s.lock.tested < s.lock.invalid
        || s.rate.blocks < s.rate.invalid
        || !s.lock.locked && (0 < s.lock.invalid || 0 < s.rate.invalid || s.rate.high)
}

// How many states the diagrams of an edition have.
#[tactic(auto, unfolding(block::specs::Block::edition_of))]
fn states_of(edition: u64) -> u64
    ensures { result ≡ length (states (edition_of edition)) }
{
    if edition == 0 { 5 } else { 6 }
}

// Numbers that mean nothing.
fn out_of_range(s: State) -> bool
    ensures { result ≡ any (out_of_range s) }
{
    0x0400_0000_0000_0000 <= s.history || 65 < s.carried.count || states_of(s.edition) <= s.diagram
}

// Whether refusal 10 is given for a state.
#[tactic(auto, unfolding(crate::specs::BadStates::bad_state))]
#[inline(always)]
pub fn bad_state(s: State) -> bool
    ensures { result ≡ bad_state s }
{
    over_counts(s) || over_summary(s) || at_odds(s) || out_of_range(s)
}
