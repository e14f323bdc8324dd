// The state after a call, from the state before it and what the receiver did: the numbers, added up.
#![tactic(auto)]

ghost use Rattle.std.specs.Prelude.{◌≡◌, ◌≤◌};
ghost use Rattle.receiving.specs.Parts.{plus, plus_handed};
ghost use Rattle.receiving.specs.Counted.{Within, HandedWithin};
ghost use Rattle.advancing.specs.Coded.{SumsFit, progressed, closed_with};

use diagrams::state_number;
use kept_state::{Kept, State, kept_of};
use receiving::{Counts, Handed, Progress};

// The counts of blocks, with those that a call added. An `impl Add` would be no plainer: it would stand in the crate `receiving`, apart from the
// bound that only these sums have.
fn plus_counts(a: Counts, b: Counts) -> Counts
    requires { Within 1000000 a × Within 1000000 b }
    ensures { result ≡ plus a b }
{
    Counts {
        tested: a.tested + b.tested,
        slips: a.slips + b.slips,
        headers: a.headers + b.headers,
        types: a.types + b.types,
        codes: a.codes + b.codes,
        sets: a.sets + b.sets,
    }
}

// The counts of vectors, with those that a call added.
fn plus_handed(a: Handed, b: Handed) -> Handed
    requires { HandedWithin 1000000 a × HandedWithin 1000000 b }
    ensures { result ≡ plus_handed a b }
{
    Handed {
        begun: a.begun + b.begun,
        replaced: a.replaced + b.replaced,
    }
}

// The state after a receiver's progress over so many bytes.
#[tactic(auto, unfolding(receiving::specs::Loop::held_in))]
#[inline(always)]
pub fn next_state(s: State, line: usize, p: Progress) -> State
    requires { SumsFit s line p }
    ensures { result ≡ progressed s line p }
{
    let r = p.receiver;
    State {
        closed: false,
        bytes: s.bytes + line as u64,
        edition: s.edition,
        lock: r.link.lock,
        rate: r.link.rate,
        history: r.link.history,
        carried: r.carried,
        skip: r.skip,
        diagram: state_number(r.state),
        have: r.have,
        held: kept_of(r.have, r.held),
        counts: plus_counts(s.counts, p.counts),
        vectors: s.vectors + (p.at / 10) as u64,
        handed: plus_handed(s.handed, p.handed),
    }
}

// The state after the closing call, whose vector adds to the counts.
#[tactic(auto, unfolding(kept_state::specs::Meaning::kept_for))]
#[inline(always)]
pub fn closed_state(s: State, last: Handed) -> State
    requires { (s.vectors ≤ 1000000) × HandedWithin 1000000 s.handed × HandedWithin 1000000 last }
    ensures { result ≡ closed_with s last }
{
    State {
        closed: true,
        have: false,
        held: Kept::default(),
        vectors: s.vectors + u64::from(s.have),
        handed: plus_handed(s.handed, last),
        ..s
    }
}
