// A line that arrives in bursts: document 02, 2/13. What a call goes through is compiled into it, so that no state of 232 bytes is copied on the way.
#![tactic(auto)]

ghost use Rattle.std.specs.Prelude.{◌≡◌, length};
ghost use Rattle.refusals.specs.Number.{number_of};
ghost use Rattle.receiving.specs.Answer.{received, answer_of};
ghost use Rattle.receiving.specs.Answer as Answer;
ghost use Rattle.receiving.specs.Parts.{no_counts, none_handed};
ghost use Rattle.bursts.specs.Burst.{Begins, summary_in, Replies, burst_call, close_call};
ghost use Rattle.bursts.specs.Coded.{AcceptedFrom};

use advancing::{closed_state, next_state};
use judging::judge;
use kept_state::{State, receiver_of};
use receiving::{Counts, Handed, Receiver, Summary};
use reception::{receive_last, receive_more};
use refusals::{Refusal, Refused};

// What a call added: the counts of the blocks that it tested, and of the vectors that it handed out.
#[derive(Clone, Copy, Debug, Default, PartialEq, Eq)]
pub struct Added {
    pub counts: Counts,
    pub handed: Handed,
}

// What a call hands back: the state after it, its answer, and what it added. A refusal's state is the one that was handed in.
#[derive(Clone, Copy)]
pub struct Reply {
    pub state: State,
    pub answer: Result<Summary, Refused>,
    pub added: Added,
}

// The state of an edition (0 old, 1 new) before the first bit.
#[tactic(auto, unfolding(crate::specs::Burst::begin_answer, refusals::specs::First::first, kept_state::specs::Meaning::kept_for, bits::specs::Bits::number))]
pub fn begin(edition: u64) -> Result<State, Refused>
    ensures { Begins edition result }
{
    if 1 < edition {
        return Err(Refused(Refusal::UnknownEdition, 0));
    }
    Ok(State {
        edition,
        ..State::default()
    })
}

// The summary of the line so far.
#[inline(always)]
fn summary_of(s: State, alone: bool) -> Summary
    ensures { result ≡ summary_in s alone }
{
    Summary {
        counts: s.counts,
        locked: s.lock.locked,
        high: s.rate.high,
        vectors: s.vectors,
        alone,
        handed: s.handed,
    }
}

// What an accepted call hands back.
#[inline(always)]
fn accepted(next: State, alone: bool, added: Added) -> Reply
    ensures { (result.state ≡ next) × (answer_of result.answer ≡ received (summary_in next alone)) × (result.added ≡ added) }
{
    Reply {
        state: next,
        answer: Ok(summary_of(next, alone)),
        added,
    }
}

// What a refused call hands back.
#[inline(always)]
fn refused(s: State, why: Refusal) -> Reply
    ensures { (result.state ≡ s) × (answer_of result.answer ≡ Answer.refused (number_of why) 0) × (result.added ≡ record { counts = no_counts; handed = none_handed }) }
{
    Reply {
        state: s,
        answer: Err(Refused(why, 0)),
        added: Added::default(),
    }
}

// An accepted burst, from the receiver that its state means.
#[inline(always)]
fn burst_from(s: State, line: &[u8], room: &mut [u8], start: Receiver) -> Reply
    requires { AcceptedFrom s (length line.now) (length room.old) start }
    ensures { Replies (burst_call s line.now room.old) result room.new }
{
    let p = receive_more(line, room, start);
    let next = next_state(s, line.len(), p);
    let added = Added {
        counts: p.counts,
        handed: p.handed,
    };
    accepted(next, false, added)
}

// An accepted closing call.
#[inline(always)]
fn close_from(s: State, room: &mut [u8], start: Receiver) -> Reply
    requires { AcceptedFrom s 0 (length room.old) start }
    ensures { Replies (close_call s room.old) result room.new }
{
    let last = receive_last(room, 0, start, Handed::default());
    let next = closed_state(s, last.handed);
    let added = Added {
        handed: last.handed,
        ..Added::default()
    };
    accepted(next, last.alone, added)
}

// One more part of a line: the vectors of all blocks but the last go to the room, from its start.
#[inline(always)]
pub fn burst(s: State, line: &[u8], room: &mut [u8]) -> Reply
    ensures { Replies (burst_call s line.now room.old) result room.new }
{
    match judge(s, line.len(), room.len()) {
        Err(why) => refused(s, why),
        Ok(()) => burst_from(s, line, room, receiver_of(s)),
    }
}

// The end of the line: the last vector, if there is one, goes to the start of the room.
#[inline(always)]
pub fn close(s: State, room: &mut [u8]) -> Reply
    ensures { Replies (close_call s room.old) result room.new }
{
    match judge(s, 0, room.len()) {
        Err(why) => refused(s, why),
        Ok(()) => close_from(s, room, receiver_of(s)),
    }
}
