// Receiving a line, or one more part of one: document 01, 'Diagrams' (Lock, Error rate, Receive), and document 02, 2/13.
#![tactic(auto)]

ghost use Rattle.std.specs.Prelude.{◌≡◌, true, ◌++◌, ◌+◌, ◌*◌, ◌/◌, ◌≤◌, length, take, drop};
ghost use Rattle.carrying.specs.Carrying.{Sound};
ghost use Rattle.receiving.specs.Answer.{Receives, summary_of};
ghost use Rattle.receiving.specs.Receive.{received_vectors};
ghost use Rattle.receiving.specs.Ranges.{InRange};
ghost use Rattle.receiving.specs.Counted.{HandedWithin};
ghost use Rattle.receiving.specs.Loop.{Ends, Fresh, written_by, held_bytes, held_handed, held_alone};

use answering::{judged_alone, settle_held};
use block::{Class, Edition, Reason};
use carrying::Carried;
use diagrams::State;
use hunting::hunt;
use lock::{Lock, Rate};
use locked::stretch;
use receiving::{Counts, Handed, Held, LastVector, Link, Progress, Receiver, Summary};
use refusals::{Refusal, Refused};
use turning::turn;
use vectors::Vector;

// A receiver over one more part of a line: the vectors go to the start of the room, but for that of the last block, which is held. Each turn
// begins with as many blocks as go by quick ways.
pub fn receive_more(line: &[u8], room: &mut [u8], start: Receiver) -> Progress
    requires { (length line.now ≤ 825000) × InRange start.link × Sound start.carried × (length (written_by start line.now) ≤ length room.old) }
    ensures { Ends line.now room.old room.new start result }
{
    let bits = line.len() * 8;
    let mut p = Progress {
        receiver: start,
        pos: 0,
        at: 0,
        counts: Counts::default(),
        handed: Handed::default(),
    };
    while p.pos < bits {
        p = stretch(line, room, p);
        p = hunt(line, room, p);
        p = turn(line, room, p);
    }
    p
}

// The end of the input: the vector of the block that is held, if there is one, goes to the room.
pub fn receive_last(room: &mut [u8], at: usize, r: Receiver, handed: Handed) -> LastVector
    requires { (at + length (held_bytes r.have r.state r.held true) ≤ length room.old) × HandedWithin 6600000 handed }
    ensures { (room.new ≡ take at room.old ++ (held_bytes r.have r.state r.held true ++ drop (at + length (held_bytes r.have r.state r.held true)) room.old)) × (result.handed ≡ held_handed r.have handed r.state r.held true) × (result.alone ≡ held_alone r.have r.state r.held) }
{
    let last = settle_held(room, at, handed, r.have, r.state, r.held, true);
    LastVector {
        handed: last.handed,
        alone: judged_alone(r.have, last.state),
    }
}

// A receiver of an edition before the first bit.
fn fresh(edition: Edition) -> Receiver
    ensures { Fresh edition result }
{
    Receiver {
        skip: false,
        carried: Carried::default(),
        link: Link {
            edition,
            lock: Lock::default(),
            rate: Rate::default(),
            history: 0,
        },
        state: State::Init,
        have: false,
        held: Held {
            on: false,
            slipped: false,
            class: Class::Bad(Reason::Header),
            vector: Vector::default(),
        },
    }
}

// A whole line in an edition: a fresh receiver, one part of a line and the end.
fn receive_all(edition: Edition, line: &[u8], room: &mut [u8]) -> Summary
    requires { (length line.now ≤ 825000) × (10 * (8 * length line.now / 66) ≤ length room.old) }
    ensures { (result ≡ summary_of edition line.now) × (room.new ≡ received_vectors edition line.now ++ drop (length (received_vectors edition line.now)) room.old) }
{
    let p = receive_more(line, room, fresh(edition));
    let last = receive_last(room, p.at, p.receiver, p.handed);
    Summary {
        counts: p.counts,
        locked: p.receiver.link.lock.locked,
        high: p.receiver.link.rate.high,
        vectors: p.counts.tested,
        alone: last.alone,
        handed: last.handed,
    }
}

// Receiving a line in an edition (0 old, 1 new): its vectors go to the room, from its start. The edition is a number, as C hands it over
// (`holzmotte_receive`).
#[tactic(auto, unfolding(receiving::specs::Answer::receive_checks, receiving::specs::Answer::receive_answer, receiving::specs::Answer::receive_room, refusals::specs::First::first))]
pub fn receive(edition: u64, line: &[u8], room: &mut [u8]) -> Result<Summary, Refused>
    ensures { Receives edition line.now room.old result room.new }
{
    if 1 < edition {
        return Err(Refused(Refusal::UnknownEdition, 0));
    }
    if 825000 < line.len() {
        return Err(Refused(Refusal::TooMuch, 0));
    }
    if room.len() < 10 * (8 * line.len() / 66) {
        return Err(Refused(Refusal::Room, 0));
    }
    Ok(receive_all(tables::edition_of(edition), line, room))
}
