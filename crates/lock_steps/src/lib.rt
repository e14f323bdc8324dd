// One block in lock: it is tested, the block held is answered, and it is held in turn. A run of such blocks, from where it begins to where it
// has come.
#![tactic(auto)]

ghost use Rattle.std.specs.Prelude.{◌≡◌, true, false, cond, ◌+◌, ◌*◌, ◌≤◌, ◌<◌, ltb, length, ◌⊎◌, IfSome};
ghost use Rattle.block.specs.Block.{decoded, class_of, kind_in, is_error};
ghost use Rattle.block.specs.declared.Edition.{Edition};
ghost use Rattle.scrambler.specs.Scrambler.{descrambled, line_after};
ghost use Rattle.diagrams.specs.Diagram.{follows};
ghost use Rattle.vectors.specs.Vector.{vector_bytes};
ghost use Rattle.blocks.specs.Blocks.{header_at, payload_at};
ghost use Rattle.receiving.specs.Receive.{decodes, errs};
ghost use Rattle.receiving.specs.Loop.{Stretches};
ghost use Rattle.lock_steps.specs.InLock.{InLock, GoesTo, Comes, Is, ran_of, Steps, MoreAhead, stretch_state};

use answering::hand_out;
use block::{Class, Edition};
use counting::count_vector;
use decoding::kind_in;
use diagram_steps::{diagram_step, may_follow};
use diagrams::State;
use line::Block;
use lock::{Lock, Rate};
use quick_decoding::{Decoded, quick};
use receiving::{Counts, Handed, Held, Link, Progress, Receiver};
use scrambler::descramble;
use vectors::{Vector, put_vector};

// How far a run of blocks in lock has come: where its next vector goes, how many blocks it has, the last 58 payload bits, the state of the
// diagram, class and vector of the block held, and what its vectors are counted for. What else there is of a receiver follows from where
// the run began.
#[derive(Clone, Copy, Debug, PartialEq, Eq)]
pub struct Run {
    pub at: usize,
    pub count: u64,
    pub history: u64,
    pub state: State,
    pub class: Class,
    pub vector: Vector,
    pub handed: Handed,
}

// A run of no block.
pub fn starting(p: Progress) -> Run
    requires { InLock p × (p.receiver.link.lock.tested < 64) }
    ensures { (ran_of p result ≡ p) × (result.count ≡ 0) }
{
    Run {
        at: p.at,
        count: 0,
        history: p.receiver.link.history,
        state: p.receiver.state,
        class: p.receiver.held.class,
        vector: p.receiver.held.vector,
        handed: p.handed,
    }
}

// How many invalid headers are counted on after so many valid ones: none once the count of tested headers was full.
fn kept(lock: Lock, count: u64) -> u64
    requires { (lock.tested < 64) × (count < 19531) }
    ensures { result ≡ cond (ltb (lock.tested + count) 64) lock.invalid 0 }
{
    if lock.tested + count < 64 {
        lock.invalid
    } else {
        0
    }
}

// The receiver that a run has come to.
pub fn ran(p: Progress, s: Run) -> Progress
    requires { (p.receiver.link.lock.tested < 64) × (p.receiver.link.rate.blocks + s.count < 19531) × (p.pos + 66 * s.count ≤ 6600000) × (p.counts.tested + s.count ≤ 6600000) }
    ensures { result ≡ ran_of p s }
{
    let link = p.receiver.link;
    Progress {
        receiver: Receiver {
            skip: false,
            link: Link {
                lock: Lock {
                    tested: (link.lock.tested + s.count) % 64,
                    invalid: kept(link.lock, s.count),
                    locked: true,
                },
                rate: Rate {
                    blocks: link.rate.blocks + s.count,
                    high: false,
                    ..link.rate
                },
                history: s.history,
                ..link
            },
            state: s.state,
            have: true,
            held: Held {
                on: true,
                slipped: false,
                class: s.class,
                vector: s.vector,
            },
            ..p.receiver
        },
        pos: p.pos + 66 * (s.count as usize),
        at: s.at,
        counts: Counts {
            tested: p.counts.tested + s.count,
            ..p.counts
        },
        handed: s.handed,
    }
}

// One block tested: the block held goes to a state that answers it as decoded.
fn steady_step(
    line: &[u8],
    room: &mut [u8],
    p: Progress,
    s: Run,
    b: Block,
    history: u64,
    state: State,
    held: Decoded,
) -> Run
    requires { (length line.now ≤ 825000) × Comes line.now room.old (ran_of p s) b.header b.payload × Is (ran_of p s) b.header b.payload held.class held.vector × GoesTo state s.state s.class × (decodes state ≡ true) × (errs state ≡ false) × (history ≡ line_after b.payload s.history) }
    ensures { Steps line.now room.old room.new b.payload (ran_of p s) (ran_of p result) × (result.state ≡ state) × (result.class ≡ held.class) × (result.count ≡ s.count + 1) }
{
    put_vector(room, s.at, s.vector);
    Run {
        at: s.at + 10,
        count: s.count + 1,
        history,
        state,
        class: held.class,
        vector: held.vector,
        handed: count_vector(s.handed, s.class, true),
    }
}

// One block tested: the block held is answered by the state that it goes to; ends says that a frame may end there.
fn general_step(
    line: &[u8],
    room: &mut [u8],
    p: Progress,
    s: Run,
    b: Block,
    history: u64,
    ends: bool,
    next: Decoded,
) -> Run
    requires { (length line.now ≤ 825000) × Comes line.now room.old (ran_of p s) b.header b.payload × Is (ran_of p s) b.header b.payload next.class next.vector × (ends ≡ follows (kind_in next.class)) × (history ≡ line_after b.payload s.history) }
    ensures { Steps line.now room.old room.new b.payload (ran_of p s) (ran_of p result) × (result.count ≡ s.count + 1) }
{
    let state = diagram_step(s.state, kind_in(s.class), ends);
    let held = Held {
        on: true,
        slipped: false,
        class: s.class,
        vector: s.vector,
    };
    let out = hand_out(s.handed, state, held);
    put_vector(room, s.at, out.vector);
    Run {
        at: s.at + 10,
        count: s.count + 1,
        history,
        state,
        class: next.class,
        vector: next.vector,
        handed: out.handed,
    }
}

// A block that is decoded at once, eight low power idles of the newer edition too.
fn at_once(edition: Edition, header: u64, payload: u64) -> Option<Decoded>
    ensures { IfSome result (λ q. (q.class ≡ class_of edition header payload) × (vector_bytes q.vector ≡ decoded edition header payload) × (is_error (kind_in q.class) ≡ false)) }
{
    let q = quick(header, payload);
    if q.is_none() && payload == 0x0c183060c183061e && header == 1 && edition == Edition::New {
        return Some(Decoded {
            class: Class::LI,
            vector: Vector {
                c0: 15,
                c1: 15,
                d0: 0x06060606,
                d1: 0x06060606,
            },
        });
    }
    q
}

// One block more, if it is decoded at once: the block held is answered.
pub fn single(line: &[u8], room: &mut [u8], p: Progress, s: Run, b: Block) -> Run
    requires { (length line.now ≤ 825000) × MoreAhead line.now room.old (ran_of p s) 1 × (b.header ≡ header_at line.now (p.pos + 66 * s.count)) × (b.payload ≡ payload_at line.now (p.pos + 66 * s.count)) }
    ensures { Stretches line.now room.old room.new (ran_of p s) (ran_of p result) × InLock (ran_of p result) × (s.count < result.count → result.count ≡ s.count + 1) }
{
    let plain = descramble(b.payload, s.history);
    match at_once(p.receiver.link.edition, b.header, plain.word) {
        Some(q) => {
            let ends = may_follow(kind_in(q.class));
            general_step(line, room, p, s, b, plain.history, ends, q)
        }
        None => s,
    }
}

// The vector of a data block.
fn octets(x: u64) -> Vector
    ensures { (ed : Edition) → vector_bytes result ≡ decoded ed 2 x }
{
    Vector {
        c0: 0,
        d0: (x % 4294967296) as u32,
        c1: 0,
        d1: (x / 4294967296) as u32,
    }
}

// Eight idles.
fn idle() -> Vector
    ensures { (ed : Edition) → vector_bytes result ≡ decoded ed 1 0x1e }
{
    Vector {
        c0: 15,
        d0: 0x07070707,
        c1: 15,
        d1: 0x07070707,
    }
}

// A block of a stretch: of data blocks, whose headers are 2, or of eight idles each, whose headers are 1.
pub fn stretch_step<const HEADER: u64>(
    line: &[u8],
    room: &mut [u8],
    p: Progress,
    s: Run,
    payload: u64,
) -> Run
    requires { (length line.now ≤ 825000) × Comes line.now room.old (ran_of p s) HEADER payload × GoesTo (stretch_state HEADER) s.state s.class × ((HEADER ≡ 2) ⊎ ((HEADER ≡ 1) × (descrambled payload s.history ≡ 0x1e))) }
    ensures { Steps line.now room.old room.new payload (ran_of p s) (ran_of p result) × GoesTo (stretch_state HEADER) result.state result.class × (result.count ≡ s.count + 1) }
{
    let plain = descramble(payload, s.history);
    let b = Block {
        header: HEADER,
        payload,
    };
    if HEADER == 2 {
        let held = Decoded {
            class: Class::D,
            vector: octets(plain.word),
        };
        steady_step(line, room, p, s, b, plain.history, State::Data, held)
    } else {
        let held = Decoded {
            class: Class::C,
            vector: idle(),
        };
        steady_step(line, room, p, s, b, plain.history, State::Control, held)
    }
}
