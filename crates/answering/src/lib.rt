// The vector of a tested block, once the next block is known.
#![tactic(auto)]

ghost use Rattle.std.specs.Prelude.{◌≡◌, cond, false, ◌++◌, ◌+◌, ◌≤◌, length, take, drop};
ghost use Rattle.vectors.specs.Vector.{vector_bytes};
ghost use Rattle.receiving.specs.Receive.{lets_end, state_of, answer_in, is_terminate};
ghost use Rattle.receiving.specs.Loop.{tested_in, held_state, held_bytes, held_handed};
ghost use Rattle.receiving.specs.Counted.{hand_out, HandedWithin};

use counting::count_vector;
use decoding::kind_in;
use diagram_steps::{diagram_step, may_follow};
use diagrams::State;
use receiving::{Handed, Held, LOCAL_FAULT};
use vectors::{Vector, put_vector};

// The error vector.
const ERROR: Vector = Vector {
    c0: 0x0f,
    d0: 0xfefe_fefe,
    c1: 0x0f,
    d1: 0xfefe_fefe,
};

// Whether the block before may end its frame: this one was tested in lock and not high, and is S, C or LI.
#[tactic(auto, unfolding(receiving::specs::Receive::lets_end, receiving::specs::Loop::tested_in))]
pub fn lets_end(next: Held) -> bool
    ensures { result ≡ lets_end (tested_in next) }
{
    next.on && may_follow(kind_in(next.class))
}

// The receive diagram's state after a block.
#[tactic(auto, unfolding(receiving::specs::Receive::state_of, receiving::specs::Loop::tested_in))]
fn state_step(s: State, h: Held, ends: bool) -> State
    ensures { result ≡ state_of s (tested_in h) ends }
{
    if h.on {
        diagram_step(s, kind_in(h.class), ends)
    } else {
        State::Init
    }
}

// A vector to be handed out, and what those handed out are counted for.
#[derive(Clone, Copy, Debug, PartialEq, Eq)]
pub struct Out {
    pub vector: Vector,
    pub handed: Handed,
}

// The Local Fault vector in INIT, the error vector in E, else the decoded block.
#[tactic(auto, unfolding(receiving::specs::Receive::answer_in, receiving::specs::Counted::hand_out, receiving::specs::Loop::tested_in))]
pub fn hand_out(n: Handed, s: State, h: Held) -> Out
    requires { HandedWithin 6600000 n }
    ensures { (vector_bytes result.vector ≡ answer_in s (vector_bytes h.vector)) × (result.handed ≡ hand_out n (record { state = s; block = tested_in h })) }
{
    match s {
        State::Init => Out {
            vector: LOCAL_FAULT,
            handed: n,
        },
        State::Error => Out {
            vector: ERROR,
            handed: count_vector(n, h.class, false),
        },
        State::Control | State::Terminate | State::LowPower | State::Data => Out {
            vector: h.vector,
            handed: count_vector(n, h.class, true),
        },
    }
}

// Whether the last block, if there is one, was judged without its successor: it ended a frame.
pub fn judged_alone(have: bool, s: State) -> bool
    ensures { result ≡ cond have (is_terminate s) false }
{
    have && s == State::Terminate
}

// The diagram's state, where the room goes on, and what the vectors handed out are counted for.
#[derive(Clone, Copy, Debug, PartialEq, Eq)]
pub struct Answered {
    pub state: State,
    pub at: usize,
    pub handed: Handed,
}

// The block held, if there is one, takes the diagram's step and gives its vector.
pub fn settle_held(
    room: &mut [u8],
    at: usize,
    handed: Handed,
    have: bool,
    s: State,
    h: Held,
    ends: bool,
) -> Answered
    requires { (at + length (held_bytes have s h ends) ≤ length room.old) × HandedWithin 6600000 handed }
    ensures { (result.state ≡ held_state have s h ends) × (result.at ≡ at + length (held_bytes have s h ends)) × (room.new ≡ take at room.old ++ (held_bytes have s h ends ++ drop (at + length (held_bytes have s h ends)) room.old)) × (result.handed ≡ held_handed have handed s h ends) }
{
    if have {
        let state = state_step(s, h, ends);
        let out = hand_out(handed, state, h);
        put_vector(room, at, out.vector);
        return Answered {
            state,
            at: at + 10,
            handed: out.handed,
        };
    }
    Answered {
        state: s,
        at,
        handed,
    }
}
