// The state of a receiver between two calls, document 02, 2/13: the receiver that its numbers mean, and the numbers of a held block.
#![tactic(auto)]

ghost use Rattle.std.specs.Prelude.{◌≡◌, cond, [], ◌∷◌, ◌<◌};
ghost use Rattle.block.specs.Block.{edition_of};
ghost use Rattle.carrying.specs.Carrying.{Sound, carried_bits};
ghost use Rattle.receiving.specs.Loop.{tested_in};
ghost use Rattle.kept_state.specs.Meaning.{bits_in, diagram_by, held_kind_by, held_kind_number, block_meant, kept_for};
ghost use Rattle.kept_state.specs.Coded.{WithinLimits, Means};

use block::Kind;
use carrying::Carried;
use decoding::{good_class, kind_in};
use lock::{Lock, Rate};
use receiving::{Counts, Handed, Held, Link, Receiver};
use vectors::Vector;

// A held block: whether the receiver was then locked and not high, the number of its kind, and the two words of its vector, five bytes
// each, the control byte lowest.
#[derive(Clone, Copy, Debug, Default, PartialEq, Eq)]
pub struct Kept {
    pub on: bool,
    pub kind: u64,
    pub first: u64,
    pub second: u64,
}

// What is handed back and given again: whether the closing call was made, the line bytes so far, the number of the edition, lock, error rate
// and the last 58 payload bits of the line, the bits since the last tested block, whether the next bit is to be skipped, the number of
// the diagram's state, the block tested last, if there is one, and the summary's counts over the line so far. Any numbers may be handed in:
// so these are the 29 words as C has them, `have` beside `held` and numbers for edition, diagram and kind, and refusal 10 tells what none of them means.
#[derive(Clone, Copy, Debug, Default, PartialEq, Eq)]
pub struct State {
    pub closed: bool,
    pub bytes: u64,
    pub edition: u64,
    pub lock: Lock,
    pub rate: Rate,
    pub history: u64,
    pub carried: Carried,
    pub skip: bool,
    pub diagram: u64,
    pub have: bool,
    pub held: Kept,
    pub counts: Counts,
    pub vectors: u64,
    pub handed: Handed,
}

// The diagram's state of a number.
#[tactic(auto, unfolding(crate::specs::Meaning::diagram_by))]
#[inline(always)]
fn diagram_by(n: u64) -> diagrams::State
    ensures { result ≡ diagram_by n }
{
    match n {
        1 => diagrams::State::Control,
        2 => diagrams::State::Data,
        3 => diagrams::State::Terminate,
        4 => diagrams::State::Error,
        5 => diagrams::State::LowPower,
        _ => diagrams::State::Init,
    }
}

// The kind of a number: one that is none of the edition's kinds is E.
#[tactic(auto, unfolding(crate::specs::Meaning::held_kind_by, block::specs::Block::edition_of))]
#[inline(always)]
fn kind_by(edition: u64, n: u64) -> Kind
    ensures { result ≡ held_kind_by (edition_of edition) n }
{
    match n {
        0 => Kind::D,
        1 => Kind::C,
        2 => Kind::S,
        3 => Kind::T,
        5 if edition != 0 => Kind::LI,
        _ => Kind::E,
    }
}

// The number of a kind: they are declared in the order of their numbers.
fn kind_number(k: Kind) -> u64
    ensures { result ≡ held_kind_number k }
{
    k as u64
}

// The carried bits with no bit set at or above their count.
#[inline(always)]
fn masked(c: Carried) -> Carried
    requires { c.count < 66 }
    ensures { Sound result × (carried_bits result ≡ bits_in c) }
{
    if c.count < 2 {
        return Carried {
            header: c.header % (1 << c.count),
            payload: 0,
            ..c
        };
    }
    Carried {
        header: c.header % 4,
        payload: c.payload % (1 << (c.count - 2)),
        ..c
    }
}

// The block that is held, in an edition.
#[inline(always)]
fn block_of(edition: u64, k: Kept) -> Held
    ensures { tested_in result ≡ block_meant (edition_of edition) k }
{
    Held {
        on: k.on,
        slipped: false,
        class: good_class(kind_by(edition, k.kind)),
        vector: Vector {
            c0: (k.first % 256) as u8,
            d0: (k.first / 256 % 4294967296) as u32,
            c1: (k.second % 256) as u8,
            d1: (k.second / 256 % 4294967296) as u32,
        },
    }
}

// The receiver that a state means. Lock and rate field by field: copied whole, what stands between their fields went through the loop, and
// receiving in bursts took 2 % more.
#[inline(always)]
pub fn receiver_of(s: State) -> Receiver
    requires { WithinLimits s }
    ensures { Means s result }
{
    Receiver {
        skip: s.skip,
        carried: masked(s.carried),
        link: Link {
            edition: tables::edition_of(s.edition),
            lock: Lock {
                tested: s.lock.tested,
                invalid: s.lock.invalid,
                locked: s.lock.locked,
            },
            rate: Rate {
                blocks: s.rate.blocks,
                invalid: s.rate.invalid,
                high: s.rate.high,
            },
            history: s.history,
        },
        state: diagram_by(s.diagram),
        have: s.have,
        held: block_of(s.edition, s.held),
    }
}

// The numbers of a held block, if there is one.
#[tactic(auto, unfolding(crate::specs::Meaning::kept_for))]
#[inline(always)]
pub fn kept_of(have: bool, h: Held) -> Kept
    ensures { result ≡ kept_for (cond have (tested_in h ∷ []) []) }
{
    if !have {
        return Kept::default();
    }
    let v = h.vector;
    Kept {
        on: h.on,
        kind: kind_number(kind_in(h.class)),
        first: u64::from(v.c0) + 256 * u64::from(v.d0),
        second: u64::from(v.c1) + 256 * u64::from(v.d1),
    }
}
