// A receiver, as the code holds it. What a line gives of it is defined in specs/; what a receiver counts, answers and does in one turn is in
// the crates counting, answering and turning, and the loop over a line in the crate reception.
#![tactic(auto)]

use block::{Class, Edition};
use carrying::Carried;
use diagrams::State;
use lock::{Lock, Rate};
use vectors::Vector;

// The edition in use, and what each tested block updates: lock, error rate, and the last 58 payload bits of the line, the oldest at bit 0.
#[derive(Clone, Copy, Debug, PartialEq, Eq)]
pub struct Link {
    pub edition: Edition,
    pub lock: Lock,
    pub rate: Rate,
    pub history: u64,
}

// What tested blocks are counted for: how many there are, how many of them slipped, and how many are bad by their header, type,
// control codes or ordered set codes.
#[derive(Clone, Copy, Debug, Default, PartialEq, Eq)]
pub struct Counts {
    pub tested: u64,
    pub slips: u64,
    pub headers: u64,
    pub types: u64,
    pub codes: u64,
    pub sets: u64,
}

// What vectors handed out are counted for: those of kind S that were answered as decoded, which begin frames, and those answered as the
// error vector.
#[derive(Clone, Copy, Debug, Default, PartialEq, Eq)]
pub struct Handed {
    pub begun: u64,
    pub replaced: u64,
}

// What receiving returns: the counts of blocks, lock and error rate at the end, the number of vectors, whether the last of them was judged
// without its successor, and the counts of vectors.
#[derive(Clone, Copy, Debug, PartialEq, Eq)]
pub struct Summary {
    pub counts: Counts,
    pub locked: bool,
    pub high: bool,
    pub vectors: u64,
    pub alone: bool,
    pub handed: Handed,
}

// The Local Fault vector.
pub const LOCAL_FAULT: Vector = Vector {
    c0: 0x01,
    d0: 0x0100_009c,
    c1: 0x01,
    d1: 0x0100_009c,
};

// A tested block: whether the receiver was then locked and not high, whether it slipped, its class and its decoded vector.
#[derive(Clone, Copy, Debug, PartialEq, Eq)]
pub struct Held {
    pub on: bool,
    pub slipped: bool,
    pub class: Class,
    pub vector: Vector,
}

// A receiver between two line bits: whether the next bit is to be skipped, the bits since the last tested block, the link, the
// state of the receive diagram, and the block tested last, if there is one: its vector waits for a look at the next block.
#[derive(Clone, Copy, Debug, PartialEq, Eq)]
pub struct Receiver {
    pub carried: Carried,
    pub link: Link,
    pub state: State,
    pub skip: bool,
    pub have: bool,
    pub held: Held,
}

// How far a receiver has come: the next line bit, the next byte of the room, and what it has counted.
#[derive(Clone, Copy, Debug, PartialEq, Eq)]
pub struct Progress {
    pub receiver: Receiver,
    pub pos: usize,
    pub at: usize,
    pub counts: Counts,
    pub handed: Handed,
}

// What the vector of the last block adds: the counts of vectors with it, and whether it was judged without its successor.
#[derive(Clone, Copy, Debug, PartialEq, Eq)]
pub struct LastVector {
    pub handed: Handed,
    pub alone: bool,
}
