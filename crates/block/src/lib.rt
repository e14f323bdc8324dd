// Document 01, 'Kinds': what a block, or a vector to be sent, is: data, control, start, terminate, error; and in the newer edition of
// Clause 49 low power idle (document 02, 9/13).
#![tactic(auto)]

#[derive(Clone, Copy, Debug, PartialEq, Eq)]
pub enum Kind {
    D,
    C,
    S,
    T,
    E,
    LI,
}

// Document 02, 9/13: the edition of Clause 49 in use.
#[derive(Clone, Copy, Debug, PartialEq, Eq)]
pub enum Edition {
    Old,
    New,
}

// Document 02, 1/13: why a received block is bad.
#[derive(Clone, Copy, Debug, PartialEq, Eq)]
pub enum Reason {
    Header,
    BlockType,
    ControlCode,
    SetCode,
}

// What a received block is: of a kind other than E, or bad with its reason.
#[derive(Clone, Copy, Debug, PartialEq, Eq)]
pub enum Class {
    D,
    C,
    S,
    T,
    Bad(Reason),
    LI,
}

// The block of a vector. A vector that no block carries is of kind E, with the block that is sent in state E.
#[derive(Clone, Copy, Debug, PartialEq, Eq)]
pub struct Coded {
    pub kind: Kind,
    pub header: u64,
    pub payload: u64,
}
