// Document 01, 'Refusal numbers', and document 02: the refusals, one enum for all crates, each with its number.
#![tactic(auto)]

ghost use Rattle.std.specs.Prelude.{◌≡◌, ◌<◌};
ghost use Rattle.refusals.specs.Number.{number_of};

#[derive(Clone, Copy, Debug, PartialEq, Eq)]
pub enum Refusal {
    // more than 1,000,000 vector bytes or 825,000 line bytes; in a program, more than it gathers
    TooMuch = 1,
    // vector bytes that are not whole groups of four vectors
    NotGroups = 2,
    // a start state at or above 2^58
    StartState = 3,
    // too little lent room
    Room = 4,
    // a control byte above 15
    ControlByte = 5,
    // a record that is cut
    Cut = 6,
    // a record's body that is too long
    LongBody = 7,
    // a record's kind that is unknown, or in a program not its own
    RecordKind = 8,
    // a call after the closing one
    Closed = 9,
    // a state with numbers that no line leads to
    BadState = 10,
    // a range that is none, or an index of the wrong length
    Range = 11,
    // no such vector
    NoSuchVector = 12,
    // an edition that is neither old nor new
    UnknownEdition = 13,
}

impl Refusal {
    // The number that the document gives a refusal.
    pub fn number(self) -> u64
        ensures { (result ≡ number_of self) × (result < 256) }
    {
        self as u64
    }
}

// A refusal, and the place that the document fixes for it: the error of every call that can be refused.
#[derive(Clone, Copy, Debug, PartialEq, Eq)]
pub struct Refused(pub Refusal, pub usize);

// A refusal that has no place of its own has place 0.
impl From<Refusal> for Refused {
    ghost from_gives = { λ why r. r ≡ record { 0 = why; 1 = 0 } };

    fn from(why: Refusal) -> Refused {
        Refused(why, 0)
    }
}
