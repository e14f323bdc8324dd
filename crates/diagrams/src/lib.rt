// Document 01, 'Diagrams': the states of transmit and receive, their numbers, and four tests of a state by which a step goes.
#![tactic(auto)]

ghost use Rattle.std.specs.Prelude.{◌≡◌, ◌<◌};
ghost use Rattle.diagrams.specs.Diagram.{state_number};
ghost use Rattle.diagrams.specs.Parts.{is_data, goes_on, may_begin, may_rest};

// The states of both diagrams, with the document's numbers. In this order one comparison tells D and E, in which a frame may go on: machine
// code goes by the order of the variants, not by these numbers.
#[derive(Clone, Copy, Debug, PartialEq, Eq)]
pub enum State {
    Init = 0,
    Control = 1,
    Terminate = 3,
    LowPower = 5,
    Data = 2,
    Error = 4,
}

// The document's number of a state.
pub fn state_number(s: State) -> u64
    ensures { (result ≡ state_number s) × (result < 6) }
{
    s as u64
}

// Whether the state is D.
pub fn is_data(s: State) -> bool
    ensures { result ≡ is_data s }
{
    s == State::Data
}

// Whether the state is D or E.
pub fn goes_on(s: State) -> bool
    ensures { result ≡ goes_on s }
{
    matches!(s, State::Data | State::Error)
}

// Whether a Start begins a frame: the state is INIT, C or T, and so not straight after E or LI.
pub fn may_begin(s: State) -> bool
    ensures { result ≡ may_begin s }
{
    matches!(s, State::Init | State::Control | State::Terminate)
}

// Whether low power idle is in turn: the state is C, T, E or LI, and so not before the first C, nor after D.
pub fn may_rest(s: State) -> bool
    ensures { result ≡ may_rest s }
{
    matches!(
        s,
        State::Control | State::Terminate | State::Error | State::LowPower
    )
}
