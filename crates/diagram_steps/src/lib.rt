// Document 01, 'Diagrams': transmit and receive, one step each, by value.
#![tactic(auto, unfolding(diagrams::specs::Diagram::follows))]

ghost use Rattle.std.specs.Prelude.{◌≡◌};
ghost use Rattle.diagrams.specs.Diagram.{diagram_of, follows};

use block::Kind;
use diagrams::{State, goes_on, is_data, may_begin, may_rest};

// The diagrams' step on a block of kind k; ends says that a frame may end here. By the kind first: it is short enough to be part of
// every loop that takes it. An `if` in each arm, and not guards with one arm for E: with those, idles took a tenth longer to send.
#[tactic(auto, using(diagrams::proofs::Laws::by_tests_lem))]
pub fn diagram_step(s: State, k: Kind, ends: bool) -> State
    ensures { result ≡ diagram_of s k ends }
{
    match k {
        Kind::D => if goes_on(s) {
            State::Data
        } else {
            State::Error
        },
        Kind::S => if may_begin(s) {
            State::Data
        } else {
            State::Error
        },
        Kind::C => if is_data(s) {
            State::Error
        } else {
            State::Control
        },
        Kind::T => if ends && goes_on(s) {
            State::Terminate
        } else {
            State::Error
        },
        Kind::E => State::Error,
        Kind::LI => if may_rest(s) {
            State::LowPower
        } else {
            State::Error
        },
    }
}

// Whether a block of kind k may follow a Terminate that ends a frame.
pub fn may_follow(k: Kind) -> bool
    ensures { result ≡ follows k }
{
    matches!(k, Kind::S | Kind::C | Kind::LI)
}
