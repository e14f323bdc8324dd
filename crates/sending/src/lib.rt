// Sending a list of vectors: document 01, 'Diagrams' (Transmit), 'Scrambler' and 'Vectors, words and line bits'.
#![tactic(auto)]

ghost use Rattle.std.specs.Prelude.{◌≡◌, ◌++◌, ◌*◌, ◌/◌, ◌%◌, ◌^◌, ◌<◌, ◌≤◌, length, drop};
ghost use Rattle.transmit.specs.Send.{sent_line};
ghost use Rattle.control_bytes.specs.Control.{Low};
ghost use Rattle.sending.specs.Answer.{sent, sent_for, Sends};
ghost use Rattle.sending.specs.Whole.{SentInto};

use block::Edition;
use control_bytes::first_high;
use diagrams::{State, state_number};
use groups::send_four;
use line::put_group;
use refusals::{Refusal, Refused};
use scrambler::mirrored;
use tables::edition_of;
use transmit::Sender;

// What sending returns: its end state, the number of its end diagram state, and how many vectors it replaced.
#[derive(Clone, Copy, Debug, PartialEq, Eq)]
pub struct Sending {
    pub state: u64,
    pub diagram: u64,
    pub replaced: u64,
}

// All groups sent, each as 33 bytes of the room.
fn send_groups(edition: Edition, bytes: &[u8], s: Sender, room: &mut [u8]) -> Sender
    requires { (length bytes.now ≤ 1000000) × (length bytes.now % 40 ≡ 0) × (33 * (length bytes.now / 40) ≤ length room.old) × (s.history < 2 ^ 58) × (s.replaced ≡ 0) × Low bytes.now }
    ensures { SentInto edition s bytes.now room.old room.new result }
{
    let mut next = s;
    for g in 0..bytes.len() / 40 {
        let four = send_four(edition, bytes, 40 * g, next);
        put_group(room, 33 * g, four.a, four.b, four.c, four.d);
        next = four.next;
    }
    next
}

// All vectors sent in an edition, from INIT and a start state.
fn send_all(edition: Edition, vectors: &[u8], start: u64, line: &mut [u8]) -> Sending
    requires { (length vectors.now ≤ 1000000) × (length vectors.now % 40 ≡ 0) × (33 * (length vectors.now / 40) ≤ length line.old) × Low vectors.now }
    ensures answer { sent result.state result.diagram result.replaced ≡ sent_for edition vectors.now start }
    ensures line_put { line.new ≡ sent_line edition vectors.now start ++ drop (length (sent_line edition vectors.now start)) line.old }
{
    let first = Sender {
        diagram: State::Init,
        history: mirrored(start),
        replaced: 0,
    };
    let end = send_groups(edition, vectors, first, line);
    Sending {
        state: mirrored(end.history),
        diagram: state_number(end.diagram),
        replaced: end.replaced,
    }
}

// Sends a list of vectors in an edition (0 old, 1 new), from a start state below 2^58. Its line goes to the start of the lent room; a refusal
// changes nothing.
#[tactic(auto, unfolding(crate::specs::Answer::send_answer, crate::specs::Answer::send_room, crate::specs::Answer::send_checks, refusals::specs::First::first))]
pub fn send(edition: u64, vectors: &[u8], start: u64, line: &mut [u8]) -> Result<Sending, Refused>
    ensures { Sends edition vectors.now start line.old result line.new }
{
    if 1 < edition {
        return Err(Refused(Refusal::UnknownEdition, 0));
    }
    let n = vectors.len();
    if 1000000 < n {
        return Err(Refused(Refusal::TooMuch, 0));
    }
    if n % 40 != 0 {
        return Err(Refused(Refusal::NotGroups, 0));
    }
    if 0x0400_0000_0000_0000 <= start {
        return Err(Refused(Refusal::StartState, 0));
    }
    if line.len() < 33 * (n / 40) {
        return Err(Refused(Refusal::Room, 0));
    }
    if let Some(high) = first_high(vectors) {
        return Err(Refused(Refusal::ControlByte, high));
    }
    let e = edition_of(edition);
    Ok(send_all(e, vectors, start, line))
}
