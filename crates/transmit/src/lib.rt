// One vector sent: the block of its state of the transmit diagram, scrambled after the one before. Document 01, 'Diagrams' (Transmit) and
// 'Scrambler'.
#![tactic(auto)]

ghost use Rattle.std.specs.Prelude.{◌≡◌, ◌^◌, ◌<◌, ◌≤◌};
ghost use Rattle.transmit.specs.Send.{replaced_in};
ghost use Rattle.transmit.specs.Steps.{chosen_block, idle_coded, low_power_coded, Chooses, step_of, Scrambles, Goes};

use block::{Coded, Kind};
use diagram_steps::diagram_step;
use diagrams::State;
use line::Block;
use scrambler::{Scrambled, scramble, scramble_next};

// Where sending stands: the state of the transmit diagram, the last 58 payload bits on the line, the oldest at bit 0, and how
// many vectors were replaced.
#[derive(Clone, Copy)]
pub struct Sender {
    pub diagram: State,
    pub history: u64,
    pub replaced: u64,
}

// What goes out for one vector: its block before scrambling, the state of the diagram, and how many vectors are then replaced.
#[derive(Clone, Copy)]
struct Choice {
    block: Block,
    diagram: State,
    replaced: u64,
}

// One vector sent: the history before it, its payload before scrambling, its block as it goes on the line, and where sending then stands.
#[derive(Clone, Copy)]
pub struct Step {
    pub history: u64,
    pub plain: u64,
    pub block: Block,
    pub next: Sender,
}

// Eight idles, encoded.
pub fn idles() -> Coded
    ensures { result ≡ idle_coded }
{
    Coded {
        kind: Kind::C,
        header: 1,
        payload: 0x1e,
    }
}

// Eight low power idles, encoded.
pub fn low_power() -> Coded
    ensures { result ≡ low_power_coded }
{
    Coded {
        kind: Kind::LI,
        header: 1,
        payload: 0x0c18_3060_c183_061e,
    }
}

// "In state E the sent block is type 1e with eight codes 1e, else the vector's own."
fn block_in(s: State, own: Block) -> Block
    ensures { result ≡ chosen_block s own }
{
    if s == State::Error {
        Block {
            header: 1,
            payload: 0x3c78_f1e3_c78f_1e1e,
        }
    } else {
        own
    }
}

// How many vectors are replaced by sending one in this state.
fn replaced_in(s: State) -> u64
    ensures { (result ≡ replaced_in s) × (result ≤ 1) }
{
    u64::from(s == State::Error)
}

// What goes out for a vector: the diagram's step, and the block of its state.
fn choose(e: Coded, s: Sender) -> Choice
    requires { s.replaced < 2 ^ 63 }
    ensures { Chooses e s result }
{
    let diagram = diagram_step(s.diagram, e.kind, true);
    let own = Block {
        header: e.header,
        payload: e.payload,
    };
    Choice {
        block: block_in(diagram, own),
        diagram,
        replaced: s.replaced + replaced_in(diagram),
    }
}

// What was chosen as it is sent, scrambled after this history.
fn step_of(chosen: Choice, history: u64, out: Scrambled) -> Step
    ensures { result ≡ step_of chosen history out }
{
    Step {
        history,
        plain: chosen.block.payload,
        block: Block {
            header: chosen.block.header,
            payload: out.word,
        },
        next: Sender {
            diagram: chosen.diagram,
            history: out.history,
            replaced: chosen.replaced,
        },
    }
}

// One vector sent.
pub fn send_one(e: Coded, s: Sender) -> Step
    requires { (s.history < 2 ^ 58) × (s.replaced < 2 ^ 63) }
    ensures { Goes e s result }
{
    let chosen = choose(e, s);
    let out = scramble(chosen.block.payload, s.history);
    step_of(chosen, s.history, out)
}

// The same of a vector after another one. What that one's payload was before scrambling is known too, so the scrambler takes its shorter way.
pub fn send_after(e: Coded, before: Step) -> Step
    requires { Scrambles before × (before.next.replaced < 2 ^ 63) }
    ensures { Goes e before.next result }
{
    let chosen = choose(e, before.next);
    let out = scramble_next(
        chosen.block.payload,
        before.plain,
        before.block.payload,
        before.history,
    );
    step_of(chosen, before.next.history, out)
}
