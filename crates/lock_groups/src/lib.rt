// Four blocks in lock: four data blocks, or four of idles, at once, any others that are decoded at once one after the other.
#![tactic(auto)]

ghost use Rattle.std.specs.Prelude.{◌≡◌, true, false, ◌+◌, ◌*◌, ◌/◌, ◌^◌, ◌≤◌, ◌<◌, ◌⊎◌, length};
ghost use Rattle.block.specs.Block.{kind_in};
ghost use Rattle.diagrams.specs.Diagram.{diagram_of};
ghost use Rattle.blocks.specs.Blocks.{Fours};
ghost use Rattle.receiving.specs.Receive.{errs};
ghost use Rattle.receiving.specs.Loop.{Stretches};
ghost use Rattle.lock_steps.specs.InLock.{InLock, GoesTo, ran_of, MoreAhead, stretch_state};
ghost use Rattle.lock_groups.specs.FourInLock.{StepsFour, AllIdle};

use blocks::Four;
use decoding::kind_in;
use diagram_steps::diagram_step;
use diagrams::State;
use line::Block;
use lock_steps::{Run, single, stretch_step};
use receiving::Progress;
use scrambler::descramble;

// The state that the block held goes to if a frame may not end there; only a Terminate's depends on that.
fn state_next(s: Run) -> State
    ensures { result ≡ diagram_of s.state (kind_in s.class) false }
{
    diagram_step(s.state, kind_in(s.class), false)
}

// Whether the block held goes to this state, whatever follows.
fn goes_to(s: Run, state: State) -> bool
    requires { errs state ≡ false }
    ensures { result ≡ true → GoesTo state s.state s.class }
{
    state_next(s) == state
}

// Whether four payloads are descrambled to eight idles each.
fn all_idle(f: Four, history: u64) -> bool
    requires { history < 2 ^ 58 }
    ensures { result ≡ true → AllIdle history f }
{
    let a = descramble(f.a, history);
    let b = descramble(f.b, a.history);
    let c = descramble(f.c, b.history);
    let d = descramble(f.d, c.history);
    (a.word ^ 0x1e) | (b.word ^ 0x1e) | (c.word ^ 0x1e) | (d.word ^ 0x1e) == 0
}

// Four blocks of a stretch.
fn four<const HEADER: u64>(line: &[u8], room: &mut [u8], p: Progress, s: Run, f: Four) -> Run
    requires { (length line.now ≤ 825000) × MoreAhead line.now room.old (ran_of p s) 4 × Fours line.now (p.pos + 66 * s.count) f × (f.headers ≡ 85 * HEADER) × GoesTo (stretch_state HEADER) s.state s.class × ((HEADER ≡ 2) ⊎ ((HEADER ≡ 1) × AllIdle s.history f)) }
    ensures { StepsFour line.now room.old room.new (ran_of p s) (ran_of p result) }
{
    let a = stretch_step::<HEADER>(line, room, p, s, f.a);
    let b = stretch_step::<HEADER>(line, room, p, a, f.b);
    let c = stretch_step::<HEADER>(line, room, p, b, f.c);
    stretch_step::<HEADER>(line, room, p, c, f.d)
}

// The three blocks after the first of four; the last has no meaning.
fn rest(f: Four) -> Four
    ensures { (result.headers ≡ f.headers / 4) × (result.a ≡ f.b) × (result.b ≡ f.c) × (result.c ≡ f.d) }
{
    Four {
        headers: f.headers / 4,
        a: f.b,
        b: f.c,
        c: f.d,
        ..f
    }
}

// As many of four blocks as are decoded at once, one after the other.
fn each(line: &[u8], room: &mut [u8], p: Progress, start: Run, four: Four) -> Run
    requires { (length line.now ≤ 825000) × MoreAhead line.now room.old (ran_of p start) 4 × Fours line.now (p.pos + 66 * start.count) four }
    ensures { Stretches line.now room.old room.new (ran_of p start) (ran_of p result) × InLock (ran_of p result) }
{
    let mut s = start;
    let mut f = four;
    for _ in 0..4u64 {
        let before = s.count;
        let b = Block {
            header: f.headers % 4,
            payload: f.a,
        };
        s = single(line, room, p, s, b);
        if s.count == before {
            break;
        }
        f = rest(f);
    }
    s
}

// Four blocks, or as many of them as are decoded at once.
pub fn group(line: &[u8], room: &mut [u8], p: Progress, s: Run, f: Four) -> Run
    requires { (length line.now ≤ 825000) × MoreAhead line.now room.old (ran_of p s) 4 × Fours line.now (p.pos + 66 * s.count) f }
    ensures { Stretches line.now room.old room.new (ran_of p s) (ran_of p result) × InLock (ran_of p result) }
{
    if f.headers == 0xaa && goes_to(s, State::Data) {
        return four::<2>(line, room, p, s, f);
    }
    if f.headers == 0x55 && goes_to(s, State::Control) && all_idle(f, s.history) {
        return four::<1>(line, room, p, s, f);
    }
    each(line, room, p, s, f)
}
