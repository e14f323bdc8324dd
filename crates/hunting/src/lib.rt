// Blocks while not locked: their headers are tested, and each is answered as Local Fault. What is counted wants to know of a control block that
// its type is none, or that it is decoded at once and so not bad. A slip takes no branch of its own. What is left stands with `turn`.
#![tactic(auto)]

ghost use Rattle.std.specs.Prelude.{◌≡◌, true, false, ◌+◌, ◌*◌, ◌/◌, ◌%◌, ◌^◌, ◌≤◌, ◌<◌, length};
ghost use Rattle.block.specs.declared.Edition.{Edition};
ghost use Rattle.blocks.specs.Blocks.{header_at, payload_at};
ghost use Rattle.scrambler.specs.Scrambler.{descrambled};
ghost use Rattle.receiving.specs.Loop.{Under, Turns, Stretches};
ghost use Rattle.hunting.specs.Unlocked.{Hunts, after_search, miss_of, control_of, untyped_of, Tests};

use blocks::one_at;
use diagrams::State;
use lock::{Lock, Rate};
use quick_decoding::quick;
use receiving::{Counts, LOCAL_FAULT, Link, Progress, Receiver};
use scrambler::descramble;
use tables::type_row;
use vectors::put_vector;

// How far a search for lock has come: the next line bit, the next byte of the room, the last 58 payload bits, and the headers tested since
// the last slip; and of all blocks tested how many slipped, how many were control blocks of no type, and how many there were.
#[derive(Clone, Copy, Debug, PartialEq, Eq)]
struct Search {
    pos: usize,
    at: usize,
    history: u64,
    tested: u64,
    misses: u64,
    types: u64,
    count: u64,
}

// Whether the receiver searches for lock, at the first bit of a block, and holds a block that was tested so.
fn hunts(p: Progress) -> bool
    ensures { result ≡ true → Hunts p }
{
    let r = p.receiver;
    !r.skip
        && r.carried.count == 0
        && !r.link.lock.locked
        && r.link.lock.invalid == 0
        && !r.held.on
        && r.have
        && r.state == State::Init
        && r.link.rate == Rate::default()
}

// 1 for a header whose bits are equal, else 0.
fn miss(header: u64) -> u64
    requires { header < 4 }
    ensures { (result ≡ miss_of header) × (result ≤ 1) }
{
    u64::from(header % 2 == header / 2)
}

// 1 for a control header, else 0.
fn control(header: u64) -> u64
    requires { header < 4 }
    ensures { (result ≡ control_of header) × (result ≤ 1) }
{
    u64::from(header == 1)
}

// The receiver that a search has come to.
fn found(p: Progress, s: Search) -> Progress
    requires { (p.counts.tested + s.count ≤ 6600000) × (p.counts.slips + s.misses ≤ 6600000) × (p.counts.headers + s.misses ≤ 6600000) × (p.counts.types + s.types ≤ 6600000) }
    ensures { result ≡ after_search p s }
{
    let link = p.receiver.link;
    Progress {
        receiver: Receiver {
            link: Link {
                lock: Lock {
                    tested: s.tested,
                    ..link.lock
                },
                history: s.history,
                ..link
            },
            ..p.receiver
        },
        pos: s.pos,
        at: s.at,
        counts: Counts {
            tested: p.counts.tested + s.count,
            slips: p.counts.slips + s.misses,
            headers: p.counts.headers + s.misses,
            types: p.counts.types + s.types,
            ..p.counts
        },
        ..p
    }
}

// 1 for a control block of no type, else 0; row is its type's.
fn untyped(header: u64, row: usize) -> u64
    requires { header < 4 }
    ensures { (result ≡ untyped_of header row) × (result ≤ 1) }
{
    u64::from(row == 0 && header == 1)
}

// Whether a block and one more are there, the block would not lock, and what it is counted for is known without decoding it.
fn hunts_on(line: &[u8], s: Search) -> bool
    requires { (length line.now ≤ 825000) × (s.history < 2 ^ 58) }
    ensures { result ≡ true → (s.pos / 8 + 18 ≤ length line.now) × (s.tested < 63) × ((ed : Edition) → Tests ed (header_at line.now s.pos) (descrambled (payload_at line.now s.pos) s.history)) }
{
    if s.pos / 8 + 18 <= line.len() && s.tested < 63 {
        let b = one_at(line, s.pos);
        let plain = descramble(b.payload, s.history);
        let row = type_row(plain.word % 256);
        control(b.header) * row as u64 == 0 || quick(b.header, plain.word).is_some()
    } else {
        false
    }
}

// One block tested: the block held is answered as Local Fault.
fn hunt_step(line: &[u8], room: &mut [u8], p: Progress, s: Search) -> Search
    requires { (length line.now ≤ 825000) × Hunts p × Under line.now room.old (after_search p s) × (s.pos / 8 + 18 ≤ length line.now) × (s.tested < 63) × ((ed : Edition) → Tests ed (header_at line.now s.pos) (descrambled (payload_at line.now s.pos) s.history)) }
    ensures { Turns line.now room.old room.new (after_search p s) (after_search p result) × (result.pos < 8 * length line.now) }
{
    let b = one_at(line, s.pos);
    let plain = descramble(b.payload, s.history);
    let row = type_row(plain.word % 256);
    let miss = miss(b.header);
    put_vector(room, s.at, LOCAL_FAULT);
    Search {
        pos: s.pos + 66 + miss as usize,
        at: s.at + 10,
        history: plain.history,
        tested: (s.tested + 1) * (1 - miss),
        misses: s.misses + miss,
        types: s.types + untyped(b.header, row),
        count: s.count + 1,
    }
}

// As many blocks as come, from where the receiver stands.
fn hunt_blocks(line: &[u8], room: &mut [u8], p: Progress, start: Search) -> Search
    requires { (length line.now ≤ 825000) × Hunts p × Under line.now room.old (after_search p start) × (start.pos < 8 * length line.now) }
    ensures { Stretches line.now room.old room.new (after_search p start) (after_search p result) }
{
    let mut s = start;
    while hunts_on(line, s) {
        s = hunt_step(line, room, p, s);
    }
    s
}

// A search that is at its first block.
fn searching(p: Progress) -> Search
    ensures { after_search p result ≡ p }
{
    Search {
        pos: p.pos,
        at: p.at,
        history: p.receiver.link.history,
        tested: p.receiver.link.lock.tested,
        misses: 0,
        types: 0,
        count: 0,
    }
}

// As many blocks as come while the receiver searches for lock.
pub fn hunt(line: &[u8], room: &mut [u8], p: Progress) -> Progress
    requires { (length line.now ≤ 825000) × Under line.now room.old p × (p.pos < 8 * length line.now) }
    ensures { Stretches line.now room.old room.new p result }
{
    if hunts(p) {
        let s = hunt_blocks(line, room, p, searching(p));
        return found(p, s);
    }
    p
}
