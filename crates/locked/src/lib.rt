// Blocks in lock, as many as come in groups of four and are decoded at once. What is left stands with `turn`.
#![tactic(auto)]

ghost use Rattle.std.specs.Prelude.{◌≡◌, true, ◌*◌, ◌≤◌, ◌<◌, length};
ghost use Rattle.receiving.specs.Loop.{Under, Stretches};
ghost use Rattle.lock_steps.specs.InLock.{InLock};
ghost use Rattle.locked.specs.Groups.{Groups};

use blocks::four_at;
use lock_groups::group;
use lock_steps::{ran, starting};
use receiving::Progress;

// Whether the receiver is in lock and not high, at the first bit of a block, and holds a block that was tested so.
fn in_lock(p: Progress) -> bool
    ensures { result ≡ true → InLock p }
{
    let r = p.receiver;
    !r.skip
        && r.carried.count == 0
        && r.link.rate.invalid < 16
        && !r.link.rate.high
        && !r.held.slipped
        && r.link.lock.locked
        && r.have
        && r.held.on
}

// How many groups of four blocks the line has, with a byte to spare after each, and the window too.
fn groups_ahead(line: &[u8], p: Progress) -> u64
    requires { (length line.now ≤ 825000) × (p.pos < 8 * length line.now) × (p.receiver.link.rate.blocks < 19531) }
    ensures { Groups (length line.now) p result }
{
    let here = ((line.len() - p.pos / 8 - 1) / 33) as u64;
    here.min((19530 - p.receiver.link.rate.blocks) / 4)
}

// As many blocks in lock as come in groups of four and are decoded at once.
fn blocks_in_lock(line: &[u8], room: &mut [u8], p: Progress) -> Progress
    requires { (length line.now ≤ 825000) × Under line.now room.old p × InLock p × (p.pos < 8 * length line.now) }
    ensures { Stretches line.now room.old room.new p result }
{
    let mut s = starting(p);
    for i in 0..groups_ahead(line, p) {
        let before = s.count;
        let four = four_at(line, p.pos / 8 + 33 * i as usize, p.pos % 8);
        s = group(line, room, p, s, four);
        if s.count != before + 4 {
            break;
        }
    }
    ran(p, s)
}

// .. if the receiver is in lock.
pub fn stretch(line: &[u8], room: &mut [u8], p: Progress) -> Progress
    requires { (length line.now ≤ 825000) × Under line.now room.old p × (p.pos < 8 * length line.now) }
    ensures { Stretches line.now room.old room.new p result }
{
    if in_lock(p) {
        return blocks_in_lock(line, room, p);
    }
    p
}
