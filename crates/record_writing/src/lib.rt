// Writing a capture record into lent room, document 01 and document 02, 7/13.
#![tactic(auto)]

ghost use Rattle.std.specs.Prelude.{◌≡◌, ◌+◌, ◌<◌, ◌≤◌, ◌++◌, length, drop};
ghost use Rattle.record_writing.specs.Writing.{limit_kept, record_of, Writes};

use records::{LIMIT, RecordKind, not_groups};
use refusals::Refusal;

// The most bytes of a body that phones not yet updated read.
const OLD_LIMIT: usize = 4092;

// Writes the head and the body at the start of a room that holds them. Of any kind that fits two bytes: what this takes may not get less.
pub fn put(kind: usize, body: &[u8], room: &mut [u8])
    requires { (kind < 65536) × (length body.now < 65536) × (length body.now + 4 ≤ length room.old) }
    ensures { room.new ≡ record_of kind body.now ++ drop (length body.now + 4) room.old }
{
    let n = body.len();
    room[..2].copy_from_slice(&(n as u16).to_le_bytes());
    room[2..4].copy_from_slice(&(kind as u16).to_le_bytes());
    room[4..4 + n].copy_from_slice(body);
}

// The most bytes of a body that a writer keeps to.
fn limit_kept(wide: bool) -> usize
    ensures { result ≡ limit_kept wide }
{
    if wide { LIMIT } else { OLD_LIMIT }
}

// Writes a record at the start of the room, and answers how many bytes it has: yes, with a body within the new limit; no, within the old one.
// A refusal has place 0, and nothing was written. Kind and yes or no are as C hands them over (`holzmotte_write_record`).
#[tactic(auto, using(std::proofs::lemmas::Bool::Decides::nat_tests), unfolding(crate::specs::Writing::write_answer, crate::specs::Writing::written_room, crate::specs::Writing::write_checks, refusals::specs::First::first))]
pub fn write(kind: usize, body: &[u8], wide: bool, room: &mut [u8]) -> Result<usize, Refusal>
    ensures { Writes kind body.now wide room.old result room.new }
{
    let n = body.len();
    if limit_kept(wide) < n {
        return Err(Refusal::LongBody);
    }
    RecordKind::try_from(kind)?;
    if not_groups(kind, n) {
        return Err(Refusal::NotGroups);
    }
    if room.len() < n + 4 {
        return Err(Refusal::Room);
    }
    put(kind, body, room);
    Ok(n + 4)
}
