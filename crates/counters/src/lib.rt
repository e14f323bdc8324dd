// Document 02, 3/13: "A counters record is lent to each call and updated in place".
#![tactic(auto)]

ghost use Rattle.std.specs.Prelude.{◌≡◌};
ghost use Rattle.counters.specs.Counters.{becomes, updated, ReceivesCounting};

use receiving::{Counts, Handed, Summary};
use refusals::Refused;

// The firmware's running total: tested, slips, the four reasons, frames begun, vectors replaced.
#[derive(Clone, Copy)]
pub struct Counters {
    pub tested: u32,
    pub slips: u32,
    pub headers: u32,
    pub types: u32,
    pub codes: u32,
    pub sets: u32,
    pub begun: u32,
    pub replaced: u32,
}

// What a receiving call answers, and the counters after it.
#[derive(Clone, Copy)]
pub struct Counted {
    pub answer: Result<Summary, Refused>,
    pub counters: Counters,
}

// An old number with what was added to it.
#[tactic(auto, unfolding(crate::specs::Counters::becomes))]
pub fn add(old: u32, added: u64) -> u32
    ensures { result ≡ becomes old added }
{
    u64::from(old).saturating_add(added).min(4294967295) as u32
}

// All counters with what a call added.
pub fn add_counts(c: Counters, n: Counts, h: Handed) -> Counters
    ensures { result ≡ updated c n h }
{
    Counters {
        tested: add(c.tested, n.tested),
        slips: add(c.slips, n.slips),
        headers: add(c.headers, n.headers),
        types: add(c.types, n.types),
        codes: add(c.codes, n.codes),
        sets: add(c.sets, n.sets),
        begun: add(c.begun, h.begun),
        replaced: add(c.replaced, h.replaced),
    }
}

// Receiving with counters by value: they come back with what the call added, or as they were. The edition is a number, as C hands it over
// (`holzmotte_receive`).
pub fn receive_by_value(edition: u64, line: &[u8], room: &mut [u8], c: Counters) -> Counted
    ensures { ReceivesCounting edition line.now room.old c result.answer room.new result.counters }
{
    let answer = reception::receive(edition, line, room);
    let counters = match answer {
        Ok(s) => add_counts(c, s.counts, s.handed),
        Err(_) => c,
    };
    Counted { answer, counters }
}

// Receiving with a lent record of counters, which is updated in place.
pub fn receive(
    edition: u64,
    line: &[u8],
    room: &mut [u8],
    counters: &mut Counters,
) -> Result<Summary, Refused>
    ensures { ReceivesCounting edition line.now room.old counters.old result room.new counters.new }
{
    let r = receive_by_value(edition, line, room, *counters);
    *counters = r.counters;
    r.answer
}
