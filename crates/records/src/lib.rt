// Capture records, document 01 and document 02, 7/13: reading one at a place, and its body as a part of the input.
#![tactic(auto)]

ghost use Rattle.std.specs.Prelude.{◌≡◌, ◌+◌, ◌<◌, ◌≤◌, length};
ghost use Rattle.records.specs.Record.{body_limit, two_at, kind_number, kind_of, not_groups, Finds, body_of, wanted_of};

use refusals::{Refusal, Refused};

// The most bytes of a body that is read.
pub const LIMIT: usize = 65472;

// The kinds of record.
#[derive(Clone, Copy, Debug, PartialEq, Eq)]
pub enum RecordKind {
    Vectors = 1,
    Line = 2,
}

impl RecordKind {
    // The number that the document gives a kind.
    pub fn number(self) -> usize
        ensures { (result ≡ kind_number self) × (result < 65536) }
    {
        self as usize
    }
}

// The kind that has a number.
impl TryFrom<usize> for RecordKind {
    type Error = Refusal;

    ghost try_from_gives = { λ number r. r ≡ kind_of number };

    fn try_from(number: usize) -> Result<RecordKind, Refusal> {
        match number {
            1 => Ok(RecordKind::Vectors),
            2 => Ok(RecordKind::Line),
            _ => Err(Refusal::RecordKind),
        }
    }
}

// A whole record: its body is len bytes from start, and next is the place after it.
#[derive(Clone, Copy, Debug, PartialEq, Eq)]
pub struct Record {
    pub kind: RecordKind,
    pub start: usize,
    pub len: usize,
    pub next: usize,
}

// The two-byte number at a place, lowest byte first.
fn two(s: &[u8], i: usize) -> usize
    requires { i + 1 < length s.now }
    ensures value { result ≡ two_at s.now i }
    ensures upper_bound { result < 65536 }
{
    usize::from(u16::from_le_bytes([s[i], s[i + 1]]))
}

// Whether a vector record's body is not whole groups of four vectors. It takes any number for a kind, as it did since docs/landings/07.md.
pub fn not_groups(kind: usize, len: usize) -> bool
    ensures { result ≡ not_groups kind len }
{
    kind == 1 && len % 40 != 0
}

// The record whose head is at a place of s, or none where no bytes are left: a plain end of records. A refusal has the place of the head.
#[tactic(auto, using(std::proofs::lemmas::Bool::Decides::nat_tests), unfolding(crate::specs::Record::read_at, crate::specs::Record::read_checks, refusals::specs::First::first))]
pub fn read(s: &[u8], at: usize) -> Result<Option<Record>, Refused>
    ensures { Finds s.now at result }
{
    if s.len() <= at {
        return Ok(None);
    }
    let left = s.len() - at;
    if left < 4 {
        return Err(Refused(Refusal::Cut, at));
    }
    let len = two(s, at);
    if LIMIT < len {
        return Err(Refused(Refusal::LongBody, at));
    }
    let kind = RecordKind::try_from(two(s, at + 2)).map_err(|why| Refused(why, at))?;
    if left < len + 4 {
        return Err(Refused(Refusal::Cut, at));
    }
    if not_groups(kind.number(), len) {
        return Err(Refused(Refusal::NotGroups, at));
    }
    let start = at + 4;
    Ok(Some(Record {
        kind,
        start,
        len,
        next: start + len,
    }))
}

// How many bytes to read after these head bytes before the record can be judged.
#[tactic(auto, using(std::proofs::lemmas::Bool::Decides::nat_tests), unfolding(crate::specs::Record::wanted_of))]
pub fn wanted(head: &[u8]) -> usize
    ensures { (result ≡ wanted_of body_limit head.now) × (result ≤ body_limit) }
{
    if head.len() < 4 {
        return 0;
    }
    let n = two(head, 0);
    if LIMIT < n { 0 } else { n }
}

// A body, as the part of s that it is: no copy.
#[tactic(auto, using(std::proofs::lemmas::Bool::Decides::nat_tests), unfolding(crate::specs::Record::body_of))]
pub fn body(s: &[u8], start: usize, len: usize) -> &[u8]
    ensures { result.now ≡ body_of s.now start len }
{
    s.get(start..)
        .and_then(|rest| rest.get(..len))
        .unwrap_or(&[])
}
