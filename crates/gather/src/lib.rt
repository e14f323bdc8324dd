// What the two programs do with each record of their input.
#![tactic(auto)]

ghost use Rattle.std.specs.Prelude.{◌≡◌, ◌≤◌, length, take};
ghost use Rattle.records.specs.Record.{body_limit};
ghost use Rattle.gather.specs.Gather.{more, next, next_read, read_of, count_of, Shows};
ghost use Rattle.gather.specs.declared.Stop.TheVariants as Why;

use refusals::{Refusal, Refused};
use std::io;

// Where a record leaves the gathering.
#[derive(Clone, Copy, Debug, PartialEq, Eq)]
pub enum Step {
    // So many bytes are gathered now.
    More(usize),
    // The records ended, with so many gathered.
    Done(usize),
}

// Why no more is gathered.
#[derive(Clone, Copy, Debug, PartialEq, Eq)]
pub enum Stop {
    Refused(Refusal),
    // A read failed.
    Failed,
}

impl From<Refused> for Stop {
    ghost from_gives = { λ refused r. r ≡ Why.Refused refused.0 };

    fn from(refused: Refused) -> Stop {
        Stop::Refused(refused.0)
    }
}

impl From<io::Error> for Stop {
    ghost from_gives = { λ _ r. r ≡ Why.Failed };

    fn from(_error: io::Error) -> Stop {
        Stop::Failed
    }
}

// Judges the record in a window of the input, and puts its body into the store, of which so many bytes are gathered.
fn judge_window(window: &[u8], kind: usize, store: &mut [u8], used: usize) -> Result<Step, Stop>
    requires { used ≤ length store.old }
    ensures { Shows (next body_limit kind (length store.old) window.now 0 (more (take used store.old))) store.old result store.new }
{
    let Some(record) = records::read(window, 0)? else {
        return Ok(Step::Done(used));
    };
    if record.kind.number() != kind {
        return Err(Stop::Refused(Refusal::RecordKind));
    }
    let left = store.len() - used;
    if left < record.len {
        return Err(Stop::Refused(Refusal::TooMuch));
    }
    putting::put(records::body(window, record.start, record.len), store, used);
    Ok(Step::More(used + record.len))
}

// Judges what reading the window of a record into the buffer came to: so many bytes of it, or a failed read. (The kind is a number, as `gathered` of
// `input` takes it, which docs/PROMISES.md names.)
#[tactic(auto, using(crate::proofs::Judged::kept))]
pub fn judge(
    read: io::Result<usize>,
    buffer: &[u8],
    kind: usize,
    store: &mut [u8],
    used: usize,
) -> Result<Step, Stop>
    requires { (count_of read ≤ length buffer.now) × (used ≤ length store.old) }
    ensures { Shows (next_read body_limit kind (length store.old) (read_of read buffer.now) (more (take used store.old))) store.old result store.new }
{
    let n = read?;
    judge_window(&buffer[..n], kind, store, used)
}
