// One record of a capture: its body is handed on, as the part of the capture that it is, to sending or to receiving.
#![tactic(auto)]

ghost use Rattle.std.specs.Prelude.{◌≡◌};
ghost use Rattle.records.specs.Record.{kind_number};
ghost use Rattle.captures.specs.Captures.{body_of_kind, found_of, SendsRecord, ReceivesRecord};

use receiving::Summary;
use records::RecordKind;
use refusals::{Refusal, Refused};
use sending::Sending;

// The body of the record at a place, if it is of this kind; none where no bytes are left. A refusal has the place of the head.
fn body_of_kind(file: &[u8], at: usize, kind: RecordKind) -> Result<Option<&[u8]>, Refused>
    ensures { found_of result ≡ body_of_kind (kind_number kind) file.now at }
{
    let Some(record) = records::read(file, at)? else {
        return Ok(None);
    };
    if record.kind != kind {
        return Err(Refused(Refusal::RecordKind, at));
    }
    Ok(Some(records::body(file, record.start, record.len)))
}

// Sends the vectors of the record at a place of a capture, in the old edition, as every record is: what sending answers to them, or none at a
// plain end of records. Where the record is refused, nothing is handed on.
// (This and receiving stay two functions of a few lines: one over a closure that writes to the room would be longer.)
pub fn send_record(
    file: &[u8],
    at: usize,
    state: u64,
    line: &mut [u8],
) -> Result<Option<Result<Sending, Refused>>, Refused>
    ensures { SendsRecord file.now at state line.old result line.new }
{
    let Some(vectors) = body_of_kind(file, at, RecordKind::Vectors)? else {
        return Ok(None);
    };
    Ok(Some(sending::send(0, vectors, state, line)))
}

// Receives the line bytes of the record at a place of a capture, in the old edition, and answers likewise.
pub fn receive_record(
    file: &[u8],
    at: usize,
    room: &mut [u8],
) -> Result<Option<Result<Summary, Refused>>, Refused>
    ensures { ReceivesRecord file.now at room.old result room.new }
{
    let Some(line) = body_of_kind(file, at, RecordKind::Line)? else {
        return Ok(None);
    };
    Ok(Some(reception::receive(0, line, room)))
}
