// The C boundary of capture records: byte slices and 64-bit numbers. include/holzmotte.h says what each pointer is.
#![tactic(auto)]

ghost use Rattle.std.specs.Prelude.{◌≡◌};
ghost use Rattle.records.specs.Record.{found};
ghost use Rattle.holzmotte_records.specs.Boundary.{record_words, ReadsThroughC, WritesThroughC};

use lent_words::{refusal, told};
use records::Record;
use refusals::Refused;

// The five words of the summary: 1, the kind, the start and the length of the body, the place after the record; zeros where there is no record.
fn words(answer: Option<Record>) -> [u64; 5]
    ensures { result ≡ record_words (found answer) }
{
    match answer {
        Some(r) => [
            1,
            r.kind.number() as u64,
            r.start as u64,
            r.len as u64,
            r.next as u64,
        ],
        None => [0; 5],
    }
}

// Reads the record whose head is at a place of a file: five words to the summary.
pub fn holzmotte_read_record(file: &[u8], place: u64, summary: &mut [u8]) -> u64
    ensures { ReadsThroughC file.now place summary.old result summary.new }
{
    match records::read(file, place as usize) {
        Ok(answer) => told(summary, &words(answer)),
        Err(Refused(why, at)) => {
            told(summary, &[0; 5]);
            refusal(Refused(why, at % (1 << 56)))
        }
    }
}

// Writes a record to the start of the room. (The kind and the yes or no are numbers: through C they can be any.)
pub fn holzmotte_write_record(kind: u64, body: &[u8], wide: u64, room: &mut [u8]) -> u64
    ensures { WritesThroughC kind body.now wide room.old result room.new }
{
    match record_writing::write(kind as usize, body, wide != 0, room) {
        Ok(_) => 0,
        Err(why) => refusal(why.into()),
    }
}
