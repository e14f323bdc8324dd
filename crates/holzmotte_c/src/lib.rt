// The functions of include/holzmotte.h, as C calls them: each is the library's of the same name, and promises the same. A slice is a pointer and its
// length there. The header says what each pointer is.
#![tactic(auto)]

ghost use Rattle.holzmotte.specs.Boundary.{SendsThroughC, ReceivesThroughC};
ghost use Rattle.holzmotte_bursts.specs.Boundary.{BeginsThroughC, burst_left, close_left, Leaves};
ghost use Rattle.holzmotte_records.specs.Boundary.{ReadsThroughC, WritesThroughC};
ghost use Rattle.holzmotte_frames.specs.Boundary.{ListsThroughC};
ghost use Rattle.holzmotte_index.specs.Boundary.{IndexesThroughC, CountsThroughC, FindsThroughC};

// Sends a list of vectors: the line's bytes go to the start of the room, three words to the summary.
#[unsafe(no_mangle)]
pub extern "C" fn holzmotte_send(
    edition: u64,
    vectors: &[u8],
    start: u64,
    line: &mut [u8],
    summary: &mut [u8],
) -> u64
    ensures { SendsThroughC edition vectors.now start line.old summary.old result line.new summary.new }
{
    holzmotte::holzmotte_send(edition, vectors, start, line, summary)
}

// Receives a line: a vector for each tested block goes to the room, twelve words to the summary, and what was counted is added to the counters.
#[unsafe(no_mangle)]
pub extern "C" fn holzmotte_receive(
    edition: u64,
    line: &[u8],
    vectors: &mut [u8],
    summary: &mut [u8],
    counters: &mut [u8],
) -> u64
    ensures { ReceivesThroughC edition line.now vectors.old summary.old counters.old result vectors.new summary.new counters.new }
{
    holzmotte::holzmotte_receive(edition, line, vectors, summary, counters)
}

// A fresh state of an edition (0 old, 1 new) in lent bytes.
#[unsafe(no_mangle)]
pub extern "C" fn holzmotte_begin(edition: u64, state: &mut [u8]) -> u64
    ensures { BeginsThroughC edition state.old result state.new }
{
    holzmotte_bursts::holzmotte_begin(edition, state)
}

// One more part of a line: vectors to the room, twelve words to the summary, and the state after it in the state's bytes; what was counted
// is added to the counters.
#[unsafe(no_mangle)]
pub extern "C" fn holzmotte_burst(
    state: &mut [u8],
    line: &[u8],
    vectors: &mut [u8],
    summary: &mut [u8],
    counters: &mut [u8],
) -> u64
    ensures { Leaves (burst_left state.old line.now vectors.old summary.old counters.old) result state.new vectors.new summary.new counters.new }
{
    holzmotte_bursts::holzmotte_burst(state, line, vectors, summary, counters)
}

// The closing call: the last vector to the room, and the rest as a burst does.
#[unsafe(no_mangle)]
pub extern "C" fn holzmotte_close(
    state: &mut [u8],
    vectors: &mut [u8],
    summary: &mut [u8],
    counters: &mut [u8],
) -> u64
    ensures { Leaves (close_left state.old vectors.old summary.old counters.old) result state.new vectors.new summary.new counters.new }
{
    holzmotte_bursts::holzmotte_close(state, vectors, summary, counters)
}

// Reads the record whose head is at a place of a file: five words to the summary.
#[unsafe(no_mangle)]
pub extern "C" fn holzmotte_read_record(file: &[u8], place: u64, summary: &mut [u8]) -> u64
    ensures { ReadsThroughC file.now place summary.old result summary.new }
{
    holzmotte_records::holzmotte_read_record(file, place, summary)
}

// Writes a record to the start of the room.
#[unsafe(no_mangle)]
pub extern "C" fn holzmotte_write_record(kind: u64, body: &[u8], wide: u64, room: &mut [u8]) -> u64
    ensures { WritesThroughC kind body.now wide room.old result room.new }
{
    holzmotte_records::holzmotte_write_record(kind, body, wide, room)
}

// Lists the frames of a list of vectors: 12 bytes a frame to the start of the list, and their number to the summary.
#[unsafe(no_mangle)]
pub extern "C" fn holzmotte_frames(vectors: &[u8], list: &mut [u8], summary: &mut [u8]) -> u64
    ensures { ListsThroughC vectors.now list.old summary.old result list.new summary.new }
{
    holzmotte_frames::holzmotte_frames(vectors, list, summary)
}

// Builds the index of a list of vectors, which fills the lent slice.
#[unsafe(no_mangle)]
pub extern "C" fn holzmotte_index(vectors: &[u8], index: &mut [u8]) -> u64
    ensures { IndexesThroughC vectors.now index.old result index.new }
{
    holzmotte_index::holzmotte_index(vectors, index)
}

// Counts error vectors and vectors of kind S, from vector a up to but not vector b: two words to the summary.
#[unsafe(no_mangle)]
pub extern "C" fn holzmotte_count(
    vectors: &[u8],
    index: &[u8],
    a: u64,
    b: u64,
    summary: &mut [u8],
) -> u64
    ensures { CountsThroughC vectors.now index.now a b summary.old result summary.new }
{
    holzmotte_index::holzmotte_count(vectors, index, a, b, summary)
}

// Finds the n-th error vector, n from 1: its number and the entries read to the summary.
#[unsafe(no_mangle)]
pub extern "C" fn holzmotte_find_error(
    vectors: &[u8],
    index: &[u8],
    n: u64,
    summary: &mut [u8],
) -> u64
    ensures { FindsThroughC vectors.now index.now n summary.old result summary.new }
{
    holzmotte_index::holzmotte_find_error(vectors, index, n, summary)
}
