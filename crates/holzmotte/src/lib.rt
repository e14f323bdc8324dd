// The C boundary: byte slices and 64-bit numbers. include/holzmotte.h says what each pointer is.
#![tactic(auto)]

ghost use Rattle.std.specs.Prelude.{◌≡◌, ℕ, ◌+◌, ◌*◌, ◌^◌, ◌<◌, length, true};
ghost use Rattle.std.specs.Result.{ForErr};
ghost use Rattle.refusals.specs.Refused.{by_result};
ghost use Rattle.slices.specs.Slices.{short_slice};
ghost use Rattle.holzmotte.specs.Boundary.{send_result, SendsThroughC, receive_result, ReceivesThroughC};

use counters::receive_by_value;
use lent_words::{put_words, refusal};
use reception::receive;
use refusals::Refused;
use sending::send;
use slices::{clear, load_counters, put_summary, short_slice, store_counters};

// What a call into no room is refused for, or else 4.
fn or_four<T: Copy>(answer: Result<T, Refused>) -> u64
    requires { ForErr answer (λ r. r.1 < 2 ^ 56) }
    ensures { result ≡ by_result (λ _. 4) (λ number place. number + 256 * place) answer }
{
    match answer {
        Ok(_) => 4,
        Err(refused) => refusal(refused),
    }
}

// The result where the summary is too short: what sending into no room is refused for, or else 4.
fn send_short(edition: u64, vectors: &[u8], start: u64) -> u64
    ensures { (room summary : ℕ) → summary < 24 → result ≡ send_result edition vectors.now start room summary }
{
    or_four(send(edition, vectors, start, &mut []))
}

// Sends a list of vectors: the line's bytes go to the start of the room, three words to the summary. A refusal writes its zeros there too, which `?`
// would pass by: so both cases stand in a match, here and in receiving.
pub fn holzmotte_send(
    edition: u64,
    vectors: &[u8],
    start: u64,
    line: &mut [u8],
    summary: &mut [u8],
) -> u64
    ensures { SendsThroughC edition vectors.now start line.old summary.old result line.new summary.new }
{
    if summary.len() < 24 {
        return send_short(edition, vectors, start);
    }
    match send(edition, vectors, start, line) {
        Ok(s) => {
            put_words(summary, &[s.state, s.diagram, s.replaced]);
            0
        }
        Err(refused) => {
            put_words(summary, &[0; 3]);
            refusal(refused)
        }
    }
}

// The result where one of the two is too short: what receiving into no room is refused for, or else 4.
fn receive_short(edition: u64, line: &[u8]) -> u64
    ensures { (room summary counters : ℕ) → short_slice summary counters ≡ true → result ≡ receive_result edition (length line.now) room summary counters }
{
    or_four(receive(edition, line, &mut []))
}

// Receives a line: a vector for each tested block goes to the room, twelve words to the summary, and what was counted is added to the counters.
pub fn holzmotte_receive(
    edition: u64,
    line: &[u8],
    vectors: &mut [u8],
    summary: &mut [u8],
    counters: &mut [u8],
) -> u64
    ensures { ReceivesThroughC edition line.now vectors.old summary.old counters.old result vectors.new summary.new counters.new }
{
    if short_slice(summary.len(), counters.len()) {
        clear(summary);
        return receive_short(edition, line);
    }
    let r = receive_by_value(edition, line, vectors, load_counters(counters));
    match r.answer {
        Ok(s) => {
            put_summary(summary, s);
            store_counters(counters, r.counters);
            0
        }
        Err(refused) => {
            clear(summary);
            refusal(refused)
        }
    }
}
