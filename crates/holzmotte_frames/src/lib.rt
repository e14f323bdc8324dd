// The C boundary of frames: byte slices and 64-bit numbers. include/holzmotte.h says what each pointer is.
#![tactic(auto)]

ghost use Rattle.std.specs.Prelude.{◌≡◌, ℕ, ◌<◌};
ghost use Rattle.holzmotte_frames.specs.Boundary.{frames_result, ListsThroughC};

use lent_words::{put_words, refusal};
use refusals::Refusal;

// The result where the summary is too short: what listing into no room is refused for, or else 4. A refusal 4 has no place then.
fn frames_short(vectors: &[u8]) -> u64
    ensures { (list summary : ℕ) → summary < 8 → result ≡ frames_result vectors.now list summary }
{
    match frame_list::list(vectors, &mut []) {
        Ok(_) => 4,
        Err(refused) => {
            if refused.0 == Refusal::Room {
                return 4;
            }
            refusal(refused)
        }
    }
}

// Lists the frames of a list of vectors: 12 bytes a frame to the start of the list, and their number to the summary.
pub fn holzmotte_frames(vectors: &[u8], list: &mut [u8], summary: &mut [u8]) -> u64
    ensures { ListsThroughC vectors.now list.old summary.old result list.new summary.new }
{
    if summary.len() < 8 {
        return frames_short(vectors);
    }
    match frame_list::list(vectors, list) {
        Ok(n) => {
            put_words(summary, &[n as u64]);
            0
        }
        Err(refused) => {
            put_words(summary, &[0; 1]);
            refusal(refused)
        }
    }
}
