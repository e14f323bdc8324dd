// The frames of a list of vectors: document 02, 5/13.
#![tactic(auto)]

ghost use Rattle.std.specs.Prelude.{◌≡◌, true, cond, ◌&&◌, [], ◌∷◌, ◌++◌, ◌+◌, ◌*◌, ◌/◌, ◌<◌, ◌≤◌, ltb, length, take, drop};
ghost use Rattle.lent_words.specs.Words.{word_bytes, flag_word};
ghost use Rattle.frames.specs.Frames.{starts};
ghost use Rattle.frames.specs.Words.{nth_word, quiet_before, frames_left};
ghost use Rattle.frame_list.specs.Answer.{entries, frames_in, frames_number, Lists};
ghost use Rattle.frame_list.specs.Listing.{ListsOn};

use frame_reading::{Ended, read_frame};
use frame_starts::{count, next_start};
use lent_words::flag;
use line::store_half;
use refusals::{Refusal, Refused};
use vector_checks::check_vectors;

// How far listing came: the word at which it goes on, and how many entries are in the list.
#[derive(Clone, Copy)]
struct Reached {
    word: usize,
    entries: usize,
}

// The entry, at a place of the list, of a frame that begins in this word.
fn put_entry(list: &mut [u8], at: usize, word: usize, frame: Ended)
    requires { at + 12 ≤ length list.old }
    ensures { list.new ≡ take at list.old ++ word_bytes 4 (word ∷ frame.octets ∷ flag_word frame.good ∷ []) ++ drop (at + 12) list.old }
{
    store_half(list, at, word as u64);
    store_half(list, at + 4, frame.octets as u64);
    store_half(list, at + 8, flag(frame.good));
}

// Reading between frames, from word k on: up to the next Start, and then inside. The compiler makes no jumps of these calls: `turns` says how
// many frames may still be read before the pair returns to be called again, so that it takes no more stack for many frames than for few.
// Document 01 names this form: "two functions in the frame crate of 02 call each other, words remaining falling".
#[cycle(between_inside)]
fn between(bytes: &[u8], list: &mut [u8], k: usize, n: usize, turns: usize) -> Reached
    requires { (k ≤ length bytes.now / 5) × (length bytes.now ≤ 1000000) × (12 * (n + length (frames_left bytes.now k)) ≤ length list.old) }
    ensures { ListsOn bytes.now k n list.old result list.new × (k < length bytes.now / 5 → k < result.word) }
{
    match next_start(bytes, k) {
        Some(start) => inside(bytes, list, start, n, turns),
        None => Reached {
            word: bytes.len() / 5,
            entries: n,
        },
    }
}

// Reading inside the frame that begins in word k: to its end, and then between frames.
#[cycle(between_inside)]
fn inside(bytes: &[u8], list: &mut [u8], k: usize, n: usize, turns: usize) -> Reached
    requires { (k < length bytes.now / 5) × (length bytes.now ≤ 1000000) × (12 * (n + length (frames_left bytes.now k)) ≤ length list.old) × ((quiet_before bytes.now k && starts (nth_word bytes.now k)) ≡ true) }
    ensures { ListsOn bytes.now k n list.old result list.new × (k < length bytes.now / 5 → k < result.word) }
{
    let frame = read_frame(bytes, k);
    put_entry(list, 12 * n, k, frame);
    if turns == 0 {
        return Reached {
            word: frame.next,
            entries: n + 1,
        };
    }
    between(bytes, list, frame.next, n + 1, turns - 1)
}

// All frames, listed from the start of the list; how many they are.
fn list_all(bytes: &[u8], list: &mut [u8]) -> usize
    requires { (length bytes.now ≤ 1000000) × (12 * frames_number bytes.now ≤ length list.old) }
    ensures { (result ≡ frames_number bytes.now) × (list.new ≡ entries (frames_in bytes.now) ++ drop (length (entries (frames_in bytes.now))) list.old) }
{
    let words = bytes.len() / 5;
    let mut r = Reached {
        word: 0,
        entries: 0,
    };
    while r.word < words {
        r = between(bytes, list, r.word, r.entries, 7);
    }
    r.entries
}

// The number of frames, for a list of so many bytes. One with 12 bytes for each vector has room for all, and they need not be counted: 0.
fn counted(bytes: &[u8], list: usize) -> usize
    ensures { (result ≡ cond (ltb (list / 12) (length bytes.now / 10)) (frames_number bytes.now) 0) × (result ≤ length bytes.now / 5) }
{
    if list / 12 < bytes.len() / 10 {
        return count(bytes);
    }
    0
}

// Lists the frames of a list of vectors, 12 bytes a frame, at the start of the lent list.
pub fn list(vectors: &[u8], list: &mut [u8]) -> Result<usize, Refused>
    ensures { Lists vectors.now list.old result list.new }
{
    check_vectors(vectors)?;
    let frames = counted(vectors, list.len());
    if list.len() < 12 * frames {
        return Err(Refused(Refusal::Room, frames));
    }
    Ok(list_all(vectors, list))
}
