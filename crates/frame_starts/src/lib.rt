// Where frames begin: document 02, 5/13.
#![tactic(auto)]

ghost use Rattle.std.specs.Prelude.{◌≡◌, ◌/◌, ◌≤◌, length};
ghost use Rattle.frames.specs.Frames.{word_list, frames_of};
ghost use Rattle.frames.specs.Words.{quiet_before};
ghost use Rattle.frame_starts.specs.Finds.{FindsStart};

use frames::{has_start, is_quiet, nth_word};

// Whether a frame may begin in word k, by the word before it.
fn quiet_before(bytes: &[u8], k: usize) -> bool
    requires { k ≤ length bytes.now / 5 }
    ensures { result ≡ quiet_before bytes.now k }
{
    k > 0 && is_quiet(nth_word(bytes, k - 1))
}

// The number of frames. By the number of a word, not by `chunks_exact`, with which it took 1.3 times as long.
pub fn count(bytes: &[u8]) -> usize
    ensures { (result ≡ length (frames_of (word_list bytes.now))) × (result ≤ length bytes.now / 5) }
{
    let mut n = 0;
    let mut before = false;
    for k in 0..bytes.len() / 5 {
        let word = nth_word(bytes, k);
        n += usize::from(before && has_start(word));
        before = is_quiet(word);
    }
    n
}

// The next word from k on in which a frame begins.
pub fn next_start(bytes: &[u8], k: usize) -> Option<usize>
    requires { k ≤ length bytes.now / 5 }
    ensures { FindsStart bytes.now k result }
{
    let mut before = quiet_before(bytes, k);
    for j in k..bytes.len() / 5 {
        let word = nth_word(bytes, j);
        if before && has_start(word) {
            return Some(j);
        }
        before = is_quiet(word);
    }
    None
}
