// What every call through C answers, and words in a lent slice.
#![tactic(auto)]

ghost use Rattle.std.specs.Prelude.{◌≡◌, cond, ◌++◌, ◌+◌, ◌*◌, ◌^◌, ◌≤◌, ◌<◌, length, drop};
ghost use Rattle.std.specs.Result.{ForErr};
ghost use Rattle.refusals.specs.Number.{number_of};
ghost use Rattle.refusals.specs.Refused.{verdict_of};
ghost use Rattle.lent_words.specs.Words.{result_of, flag_word, word_bytes, too_short, summary_with};

use line::store;
use refusals::{Refusal, Refused};

// A refusal as a result.
pub fn refusal(refused: Refused) -> u64
    requires { refused.1 < 2 ^ 56 }
    ensures { result ≡ number_of refused.0 + 256 * refused.1 }
{
    let Refused(why, place) = refused;
    why.number() + 256 * (place as u64)
}

// What a call came to, as its result: 0, or its refusal.
pub fn result_of(answer: Result<(), Refused>) -> u64
    requires { ForErr answer (λ r. r.1 < 2 ^ 56) }
    ensures { result ≡ result_of (verdict_of answer) }
{
    match answer {
        Ok(()) => 0,
        Err(refused) => refusal(refused),
    }
}

// Words at the start of a summary.
pub fn put_words(summary: &mut [u8], words: &[u64])
    requires { 8 * length words.now ≤ length summary.old }
    ensures { summary.new ≡ word_bytes 8 words.now ++ drop (8 * length words.now) summary.old }
{
    for (i, &word) in words.iter().enumerate() {
        store(summary, 8 * i, word);
    }
}

// Words to the summary; or refusal 4, where it is too short for them.
pub fn told(summary: &mut [u8], words: &[u64]) -> u64
    ensures { (result ≡ cond (too_short 8 (length words.now) (length summary.old)) 4 0) × (summary.new ≡ summary_with (length words.now) words.now summary.old) }
{
    if summary.len() < 8 * words.len() {
        return Refusal::Room.number();
    }
    put_words(summary, words);
    0
}

// 1 for true, 0 for false: the library's conversion, under a name for those that still call it.
pub fn flag(b: bool) -> u64
    ensures { result ≡ flag_word b }
{
    u64::from(b)
}
