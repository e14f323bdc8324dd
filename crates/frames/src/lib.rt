// One word, as reading frames looks at it: document 02, 5/13.
#![tactic(auto)]

ghost use Rattle.std.specs.Prelude.{◌≡◌, ◌/◌, ◌<◌, length};
ghost use Rattle.frames.specs.Frames.{quiet, starts};
ghost use Rattle.frames.specs.Words.{nth_word};

use line::load_half;

// Word k of a list of words: its control byte, and its four lanes.
pub fn nth_word(bytes: &[u8], k: usize) -> &[u8]
    requires { k < length bytes.now / 5 }
    ensures { result.now ≡ nth_word bytes.now k }
{
    &bytes[5 * k..5 * k + 5]
}

// "four idles or a sequence ordered set": the four flags and the lanes as one number, of which no test waits for another.
pub fn is_quiet(word: &[u8]) -> bool
    requires { length word.now ≡ 5 }
    ensures { result ≡ quiet word.now }
{
    let word = u64::from(word[0]) % 16 + load_half(word, 1) * 256;
    word == 0x07_0707_070f || word % 65536 == 0x9c01
}

// "Start in lane 0 of a word": its flag and its octet as one number.
pub fn has_start(word: &[u8]) -> bool
    requires { length word.now ≡ 5 }
    ensures { result ≡ starts word.now }
{
    u64::from(word[0]) % 2 + u64::from(word[1]) * 256 == 0xfb01
}
