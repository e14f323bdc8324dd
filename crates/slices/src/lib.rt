// What C lends to receiving beside a line and room for vectors: a summary and the counters, as words in byte slices.
#![tactic(auto)]

ghost use Rattle.std.specs.Prelude.{◌≡◌, ◌++◌, ◌≤◌, length, drop, replicate};
ghost use Rattle.bits.specs.Bits.{bit, cut};
ghost use Rattle.receiving.specs.Answer.{received};
ghost use Rattle.lent_words.specs.Words.{word_bytes, summary_with};
ghost use Rattle.slices.specs.Slices.{short_slice, counters_in, counters_with, receive_length, receive_words};

use counters::Counters;
use lent_words::put_words;
use line::load_half;
use receiving::Summary;

// ---- the counters

// The counters that a slice holds.
pub fn load_counters(bytes: &[u8]) -> Counters
    requires { 32 ≤ length bytes.now }
    ensures { result ≡ counters_in bytes.now }
{
    Counters {
        tested: load_half(bytes, 0) as u32,
        slips: load_half(bytes, 4) as u32,
        headers: load_half(bytes, 8) as u32,
        types: load_half(bytes, 12) as u32,
        codes: load_half(bytes, 16) as u32,
        sets: load_half(bytes, 20) as u32,
        begun: load_half(bytes, 24) as u32,
        replaced: load_half(bytes, 28) as u32,
    }
}

// Two counters as one word of a slice: words are put as wholes of 64 bits.
fn pair(a: u32, b: u32) -> u64
    ensures { cut 8 (bit result) 8 ≡ cut 8 (bit a) 4 ++ cut 8 (bit b) 4 }
{
    u64::from(a) + 4294967296 * u64::from(b)
}

// Counters at the start of a slice.
pub fn store_counters(bytes: &mut [u8], c: Counters)
    requires { 32 ≤ length bytes.old }
    ensures { bytes.new ≡ counters_with c bytes.old }
{
    put_words(
        bytes,
        &[
            pair(c.tested, c.slips),
            pair(c.headers, c.types),
            pair(c.codes, c.sets),
            pair(c.begun, c.replaced),
        ],
    );
}

// ---- receiving's summary

// Whether the summary or the counters are too short.
pub fn short_slice(summary: usize, counters: usize) -> bool
    ensures { result ≡ short_slice summary counters }
{
    summary < 96 || counters < 32
}

// The twelve words of receiving's summary.
pub fn put_summary(summary: &mut [u8], s: Summary)
    requires { 96 ≤ length summary.old }
    ensures { summary.new ≡ word_bytes 8 (receive_words (received s)) ++ drop 96 summary.old }
{
    put_words(
        summary,
        &[
            s.counts.tested,
            s.counts.slips,
            u64::from(s.locked),
            u64::from(s.high),
            s.vectors,
            s.counts.headers,
            s.counts.types,
            s.counts.codes,
            s.counts.sets,
            u64::from(s.alone),
            s.handed.begun,
            s.handed.replaced,
        ],
    );
}

// The zeros of a refusal, in a summary that is long enough for them.
pub fn clear(summary: &mut [u8])
    ensures { summary.new ≡ summary_with receive_length (replicate receive_length 0) summary.old }
{
    if 96 <= summary.len() {
        put_words(summary, &[0; 12]);
    }
}
