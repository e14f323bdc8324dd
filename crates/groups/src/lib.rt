// Four vectors sent at a time. Document 01, 'Vectors, words and line bits': "four vectors (40 bytes) give 33 line bytes".
#![tactic(auto)]

ghost use Rattle.std.specs.Prelude.{◌≡◌, true, List, ℕ, ◌+◌, ◌%◌, ◌^◌, ◌<◌, ◌≤◌, length, get_or, drop};
ghost use Rattle.block.specs.Block.{vectors_in};
ghost use Rattle.control_bytes.specs.Control.{Low};
ghost use Rattle.groups.specs.Four.{octets_at, Codes, CodedAlike, AllAre, controls_at, group_of, SentFour};

use block::{Coded, Edition, Kind};
use encoding::{encode, lanes_at};
use line::Block;
use transmit::{Sender, Step, idles, low_power, send_after, send_one};

// Four vectors sent: their blocks as they go on the line, and where sending then stands. Not an array of blocks: the line takes each by
// itself, shifted by its own number of bits.
#[derive(Clone, Copy)]
pub struct Group {
    pub a: Block,
    pub b: Block,
    pub c: Block,
    pub d: Block,
    pub next: Sender,
}

// The eight octets of the vector at a place of the vector bytes, character 0 lowest.
fn octets_at(bytes: &[u8], at: usize) -> u64
    requires { at + 10 ≤ length bytes.now }
    ensures { result ≡ octets_at bytes.now at }
{
    u64::from(lanes_at(bytes, at + 1)) + u64::from(lanes_at(bytes, at + 6)) * 4294967296
}

// The vector at a place of the vector bytes, encoded: one without control characters.
fn data_at(bytes: &[u8], at: usize) -> Coded
    requires { (at + 10 ≤ length bytes.now) × (get_or bytes.now at 0 + get_or bytes.now (at + 5) 0 ≡ 0) }
    ensures { (ed : Edition) → Codes ed bytes.now at result }
{
    Coded {
        kind: Kind::D,
        header: 2,
        payload: octets_at(bytes, at),
    }
}

// The same of any vector.
fn vector_at(edition: Edition, bytes: &[u8], at: usize) -> Coded
    requires { (at + 10 ≤ length bytes.now) × (get_or bytes.now at 0 ≤ 15) × (get_or bytes.now (at + 5) 0 ≤ 15) }
    ensures { Codes edition bytes.now at result }
{
    let c0 = bytes[at];
    let c1 = bytes[at + 5];
    if c0 == 0 && c1 == 0 {
        data_at(bytes, at)
    } else {
        encode(
            edition,
            c0,
            lanes_at(bytes, at + 1),
            c1,
            lanes_at(bytes, at + 6),
        )
    }
}

// Four vectors sent one after the other, as a group.
fn group_of(first: Step, second: Step, third: Step, fourth: Step) -> Group
    ensures { result ≡ group_of first second third fourth }
{
    Group {
        a: first.block,
        b: second.block,
        c: third.block,
        d: fourth.block,
        next: fourth.next,
    }
}

// Four vectors sent, from a place of the vector bytes on. The scrambler's shorter way makes these no faster.
fn send_each(edition: Edition, bytes: &[u8], at: usize, s: Sender) -> Group
    requires { (at + 40 ≤ length bytes.now) × (s.history < 2 ^ 58) × (s.replaced ≤ 1000000) × (at % 5 ≡ 0) × Low bytes.now }
    ensures { SentFour edition s (vectors_in 4 (drop at bytes.now)) result }
{
    let first = send_one(vector_at(edition, bytes, at), s);
    let second = send_one(vector_at(edition, bytes, at + 10), first.next);
    let third = send_one(vector_at(edition, bytes, at + 20), second.next);
    let fourth = send_one(vector_at(edition, bytes, at + 30), third.next);
    group_of(first, second, third, fourth)
}

// The same of four without control characters. What the diagram does is then known but for the first, so this is short.
fn send_data(bytes: &[u8], at: usize, s: Sender) -> Group
    requires { (at + 40 ≤ length bytes.now) × (s.history < 2 ^ 58) × (s.replaced ≤ 1000000) × (controls_at bytes.now at ≡ 0) }
    ensures { (ed : Edition) → SentFour ed s (vectors_in 4 (drop at bytes.now)) result }
{
    let first = send_one(data_at(bytes, at), s);
    let second = send_after(data_at(bytes, at + 10), first);
    let third = send_after(data_at(bytes, at + 20), second);
    let fourth = send_after(data_at(bytes, at + 30), third);
    group_of(first, second, third, fourth)
}

// The same of four that are all encoded as e. A part of its caller, where e is known: what the diagram does is then known too.
#[inline(always)]
fn send_alike(e: Coded, s: Sender) -> Group
    requires { (s.history < 2 ^ 58) × (s.replaced ≤ 1000000) }
    ensures { (ed : Edition) (bytes : List ℕ) (at : ℕ) → CodedAlike ed bytes at e → SentFour ed s (vectors_in 4 (drop at bytes)) result }
{
    let first = send_one(e, s);
    let second = send_after(e, first);
    let third = send_after(e, second);
    let fourth = send_after(e, third);
    group_of(first, second, third, fourth)
}

// Whether the octets of four vectors are all these.
fn all_are(bytes: &[u8], at: usize, octets: u64) -> bool
    requires { at + 40 ≤ length bytes.now }
    ensures { result ≡ true → AllAre bytes.now at octets }
{
    octets_at(bytes, at) == octets
        && octets_at(bytes, at + 10) == octets
        && octets_at(bytes, at + 20) == octets
        && octets_at(bytes, at + 30) == octets
}

// The control bytes of four vectors, added up: 0 where all characters are data, 120 where none is.
fn controls_at(bytes: &[u8], at: usize) -> u8
    requires { (at + 40 ≤ length bytes.now) × (at % 5 ≡ 0) × Low bytes.now }
    ensures { result ≡ controls_at bytes.now at }
{
    bytes[at]
        + bytes[at + 5]
        + bytes[at + 10]
        + bytes[at + 15]
        + bytes[at + 20]
        + bytes[at + 25]
        + bytes[at + 30]
        + bytes[at + 35]
}

// Four vectors sent: four of data, of idles or of low power idles at once.
pub fn send_four(edition: Edition, bytes: &[u8], at: usize, s: Sender) -> Group
    requires { (at + 40 ≤ length bytes.now) × (s.history < 2 ^ 58) × (s.replaced ≤ 1000000) × (at % 5 ≡ 0) × Low bytes.now }
    ensures { SentFour edition s (vectors_in 4 (drop at bytes.now)) result }
{
    let controls = controls_at(bytes, at);
    if controls == 0 {
        return send_data(bytes, at, s);
    }
    if controls == 120 {
        if all_are(bytes, at, 0x0707_0707_0707_0707) {
            return send_alike(idles(), s);
        }
        if edition == Edition::New && all_are(bytes, at, 0x0606_0606_0606_0606) {
            return send_alike(low_power(), s);
        }
    }
    send_each(edition, bytes, at, s)
}
