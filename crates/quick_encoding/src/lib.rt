// Blocks that are known by a look at all eight octets of a vector.
#![tactic(auto)]

ghost use Rattle.std.specs.Prelude.{◌≡◌, ℕ, ◌+◌, ◌*◌, ◌<◌, ◌≤◌, ◌^◌, IfSome, IfNone};
ghost use Rattle.quick_encoding.specs.Quick.{QuicklyCoded};

use block::{Coded, Kind};

// A control block.
fn control_block(kind: Kind, payload: u64) -> Coded
    ensures { result ≡ record { kind = kind; header = 1; payload = payload } }
{
    Coded {
        kind,
        header: 1,
        payload,
    }
}

// How many data octets stand before control characters alone, if that is what the control bytes say. The numbers of each control byte stand in
// one word, four bits for each.
fn before(c0: u8, c1: u8) -> Option<u64>
    requires { (c0 ≤ 15) × (c1 ≤ 15) }
    ensures found { IfSome result (λ k. (k < 8) × (c0 + 16 * c1 + 2 ^ k ≡ 256)) }
    ensures other { IfNone result ((j : ℕ) → j < 8 → c0 + 16 * c1 + 2 ^ j ≡ 256 → ⊥) }
{
    let numbers: u64 = 0x01f2_fff3_ffff_fff4;
    let k = (numbers >> (4 * c0)) % 16 + (numbers >> (4 * c1)) % 16;
    if k < 8 && u64::from(c0) + 16 * u64::from(c1) + (1 << k) == 256 {
        Some(k)
    } else {
        None
    }
}

// k data octets, Terminate and idles; or eight idles.
fn quick_end(k: u64, c0: u8, c1: u8, lanes: u64) -> Option<Coded>
    requires { (k < 8) × (c0 ≤ 15) × (c1 ≤ 15) × (c0 + 16 * c1 + 2 ^ k ≡ 256) }
    ensures { QuicklyCoded c0 c1 lanes result }
{
    let end: u64 = 0x0707_0707_0707_07fd << (8 * k);
    if lanes >> (8 * k) == end >> (8 * k) {
        let code = (0xffe1_d2cc_b4aa_9987 >> (8 * k)) % 256;
        Some(control_block(Kind::T, ((lanes - end) << 8) + code))
    } else if k == 0 && lanes == 0x0707_0707_0707_0707 {
        Some(control_block(Kind::C, 0x1e))
    } else {
        None
    }
}

// Data octets after a control character: a Start, in either word, after idles; two ordered sets; or what no block carries.
fn quick_other(c0: u8, c1: u8, lanes: u64) -> Option<Coded>
    requires { (c0 ≤ 15) × (c1 ≤ 15) × (0 < c0 + 16 * c1) × ((j : ℕ) → j < 8 → c0 + 16 * c1 + 2 ^ j ≡ 256 → ⊥) }
    ensures { QuicklyCoded c0 c1 lanes result }
{
    match u64::from(c0) + 16 * u64::from(c1) {
        0x01 if lanes % 256 == 0xfb => Some(control_block(Kind::S, lanes - 0xfb + 0x78)),
        0x11 if lanes % 256 == 0x9c && (lanes >> 32) % 256 == 0x9c => Some(control_block(
            Kind::C,
            lanes - 0x9c_0000_009c + 0x55,
        )),
        0x1f if lanes % 0x0100_0000_0000 == 0xfb_0707_0707 => Some(control_block(
            Kind::S,
            lanes - 0xfb_0707_0707 + 0x33,
        )),
        0x01 | 0x11 | 0x1f | 0xf1 => None,
        _ => Some(control_block(Kind::E, 0x3c78_f1e3_c78f_1e1e)),
    }
}

// The block of a vector, where a look at all eight octets tells it.
pub fn quick(c0: u8, c1: u8, lanes: u64) -> Option<Coded>
    requires { (c0 ≤ 15) × (c1 ≤ 15) }
    ensures quickly_coded { QuicklyCoded c0 c1 lanes result }
    ensures has_control { IfNone result (0 < c0 + 16 * c1) }
{
    if u64::from(c0) + 16 * u64::from(c1) == 0 {
        return Some(Coded {
            kind: Kind::D,
            header: 2,
            payload: lanes,
        });
    }
    match before(c0, c1) {
        Some(k) => quick_end(k, c0, c1, lanes),
        None => quick_other(c0, c1, lanes),
    }
}
