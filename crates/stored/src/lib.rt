// A state of a line that arrives in bursts, in lent bytes.
#![tactic(auto)]

ghost use Rattle.std.specs.Prelude.{◌≡◌, ◌≤◌, length, get_or};
ghost use Rattle.stored.specs.Stored.{state_words, state_by, state_in, stored_in};

use carrying::Carried;
use kept_state::{Kept, State};
use lent_words::put_words;
use line::load;
use lock::{Lock, Rate};
use receiving::{Counts, Handed};

// The words of a state.
fn words(s: State) -> [u64; 29]
    ensures { result ≡ state_words s }
{
    [
        u64::from(s.closed),
        s.bytes,
        s.lock.tested,
        s.lock.invalid,
        u64::from(s.lock.locked),
        s.rate.blocks,
        s.rate.invalid,
        u64::from(s.rate.high),
        s.history,
        s.carried.count,
        s.carried.header,
        s.carried.payload,
        u64::from(s.skip),
        s.diagram,
        u64::from(s.have),
        u64::from(s.held.on),
        s.held.kind,
        s.held.first,
        s.held.second,
        s.counts.tested,
        s.counts.slips,
        s.vectors,
        s.counts.headers,
        s.counts.types,
        s.counts.codes,
        s.counts.sets,
        s.handed.begun,
        s.handed.replaced,
        s.edition,
    ]
}

// The state of some words. Any number but 0 is a yes.
fn state_of(w: [u64; 29]) -> State
    ensures { result ≡ state_by (λ i. get_or w i 0) }
{
    State {
        closed: w[0] != 0,
        bytes: w[1],
        edition: w[28],
        lock: Lock {
            tested: w[2],
            invalid: w[3],
            locked: w[4] != 0,
        },
        rate: Rate {
            blocks: w[5],
            invalid: w[6],
            high: w[7] != 0,
        },
        history: w[8],
        carried: Carried {
            count: w[9],
            header: w[10],
            payload: w[11],
        },
        skip: w[12] != 0,
        diagram: w[13],
        have: w[14] != 0,
        held: Kept {
            on: w[15] != 0,
            kind: w[16],
            first: w[17],
            second: w[18],
        },
        counts: Counts {
            tested: w[19],
            slips: w[20],
            headers: w[22],
            types: w[23],
            codes: w[24],
            sets: w[25],
        },
        vectors: w[21],
        handed: Handed {
            begun: w[26],
            replaced: w[27],
        },
    }
}

// The state in a slice, which is long enough.
pub fn load_state(bytes: &[u8]) -> State
    requires { 232 ≤ length bytes.now }
    ensures { result ≡ state_in bytes.now }
{
    let mut w = [0; 29];
    for (i, word) in w.iter_mut().enumerate() {
        *word = load(bytes, 8 * i);
    }
    state_of(w)
}

// A state put at the start of a slice, which is long enough.
pub fn store_state(bytes: &mut [u8], s: State)
    requires { 232 ≤ length bytes.old }
    ensures { bytes.new ≡ stored_in s bytes.old }
{
    put_words(bytes, &words(s));
}
