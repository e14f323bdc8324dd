// One tested block: "each tested block updates lock, then error rate, then receive state".
ghost use Rattle.std.specs.Prelude.{◌≡◌};
ghost use Rattle.receiving.specs.Machine.{valid_of, link_of, tested_of};
ghost use Rattle.receiving.specs.Ranges.{InRange};
ghost use Rattle.receiving.specs.Loop.{tested_in};

use decoding::decode;
use lock::{lock_step, rate_step};
use receiving::{Held, Link};
use scrambler::descramble;

// What testing a block gives.
#[derive(Clone, Copy, Debug, PartialEq, Eq)]
pub struct Step {
    pub link: Link,
    pub held: Held,
}

// A header is invalid if its bits are equal.
fn valid_header(header: u64) -> bool
    ensures { result ≡ valid_of header }
{
    header % 2 != header / 2 % 2
}

// One tested block: lock, error rate and descrambler, and what the receive diagram sees of it.
pub fn test_block(l: Link, header: u64, payload: u64) -> Step
    requires { InRange l }
    ensures { (result.link ≡ link_of l header payload) × (tested_in result.held ≡ tested_of l header payload) }
{
    let valid = valid_header(header);
    let locking = lock_step(l.lock, valid);
    let lock = locking.lock;
    let rate = rate_step(l.rate, l.lock.locked, lock.locked, valid);
    let plain = descramble(payload, l.history);
    let block = decode(l.edition, header, plain.word);
    Step {
        link: Link {
            lock,
            rate,
            history: plain.history,
            ..l
        },
        held: Held {
            on: lock.locked && !rate.high,
            slipped: locking.slipped,
            class: block.class,
            vector: block.vector,
        },
    }
}
