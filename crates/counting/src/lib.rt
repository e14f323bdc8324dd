// What a tested block is counted for, and what a vector handed out.
#![tactic(auto)]

ghost use Rattle.std.specs.Prelude.{◌≡◌, cond};
ghost use Rattle.block.specs.declared.Class.TheVariants.{Bad};
ghost use Rattle.receiving.specs.Counted.{reasoned, counted, Within, decoded_out, replaced_out, HandedWithin};
ghost use Rattle.receiving.specs.Loop.{tested_in};

use block::{Class, Reason};
use receiving::{Counts, Handed, Held};

// The counts with one more block that is bad for this reason.
#[tactic(auto, unfolding(receiving::specs::Counted::reasoned))]
fn count_reason(c: Counts, why: Reason) -> Counts
    requires { Within 6600001 c }
    ensures { result ≡ reasoned c (Bad why) }
{
    match why {
        Reason::Header => Counts {
            headers: c.headers + 1,
            ..c
        },
        Reason::BlockType => Counts {
            types: c.types + 1,
            ..c
        },
        Reason::ControlCode => Counts {
            codes: c.codes + 1,
            ..c
        },
        Reason::SetCode => Counts {
            sets: c.sets + 1,
            ..c
        },
    }
}

// The counts with one more tested block.
#[tactic(auto, unfolding(receiving::specs::Counted::counted, receiving::specs::Counted::reasoned, receiving::specs::Loop::tested_in))]
pub fn count_block(c: Counts, h: Held) -> Counts
    requires { Within 6600000 c }
    ensures { result ≡ counted c (tested_in h) }
{
    let r = Counts {
        tested: c.tested + 1,
        slips: c.slips + u64::from(h.slipped),
        ..c
    };
    match h.class {
        Class::Bad(why) => count_reason(r, why),
        Class::D | Class::C | Class::S | Class::T | Class::LI => r,
    }
}

// The counts with one more vector: that of a block as decoded, which begins a frame if the block is of kind S, or else the error vector.
pub fn count_vector(n: Handed, class: Class, decoded: bool) -> Handed
    requires { HandedWithin 6600000 n }
    ensures { result ≡ cond decoded (decoded_out n class) (replaced_out n) }
{
    if decoded {
        Handed {
            begun: n.begun + u64::from(class == Class::S),
            ..n
        }
    } else {
        Handed {
            replaced: n.replaced + 1,
            ..n
        }
    }
}
