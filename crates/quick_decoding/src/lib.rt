// A block that is decoded at once: its class and its vector.
#![tactic(auto)]

ghost use Rattle.quick_decoding.specs.AtOnce.{DecodedAtOnce};

use block::Class;
use shapes::shape_of;
use vectors::Vector;

// What a block decodes to: its class, and its vector, the error vector where it is bad.
#[derive(Clone, Copy, Debug, PartialEq, Eq)]
pub struct Decoded {
    pub class: Class,
    pub vector: Vector,
}

// A block with this header and payload, decoded at once where all its codes are 0. Those are idles, ordered sets, Starts, Terminates and data,
// which are the same in both editions.
pub fn quick(header: u64, payload: u64) -> Option<Decoded>
    ensures { DecodedAtOnce header payload result }
{
    let s = shape_of(header % 2 * (payload % 16));
    if header == s.header && payload & s.codes == s.first {
        let x = ((payload >> s.shift) & s.lanes) | s.fixed;
        Some(Decoded {
            class: s.class,
            vector: Vector {
                c0: s.c0,
                c1: s.c1,
                d0: (x % 4294967296) as u32,
                d1: (x / 4294967296) as u32,
            },
        })
    } else {
        None
    }
}
