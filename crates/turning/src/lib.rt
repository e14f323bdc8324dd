// One turn of a receiver: document 01, 'Diagrams' (Lock, Error rate, Receive), 'Scrambler' and 'Vectors, words and line bits'.
#![tactic(auto)]

ghost use Rattle.std.specs.Prelude.{◌*◌, ◌≤◌, ◌<◌, length};
ghost use Rattle.receiving.specs.Loop.{Under, Turns};

use answering::{lets_end, settle_held};
use carrying::take_at;
use counting::count_block;
use receiving::{Progress, Receiver};
use testing::test_block;

// testing.rt: one tested block
mod testing;

// One turn: a whole block of the line, the bits that the carried one lacks, or a bit that is skipped. A block that is full is tested, and
// the one held before it is answered.
pub fn turn(line: &[u8], room: &mut [u8], p: Progress) -> Progress
    requires { (length line.now ≤ 825000) × Under line.now room.old p × (p.pos < 8 * length line.now) }
    ensures { Turns line.now room.old room.new p result }
{
    let r = p.receiver;
    let taken = take_at(line, p.pos, r.skip, r.carried);
    match taken.block {
        Some(block) => {
            let tested = test_block(r.link, block.header, block.payload);
            let next = tested.held;
            let settled = settle_held(
                room,
                p.at,
                p.handed,
                r.have,
                r.state,
                r.held,
                lets_end(next),
            );
            Progress {
                receiver: Receiver {
                    skip: next.slipped,
                    carried: taken.carried,
                    link: tested.link,
                    state: settled.state,
                    have: true,
                    held: next,
                },
                pos: taken.next,
                at: settled.at,
                counts: count_block(p.counts, next),
                handed: settled.handed,
            }
        }
        None => Progress {
            receiver: Receiver {
                skip: false,
                carried: taken.carried,
                ..r
            },
            pos: taken.next,
            ..p
        },
    }
}
