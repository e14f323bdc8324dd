// Whether a call of a line in bursts is refused, document 02, 2/13 and 9/13: refusals 13, 9, 10, 1 and 4.
#![tactic(auto)]

ghost use Rattle.std.specs.Prelude.{◌≡◌};
ghost use Rattle.judging.specs.Judging.{burst_verdict};
ghost use Rattle.judging.specs.Coded.{verdict_said};

use bad_states::bad_state;
use kept_state::State;
use refusals::Refusal;

// The checks of a burst of so many line bytes with so much room, in their order.
#[tactic(auto, using(crate::proofs::Checks::few_bytes, crate::proofs::Checks::few_carried), unfolding(crate::specs::Judging::burst_verdict, crate::specs::Judging::burst_checks, refusals::specs::First::first))]
#[inline(always)]
pub fn judge(s: State, line: usize, room: usize) -> Result<(), Refusal>
    ensures { verdict_said result ≡ burst_verdict s line room }
{
    if 1 < s.edition {
        return Err(Refusal::UnknownEdition);
    }
    if s.closed {
        return Err(Refusal::Closed);
    }
    if bad_state(s) {
        return Err(Refusal::BadState);
    }
    if 825000 - s.bytes < line as u64 {
        return Err(Refusal::TooMuch);
    }
    if (room as u64) < 10 * ((s.carried.count + 8 * (line as u64)) / 66 + 1) {
        return Err(Refusal::Room);
    }
    Ok(())
}
