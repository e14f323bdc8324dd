// The refusals that every call over a list of vectors begins with.
#![tactic(auto)]

ghost use Rattle.std.specs.Prelude.{◌≡◌};
ghost use Rattle.refusals.specs.First.{first};
ghost use Rattle.refusals.specs.Refused.{verdict_of};
ghost use Rattle.vector_checks.specs.Checks.{vector_checks};

use control_bytes::first_high;
use refusals::{Refusal, Refused};

// "1, 2, 5 as in sending", in this order.
pub fn check_vectors(vectors: &[u8]) -> Result<(), Refused>
    ensures { verdict_of result ≡ first (vector_checks vectors.now) }
{
    let n = vectors.len();
    if 1000000 < n {
        return Err(Refused(Refusal::TooMuch, 0));
    }
    if n % 40 != 0 {
        return Err(Refused(Refusal::NotGroups, 0));
    }
    if let Some(high) = first_high(vectors) {
        return Err(Refused(Refusal::ControlByte, high));
    }
    Ok(())
}
