// Document 01, 'Diagrams': block lock and error rate, one tested header each, by value.
#![tactic(auto, unfolding(crate::specs::Lock::invalid_of, crate::specs::Lock::slips_of, crate::specs::Lock::counted_of, crate::specs::Lock::lock_of, crate::specs::Rate::window_of, crate::specs::Rate::rate_of))]

ghost use Rattle.std.specs.Prelude.{◌≡◌, ◌<◌, ◌≤◌};
ghost use Rattle.lock.specs.Lock.{lock_of, slips_of, counted_of, invalid_of};
ghost use Rattle.lock.specs.Rate.{rate_of, window_of};

// Headers tested and those of them invalid since the counts were last zero, and whether the receiver is locked. The type has no bounds on
// the counts: a state that C lends may hold any, which refusal 10 is for.
#[derive(Clone, Copy, Debug, Default, PartialEq, Eq)]
pub struct Lock {
    pub tested: u64,
    pub invalid: u64,
    pub locked: bool,
}

// What one tested header does: the lock after it, and whether it slipped.
#[derive(Clone, Copy, Debug, Default, PartialEq, Eq)]
pub struct Locking {
    pub lock: Lock,
    pub slipped: bool,
}

// Blocks and invalid headers of the window at hand, and whether the error rate is high.
#[derive(Clone, Copy, Debug, Default, PartialEq, Eq)]
pub struct Rate {
    pub blocks: u64,
    pub invalid: u64,
    pub high: bool,
}

// What a header adds to a count of invalid ones.
fn miss(valid: bool) -> u64
    ensures { (result ≡ invalid_of valid) × (result ≤ 1) }
{
    u64::from(!valid)
}

// Whether a header makes the lock slip.
fn slips(l: Lock, valid: bool) -> bool
    requires { l.invalid < 16 }
    ensures { result ≡ slips_of l valid }
{
    16 <= l.invalid + miss(valid) || !valid && !l.locked
}

// The lock once it has counted a header that did not slip.
fn counted(l: Lock, valid: bool) -> Lock
    requires { (l.tested < 64) × (l.invalid < 16) }
    ensures { result ≡ counted_of l valid }
{
    let invalid = l.invalid + miss(valid);
    if l.tested < 63 {
        Lock {
            tested: l.tested + 1,
            invalid,
            ..l
        }
    } else {
        Lock {
            locked: invalid == 0 || l.locked,
            ..Lock::default()
        }
    }
}

// One tested header: the lock after it, and whether one line bit is to be skipped.
pub fn lock_step(l: Lock, valid: bool) -> Locking
    requires { (l.tested < 64) × (l.invalid < 16) }
    ensures { (result.lock ≡ lock_of l valid) × (result.slipped ≡ slips_of l valid) }
{
    let slipped = slips(l, valid);
    let lock = if slipped {
        Lock::default()
    } else {
        counted(l, valid)
    };
    Locking { lock, slipped }
}

// One tested block in lock: counted in the window.
fn window_step(r: Rate, valid: bool) -> Rate
    requires { (r.blocks < 19531) × (r.invalid ≤ r.blocks) }
    ensures { result ≡ window_of r valid }
{
    let invalid = r.invalid + miss(valid);
    let high = 16 <= invalid;
    if r.blocks < 19530 {
        Rate {
            blocks: r.blocks + 1,
            invalid,
            high: high || r.high,
        }
    } else {
        Rate {
            high,
            ..Rate::default()
        }
    }
}

// One tested block, by whether the receiver was locked before it and is after it: outside of lock there is no window.
pub fn rate_step(r: Rate, before: bool, after: bool, valid: bool) -> Rate
    requires { (r.blocks < 19531) × (r.invalid ≤ r.blocks) }
    ensures { result ≡ rate_of r before after valid }
{
    if after && before {
        window_step(r, valid)
    } else {
        Rate::default()
    }
}
