// The scrambler and the descrambler, a block's payload at a time.
#![tactic(auto)]

ghost use Rattle.std.specs.Prelude.{◌≡◌, ◌<◌, ◌^◌};
ghost use Rattle.scrambler.specs.Scrambler.{scrambled, history_after, descrambled, line_after, mirror};

// A payload, scrambled or descrambled, and the last 58 payload bits on the line after it, the oldest at bit 0.
#[derive(Clone, Copy)]
pub struct Scrambled {
    pub word: u64,
    pub history: u64,
}

// A payload as it is sent, in two strides. "No sent bit depends on one less than 39 places before it": the first 39 follow from payload and
// history alone. The other 25 want also the sent bits 39 places before them and, from the 58th on, those 58 places before: all of them are
// among the first 39. No stride of 40 would do (proofs/Strides.antt).
pub fn scramble(payload: u64, history: u64) -> Scrambled
    requires { history < 2 ^ 58 }
    ensures { (result.word ≡ scrambled payload history) × (result.history ≡ history_after payload history) }
{
    let known = payload ^ history ^ (history >> 19);
    let word = known ^ (known << 39) ^ (known << 58);
    Scrambled {
        word: word,
        history: word >> 6,
    }
}

// The payload after another one, which was sent as this word after this history. A sent bit is the sum of its input bit and those sent 39 and 58
// places before; each of these is a sum in turn, and the bit 97 places before, which both have, falls out. So it is also the sum of the input
// bits 0, 39 and 58 places before and of those sent 78 and 116 before: a shorter way from one sent word to the next.
pub fn scramble_next(payload: u64, before: u64, sent: u64, history: u64) -> Scrambled
    requires { (history < 2 ^ 58) × (sent ≡ scrambled before history) }
    ensures { (result.word ≡ scrambled payload (history_after before history)) × (result.history ≡ history_after payload (history_after before history)) }
{
    let inputs = payload ^ ((payload << 39) | (before >> 25)) ^ ((payload << 58) | (before >> 6));
    let word = inputs ^ (history >> 44) ^ (history >> 6) ^ (sent << 14) ^ (sent << 52);
    Scrambled {
        word: word,
        history: word >> 6,
    }
}

// The payload of 64 line bits, all at once: each is known, so each is xored with those 39 and 58 places before.
pub fn descramble(word: u64, history: u64) -> Scrambled
    requires { history < 2 ^ 58 }
    ensures { (result.word ≡ descrambled word history) × (result.history ≡ line_after word history) }
{
    let input = word ^ ((word << 39) | (history >> 19)) ^ ((word << 58) | history);
    Scrambled {
        word: input,
        history: word >> 6,
    }
}

// A start state as a history, and a history as an end state: the 58 bits in the other order. Neighbours change places, first bits, then pairs
// of bits, and so on to the two halves of the word, which is then in the other order; its lowest 58 bits now stand 6 places up.
// Not the library's `reverse_bits`: that is compiled to a loop, of 16 turns of some 16 instructions, twice in each call of `send`.
pub fn mirrored(state: u64) -> u64
    ensures { result ≡ mirror state }
{
    let a = ((state >> 1) & 0x5555_5555_5555_5555) | ((state & 0x5555_5555_5555_5555) << 1);
    let b = ((a >> 2) & 0x3333_3333_3333_3333) | ((a & 0x3333_3333_3333_3333) << 2);
    let c = ((b >> 4) & 0x0f0f_0f0f_0f0f_0f0f) | ((b & 0x0f0f_0f0f_0f0f_0f0f) << 4);
    let d = ((c >> 8) & 0x00ff_00ff_00ff_00ff) | ((c & 0x00ff_00ff_00ff_00ff) << 8);
    let e = ((d >> 16) & 0x0000_ffff_0000_ffff) | ((d & 0x0000_ffff_0000_ffff) << 16);
    let f = ((e >> 32) & 0x0000_0000_ffff_ffff) | ((e & 0x0000_0000_ffff_ffff) << 32);
    f >> 6
}
