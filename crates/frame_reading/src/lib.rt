// One frame, read from its Start to its end: document 02, 5/13.
#![tactic(auto)]

ghost use Rattle.std.specs.Prelude.{◌≡◌, true, ◌&&◌, ◌+◌, ◌/◌, ◌<◌, ◌≤◌, length};
ghost use Rattle.frames.specs.Frames.{by_flag, starts};
ghost use Rattle.frames.specs.Words.{nth_word, quiet_before};
ghost use Rattle.frame_reading.specs.Reading.{with_character, with_three, with_word, ReadsFrame};

use frames::nth_word;

// A frame while it is read: whether it is open, its data octets so far, and whether it is good; while it is open, as far as it was read.
// Flags stay: an enum of open and ended has octets and good in both. How many octets it can have grows with each call: no invariant says it.
#[derive(Clone, Copy, Debug, PartialEq, Eq)]
struct Reading {
    going: bool,
    octets: usize,
    good: bool,
}

// A frame that was read: its data octets, whether it is good, and the word at which reading goes on.
#[derive(Clone, Copy, Debug, PartialEq, Eq)]
pub struct Ended {
    pub octets: usize,
    pub good: bool,
    pub next: usize,
}

impl Reading {
    // After one character more, by its control bit. A frame that has ended stays as it is.
    fn lane(self, flag: u8, octet: u8) -> Reading
        requires { self.octets ≤ 1000000 }
        ensures { (result ≡ with_character self (by_flag flag octet)) × (result.octets ≤ self.octets + 1) }
    {
        if !self.going {
            return self;
        }
        if flag == 0 {
            return Reading {
                octets: self.octets + 1,
                ..self
            };
        }
        if octet == 0xfe {
            return Reading {
                good: false,
                ..self
            };
        }
        Reading {
            going: false,
            good: self.good && octet == 0xfd,
            ..self
        }
    }

    // After the characters of lanes 1 to 3 of a word.
    fn three(self, word: &[u8]) -> Reading
        requires { (length word.now ≡ 5) × (self.octets ≤ 900000) }
        ensures { (result ≡ with_three self word.now) × (result.octets ≤ self.octets + 3) }
    {
        let flags = word[0];
        self.lane(flags / 2 % 2, word[2])
            .lane(flags / 4 % 2, word[3])
            .lane(flags / 8 % 2, word[4])
    }

    // An open frame after the characters of a word. Most words are four data octets.
    fn word(self, word: &[u8]) -> Reading
        requires { (length word.now ≡ 5) × (self.octets ≤ 800000) × (self.going ≡ true) }
        ensures { (result ≡ with_word self word.now) × (result.octets ≤ self.octets + 4) }
    {
        let flags = word[0];
        if flags == 0 {
            return Reading {
                octets: self.octets + 4,
                ..self
            };
        }
        self.lane(flags % 2, word[1]).three(word)
    }
}

// Reads the frame that begins in word k.
pub fn read_frame(bytes: &[u8], k: usize) -> Ended
    requires { (k < length bytes.now / 5) × (length bytes.now ≤ 1000000) × ((quiet_before bytes.now k && starts (nth_word bytes.now k)) ≡ true) }
    ensures { ReadsFrame bytes.now k result }
{
    let words = bytes.len() / 5;
    let first = Reading {
        going: true,
        octets: 0,
        good: true,
    };
    let mut r = first.three(nth_word(bytes, k));
    for j in k + 1..words {
        if !r.going {
            return Ended {
                octets: r.octets,
                good: r.good,
                next: j,
            };
        }
        r = r.word(nth_word(bytes, j));
    }
    Ended {
        octets: r.octets,
        good: !r.going && r.good,
        next: words,
    }
}
