// What the two programs write, as functions on slices. Each writes a text from a place of the output on, and answers the place after it.
#![tactic(auto)]

ghost use Rattle.std.specs.Prelude.{◌≡◌, ◌++◌, ◌+◌, ◌*◌, ◌/◌, ◌≤◌, ◌<◌, length};
ghost use Rattle.refusals.specs.Number.{number_of};
ghost use Rattle.record_writing.specs.Writing.{record_of};
ghost use Rattle.putting.specs.Overlaid.{PutsText};
ghost use Rattle.display.specs.Display.{ascii, hex_digit, hex_digits, hex_line, hex_lines, decimal, summary_lines, refused_line, input_failed_line, line_records};

use records::RecordKind;
use refusals::Refusal;

// A hexadecimal digit, lower case.
#[tactic(auto, using(std::proofs::lemmas::Bool::Decides::nat_tests))]
fn digit(n: u8) -> u8
    requires { n < 16 }
    ensures { result ≡ hex_digit n }
{
    if n < 10 { b'0' + n } else { b'a' + (n - 10) }
}

// Two digits for each byte.
fn hex_digits(v: &[u8], out: &mut [u8], at: usize) -> usize
    requires { at + 2 * length v.now ≤ length out.old }
    ensures { PutsText at (hex_digits v.now) out.old result out.new }
{
    let mut e = at;
    for b in v {
        out[e] = digit(*b / 16);
        out[e + 1] = digit(*b % 16);
        e += 2;
    }
    e
}

// The digits of a vector, on a line.
fn hex_line(v: &[u8], out: &mut [u8], at: usize) -> usize
    requires { at + 2 * length v.now + 1 ≤ length out.old }
    ensures { PutsText at (hex_line v.now) out.old result out.new }
{
    let e = hex_digits(v, out, at);
    putting::text(b"\n", out, e)
}

// A line for each vector.
pub fn hex_lines(vectors: &[u8], out: &mut [u8], at: usize) -> usize
    requires { at + 21 * (length vectors.now / 10) ≤ length out.old }
    ensures { PutsText at (hex_lines vectors.now) out.old result out.new }
{
    let mut e = at;
    for vector in vectors.chunks_exact(10) {
        e = hex_line(vector, out, e);
    }
    e
}

// The decimal digits of a number. (By hand: of `write!` into a slice it is not known how much of the slice is left, and the proof did not close.)
fn decimal_digits(n: u64, out: &mut [u8], at: usize) -> usize
    requires { at + length (decimal n) ≤ length out.old }
    ensures { PutsText at (decimal n) out.old result out.new }
{
    if n < 10 {
        out[at] = digit(n as u8);
        return at + 1;
    }
    let e = decimal_digits(n / 10, out, at);
    out[e] = digit((n % 10) as u8);
    e + 1
}

// A name and a number, on a line.
fn number_line(name: &[u8], n: u64, out: &mut [u8], at: usize) -> usize
    requires { at + length name.now + 21 ≤ length out.old }
    ensures puts_text { PutsText at (name.now ++ decimal n ++ ascii "\n") out.old result out.new }
    ensures upper_bound { result ≤ at + length name.now + 21 }
{
    let d = putting::text(name, out, at);
    let e = decimal_digits(n, out, d);
    putting::text(b"\n", out, e)
}

// The receiver's four lines.
pub fn summary_lines(
    tested: u64,
    slips: u64,
    locked: bool,
    high: bool,
    out: &mut [u8],
    at: usize,
) -> usize
    requires { at + 109 ≤ length out.old }
    ensures { PutsText at (summary_lines tested slips locked high) out.old result out.new }
{
    let a = number_line(b"tested ", tested, out, at);
    let b = number_line(b"slips ", slips, out, a);
    let c = number_line(b"locked ", u64::from(locked), out, b);
    number_line(b"high ", u64::from(high), out, c)
}

// The line of a refusal.
pub fn refused_line(why: Refusal, out: &mut [u8], at: usize) -> usize
    requires { at + 29 ≤ length out.old }
    ensures { PutsText at (refused_line (number_of why)) out.old result out.new }
{
    number_line(b"refused ", why.number(), out, at)
}

// The line of a read that failed.
pub fn input_failed_line(out: &mut [u8], at: usize) -> usize
    requires { at + 13 ≤ length out.old }
    ensures { PutsText at input_failed_line out.old result out.new }
{
    putting::text(b"input failed\n", out, at)
}

// A line record.
fn line_record(body: &[u8], out: &mut [u8], at: usize) -> usize
    requires { (length body.now < 65536) × (at + length body.now + 4 ≤ length out.old) }
    ensures { PutsText at (record_of 2 body.now) out.old result out.new }
{
    record_writing::put(RecordKind::Line.number(), body, &mut out[at..]);
    at + body.len() + 4
}

// Line records of 4,092 bytes, the last with what is left.
pub fn line_records(line: &[u8], out: &mut [u8], at: usize) -> usize
    requires { at + length (line_records 4092 line.now) ≤ length out.old }
    ensures { PutsText at (line_records 4092 line.now) out.old result out.new }
{
    let mut e = at;
    for part in line.chunks(4092) {
        e = line_record(part, out, e);
    }
    e
}
