// The two programs. What each writes is one proved function of what it gathered, `sender_output` and `receiver_output`, and of its
// reads, `sender_from` and `receiver_from`. Only reading and writing themselves are outside the proof. docs/PROMISES.md names these four, so they are
// two and two, and not one over what differs: the kind, the limits, the call of the library and the text.
#![tactic(auto)]

ghost use Rattle.std.specs.Prelude.{◌≡◌, [], ◌≤◌, length, Err};
ghost use Rattle.std.specs.Counts.{IsPrefixLen};
ghost use Rattle.putting.specs.Overlaid.{PutsText};
ghost use Rattle.gather.specs.Gather.{done};
ghost use Rattle.display.specs.Display.{input_failed_line};
ghost use Rattle.programs.specs.Programs.{vector_limit, line_limit, output_of, sender_output, receiver_output, gathered_of, PutsForReads};

use gather::{Step, Stop};
use refusals::Refused;
use std::io::Read;

// Writes to standard output. Where that fails, a full disk or a closed pipe, standard error says so, and the status says nothing of it.
fn write_out(rt: &(impl Print + Eprint), text: &[u8]) {
    if rt.write_all(text).is_err() {
        let _ = rt.eprint("output failed\n");
    }
}

// What either program writes where no more is gathered: a refusal, or that the input failed.
fn stopped(stop: Stop, out: &mut [u8]) -> usize
    requires { 29 ≤ length out.old }
    ensures { PutsText 0 (output_of (λ bytes. input_failed_line) (gathered_of (Err stop) [])) out.old result out.new }
{
    match stop {
        Stop::Refused(why) => display::refused_line(why, out, 0),
        Stop::Failed => display::input_failed_line(out, 0),
    }
}

// Sends the vectors by way of a line of its own.
fn send_output(vectors: &[u8], out: &mut [u8]) -> usize
    requires { (length vectors.now ≤ 60000) × (49552 ≤ length out.old) }
    ensures { PutsText 0 (sender_output (done vectors.now)) out.old result out.new }
{
    let mut line = [0u8; 49500];
    match sending::send(0, vectors, 0, &mut line) {
        Ok(_) => {
            let n = vectors.len() / 40 * 33;
            display::line_records(records::body(&line, 0, n), out, 0)
        }
        Err(Refused(why, _)) => display::refused_line(why, out, 0),
    }
}

// What the sender writes, by what it gathered. (Two matches: the proof did not close over `Ok(Step::Done(n))` in one.)
pub fn sender_output(
    step: Result<Step, Stop>,
    vectors: &[u8; 60000],
    out: &mut [u8; 49552],
) -> usize
    ensures puts_text { PutsText 0 (sender_output (gathered_of step vectors.now)) out.old result out.new }
    ensures prefix_len { IsPrefixLen result out.new }
{
    match step {
        Ok(step) => match step {
            Step::Done(n) => send_output(records::body(vectors, 0, n), out),
            Step::More(_) => display::input_failed_line(out, 0),
        },
        Err(stop) => stopped(stop, out),
    }
}

// Gathers vector records from a reader, and puts what the sender writes into the output.
pub fn sender_from<R: Read>(reader: &mut R, out: &mut [u8; 49552]) -> usize
    ensures puts_for_reads { PutsForReads 1 vector_limit sender_output out.old result out.new }
    ensures prefix_len { IsPrefixLen result out.new }
{
    let mut vectors = [0u8; 60000];
    let step = input::gathered(reader, 1, &mut vectors);
    sender_output(step, &vectors, out)
}

// Vector records of a reader, line records on standard output.
pub fn sender<R: Read>(rt: &(impl Print + Eprint), reader: &mut R) {
    let mut out = [0u8; 49552];
    let n = sender_from(reader, &mut out);
    write_out(rt, &out[..n]);
}

// Receives the line by way of vectors of its own.
fn receive_output(line: &[u8], out: &mut [u8]) -> usize
    requires { 126109 ≤ length out.old }
    ensures { PutsText 0 (receiver_output (done line.now)) out.old result out.new }
{
    let mut vectors = [0u8; 60000];
    match reception::receive(0, line, &mut vectors) {
        Ok(s) => {
            let n = 10 * s.vectors as usize;
            let k = display::hex_lines(records::body(&vectors, 0, n), out, 0);
            display::summary_lines(s.counts.tested, s.counts.slips, s.locked, s.high, out, k)
        }
        Err(Refused(why, _)) => display::refused_line(why, out, 0),
    }
}

// What the receiver writes, by what it gathered.
pub fn receiver_output(
    step: Result<Step, Stop>,
    line: &[u8; 49500],
    out: &mut [u8; 126109],
) -> usize
    ensures puts_text { PutsText 0 (receiver_output (gathered_of step line.now)) out.old result out.new }
    ensures prefix_len { IsPrefixLen result out.new }
{
    match step {
        Ok(step) => match step {
            Step::Done(n) => receive_output(records::body(line, 0, n), out),
            Step::More(_) => display::input_failed_line(out, 0),
        },
        Err(stop) => stopped(stop, out),
    }
}

// Gathers line records from a reader, and puts what the receiver writes into the output.
pub fn receiver_from<R: Read>(reader: &mut R, out: &mut [u8; 126109]) -> usize
    ensures puts_for_reads { PutsForReads 2 line_limit receiver_output out.old result out.new }
    ensures prefix_len { IsPrefixLen result out.new }
{
    let mut line = [0u8; 49500];
    let step = input::gathered(reader, 2, &mut line);
    receiver_output(step, &line, out)
}

// Line records of a reader, vectors and four lines on standard output.
pub fn receiver<R: Read>(rt: &(impl Print + Eprint), reader: &mut R) {
    let mut out = [0u8; 126109];
    let n = receiver_from(reader, &mut out);
    write_out(rt, &out[..n]);
}
