// Gathering the records of a reader. What is read is the operating system's to say: the promises say that there are reads,
// window by window, for which the outcome and the store are those of the definition.
#![tactic(auto)]

ghost use Rattle.std.specs.Prelude.{◌≡◌, ◌<◌, ◌≤◌, length, take, IfOk};
ghost use Rattle.std.specs.Io.KnownBytes.{Consumes, IsAtEnd};
ghost use Rattle.input.specs.Read.{asked_by, WindowIn, Gathers};

use gather::{Step, Stop};
use std::io;
use std::io::Read;

// Fills a buffer from a reader, or as much of it as the input has. (A `while`: it goes on by what a read gave, and not by one.)
fn fill<R: Read>(reader: &mut R, buf: &mut [u8]) -> io::Result<usize>
    ensures within { IfOk result (λ n. n ≤ length buf.old) }
    ensures bytes { IfOk result (λ n. Consumes (R.remaining reader.old) (R.remaining reader.new) (take n buf.new)) }
    ensures ends { IfOk result (λ n. n < length buf.old → IsAtEnd (R.remaining reader.new)) }
{
    let mut done = 0;
    while done < buf.len() {
        let n = reader.read(&mut buf[done..])?;
        if n == 0 {
            return Ok(done);
        }
        done += n;
    }
    Ok(done)
}

// Reads the window of one record: the head, then as much of a body as the head asks for.
fn read_window<R: Read>(reader: &mut R, window: &mut [u8]) -> io::Result<usize>
    requires { length window.old ≡ 65476 }
    ensures window { WindowIn window.new result }
    ensures bytes { IfOk result (λ n. Consumes (R.remaining reader.old) (R.remaining reader.new) (take n window.new)) }
    ensures ends { IfOk result (λ n. n < asked_by window.new n → IsAtEnd (R.remaining reader.new)) }
{
    let head = fill(reader, &mut window[..4])?;
    if head < 4 {
        return Ok(head);
    }
    let more = records::wanted(&window[..4]);
    let body = fill(reader, &mut window[4..4 + more])?;
    Ok(4 + body)
}

// All records, up to the end of the input, a refusal or a failed read. A proved loop has to end, and nothing says that the input does: so
// it has a number of turns that no run uses up. (The kind is a number: the promise holds for any.)
pub fn gathered<R: Read>(reader: &mut R, kind: usize, store: &mut [u8]) -> Result<Step, Stop>
    ensures { Gathers kind store.old result store.new }
{
    let mut window = [0u8; 65476];
    let mut used = 0;
    for _ in 0..u64::MAX {
        let read = read_window(reader, &mut window);
        match gather::judge(read, &window, kind, store, used)? {
            Step::More(n) => used = n,
            done => return Ok(done),
        }
    }
    Ok(Step::More(used))
}
