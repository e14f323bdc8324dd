// Document 01, 'Capture records', run: the body of a record handed on to receiving or to sending.
#![tactic(auto)]

use captures::{receive_record, send_record};
use receiving::Summary;
use refusals::Refused;
use sending::Sending;
use std::io;

// Two digits a byte, on a line.
fn print_bytes(rt: &impl Print, bytes: &[u8]) -> io::Result<()> {
    for byte in bytes {
        print!(rt; "{byte:02x}")?;
    }
    println!(rt; "")
}

fn print_refused(rt: &impl Print, refused: Refused) -> io::Result<()> {
    let Refused(why, place) = refused;
    let refusal = why.number();
    println!(rt; "refused {refusal} at {place}")
}

fn print_sent(rt: &impl Print, s: Sending) -> io::Result<()> {
    println!(rt;
        "end state {:015x}, diagram {}, replaced {}",
        s.state, s.diagram, s.replaced
    )
}

fn print_received(rt: &impl Print, s: Summary) -> io::Result<()> {
    println!(rt;
        "tested {}, slips {}, vectors {}",
        s.counts.tested, s.counts.slips, s.vectors
    )
}

fn receive_at(rt: &impl Print, file: &[u8], at: usize) -> io::Result<()> {
    let mut room = [0xaau8; 20];
    match receive_record(file, at, &mut room) {
        Ok(Some(Ok(summary))) => print_received(rt, summary)?,
        Ok(None) => println!(rt; "no more records")?,
        Ok(Some(Err(refused))) | Err(refused) => print_refused(rt, refused)?,
    }
    print_bytes(rt, &room)
}

fn send_at(rt: &impl Print, file: &[u8], at: usize) -> io::Result<()> {
    let mut room = [0xaau8; 40];
    match send_record(file, at, 0, &mut room) {
        Ok(Some(Ok(sending))) => print_sent(rt, sending)?,
        Ok(None) => println!(rt; "no more records")?,
        Ok(Some(Err(refused))) | Err(refused) => print_refused(rt, refused)?,
    }
    print_bytes(rt, &room)
}

// The receiver's example of document 01, its head at 0, then a record of four vectors, its head at 13.
fn main(rt: HostRuntime) -> io::Result<()> {
    let file =
        b"\x09\0\x02\0\0\0\0\0\0\0\0\0\0\x28\0\x01\0\x0f\x07\x07\x07\x07\x0f\x07\x07\x07\x07\x0f\x07\x07\x07\x07\x0f\x07\x07\x07\x07\x0f\x07\x07\x07\x07\x0f\x07\x07\x07\x07\x0f\x07\x07\x07\x07\x0f\x07\x07\x07\x07";
    print!(rt; "the record at 0, received: ")?;
    receive_at(&rt, file, 0)?;
    print!(rt; "at 13: ")?;
    receive_at(&rt, file, 13)?;
    print!(rt; "at 57: ")?;
    receive_at(&rt, file, 57)?;
    print!(rt; "the record at 13, sent: ")?;
    send_at(&rt, file, 13)?;
    print!(rt; "at 0: ")?;
    send_at(&rt, file, 0)?;
    print!(rt; "at 54: ")?;
    send_at(&rt, file, 54)
}
