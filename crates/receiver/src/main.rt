// Document 01's example: a record of nine zero bytes.
#![tactic(auto)]

fn main(rt: HostRuntime) {
    programs::receiver(&rt, &mut rt.stdin());
}
