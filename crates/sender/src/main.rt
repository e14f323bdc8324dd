// Vector records, an empty one among them.
#![tactic(auto)]

fn main(rt: HostRuntime) {
    programs::sender(&rt, &mut rt.stdin());
}
