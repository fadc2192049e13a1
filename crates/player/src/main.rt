// Plays the trace on standard input, and writes its lines to standard output.
#![tactic(auto)]

fn main(rt: HostRuntime) {
    playing::play(&rt, &mut rt.stdin(), playing::Lines);
}
