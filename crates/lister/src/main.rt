// Plays the trace on standard input, and lists what the table tree that it leaves maps.
#![tactic(auto)]

fn main(rt: HostRuntime) {
    let tree = auditing::Tree {
        asked: listing::Asked::read(&rt),
    };
    playing::play(&rt, &mut rt.stdin(), tree);
}
