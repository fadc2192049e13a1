// Plays the trace on standard input, and writes its lines to standard output, each record's with both caches after it.
// Its stdin here is the theme two_families of `differential cases` with seed 3, and its stdout the original Rust's answers.
#![tactic(auto)]

fn main(rt: HostRuntime) {
    playing::play(&rt, &mut rt.stdin(), playing::States);
}
