// Plays the trace on standard input, and audits the caches after each record: the first record that leaves a stale entry is named.
// Its stdin here is samples/stale_snapshot.text as bytes, and its stdout by hand from document 01.
#![tactic(auto)]

fn main(rt: HostRuntime) {
    playing::play(&rt, &mut rt.stdin(), auditing::AfterEach::default());
}
