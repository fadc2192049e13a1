// Plays the trace on standard input, and audits the caches that it leaves: a line for each stale entry, and a last line that counts them.
// Its stdin here is samples/stale_snapshot.text as bytes, and its stdout by hand from document 01.
#![tactic(auto)]

fn main(rt: HostRuntime) {
    playing::play(&rt, &mut rt.stdin(), auditing::AtEnd);
}
