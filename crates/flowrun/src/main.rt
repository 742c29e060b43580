// The run program.
#![tactic(auto)]

// Kept: each program has a `main` of its own, here and in the test crates that run `serve`.
fn main(rt: HostRuntime) {
    serve::run(&rt);
}
