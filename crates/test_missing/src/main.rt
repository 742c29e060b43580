// The run program without its chart file.
#![tactic(auto)]

// Kept: a `main` of its own, as each program has.
fn main(rt: HostRuntime) {
    serve::run(&rt);
}
