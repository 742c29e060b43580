// The run program on chart D, whose notice names its input under surveillance and none with the
// high-water mark.
#![tactic(auto)]

// Kept: a `main` of its own, as each program has.
fn main(rt: HostRuntime) {
    serve::run(&rt);
}
