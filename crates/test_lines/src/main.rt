// The run program on lines of every kind: ill-formed, refused, longer than a read, and a last one
// without its newline.
#![tactic(auto)]

// Kept: a `main` of its own, as each program has.
fn main(rt: HostRuntime) {
    serve::run(&rt);
}
