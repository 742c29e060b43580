// The rounds of `bench_rounds`, exported for the benchmark. Kept: some differ in their names alone,
// which callers in C have.
#![tactic(auto)]

#[unsafe(no_mangle)]
pub extern "C" fn flow_loads(files: &[u8], rounds: u32) -> u64 {
    bench_rounds::flow_loads(files, rounds)
}

#[unsafe(no_mangle)]
pub extern "C" fn flow_writes(file: &[u8], buf: &mut [u8], rounds: u32) -> u64 {
    bench_rounds::flow_writes(file, buf, rounds)
}

#[unsafe(no_mangle)]
pub extern "C" fn flow_converts(file: &[u8], buf: &mut [u8], rounds: u32) -> u64 {
    bench_rounds::flow_converts(file, buf, rounds)
}

#[unsafe(no_mangle)]
pub extern "C" fn flow_rewrites(files: &[u8], buf: &mut [u8], rounds: u32) -> u64 {
    bench_rounds::flow_rewrites(files, buf, rounds)
}

#[unsafe(no_mangle)]
pub extern "C" fn flow_shows(file: &[u8], rounds: u32) -> u64 {
    bench_rounds::flow_shows(file, rounds)
}
