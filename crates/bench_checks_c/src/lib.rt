// The health checks of `bench_checks`, exported for the benchmark.
#![tactic(auto)]

// Kept: six arguments, since callers in C go by them.
#[unsafe(no_mangle)]
pub extern "C" fn flow_checks(
    file: &[u8],
    mode: u32,
    inputs: &[u32],
    allowed: u32,
    limit: u32,
    rounds: u32,
) -> u64 {
    bench_checks::flow_checks(file, mode, inputs, allowed, limit, rounds)
}
