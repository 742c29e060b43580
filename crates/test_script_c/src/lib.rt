// The list of calls of `test_script`, exported for tests in other languages.
#![tactic(auto)]

#[unsafe(no_mangle)]
pub extern "C" fn flow_script(
    files: &[u8],
    words: &[u32],
    told: &mut [u32],
    buf: &mut [u8],
) -> usize {
    test_script::flow_script(files, words, told, buf)
}
