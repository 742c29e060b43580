// The lines that are calls, as the 24 numbers of `flow_script`.
use std::array;
use test_text::letters::Call;
use test_text::text::number;

// The kind of a call and then the numbers of its line, 0 where there are no more; nothing of a line
// that is no call. A call of any kind says its kind.
pub fn numbers(line: &[u8]) -> Option<[u32; 24]> {
    if line.starts_with(b"ki") {
        return Some(array::from_fn(|i| number(line, i + 1)));
    }
    let mut numbers = array::from_fn(|i| number(line, i));
    numbers[0] = Call::of(line)? as u32;
    Some(numbers)
}
