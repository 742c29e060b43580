// A command is a line, and is known by its first two letters.

// The two letters, or the whole line where it has fewer.
// Kept: two letters and no whole word, since a line that goes on otherwise is the same command.
pub fn of(line: &[u8]) -> &[u8] {
    line.get(..2).unwrap_or(line)
}

// The calls, in the order of their kinds in a list of calls.
#[derive(Clone, Copy, Debug, PartialEq, Eq)]
pub enum Call {
    Load,
    Begin,
    Advance,
    Answer,
    Abandon,
    Write,
    Show,
    Convert,
    Rewrite,
}

impl Call {
    pub fn of(line: &[u8]) -> Option<Call> {
        match of(line) {
            b"lo" => Some(Call::Load),
            b"be" => Some(Call::Begin),
            b"ad" => Some(Call::Advance),
            b"an" => Some(Call::Answer),
            b"ab" => Some(Call::Abandon),
            b"wr" => Some(Call::Write),
            b"sh" => Some(Call::Show),
            b"co" => Some(Call::Convert),
            b"re" => Some(Call::Rewrite),
            _ => None,
        }
    }
}

// Empty, or starting with # or a byte 0.
pub fn is_comment(line: &[u8]) -> bool {
    matches!(line.first(), None | Some(b'#' | 0))
}
