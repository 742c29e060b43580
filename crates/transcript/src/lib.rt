// The run program between its reads and its writes: lines answered into a buffer until it has no
// room, what is kept of a line that has not ended, and the turns of a session, which wants
// something written or read until it stops.
#![tactic(auto)]

ghost use Rattle.std.specs.Prelude.{◌≡◌, ◌≤◌, ◌+◌, [], ◌∷◌, ◌++◌, length, take, drop, MatchOption, IfSome};
ghost use Rattle.transcript.specs.Lines.{lines_in};
ghost use Rattle.transcript.specs.Session.{feed, fed_of, clipped, turn, session_state, IsWithin, wanted_of, IsThere, after_read};

use runner::Runner;

// The number of lines so far, how many bytes of input were taken, and the length of the text.
// Kept: buffers are lent as slices of any length, which `feed` and `turn` promise for, so here and
// below a text is told by its length, and the bytes at hand by their ends.
#[derive(Clone, Copy)]
pub struct Fed {
    pub count: u64,
    pub taken: usize,
    pub length: usize,
}

// Where a session stands: the number of lines answered, the bytes at hand, which are those of the
// input's buffer from `at` to `end`, and whether the input is over.
#[derive(Clone, Copy, Default)]
pub struct Session {
    pub count: u64,
    pub at: usize,
    pub end: usize,
    pub over: bool,
}

// What a turn wants: the text at the front of its buffer written, which has so many bytes, more
// input read, or to stop.
// Kept: what to do is told, not done by closures, since no call of the system stands here.
#[derive(Clone, Copy)]
pub enum Wanted {
    Write(usize),
    Read,
    Stop,
}

// The first line of some bytes and the bytes after it, where it can be answered: it has ended or,
// where the input is over, it is the last.
fn split_line(bytes: &[u8], over: bool) -> Option<(&[u8], &[u8])>
    ensures line { MatchOption result (lines_in over bytes.now ≡ []) (λ cut. lines_in over bytes.now ≡ cut.0.now ∷ lines_in over cut.1.now) }
    ensures rest { IfSome result (λ cut. cut.1.now ≡ drop (length cut.0.now + 1) bytes.now) }
{
    match memchr::memchr(b'\n', bytes) {
        Some(end) => Some((&bytes[..end], &bytes[end + 1..])),
        None if over && !bytes.is_empty() => Some((bytes, &[])),
        None => None,
    }
}

// Answers the lines that end in the input and, where the input is over, its last line, at the front
// of a buffer, until none is left or the room is short of a text.
// Kept: it takes the parts of a session, not the session, since it promises for any bytes.
pub fn feed(runner: Runner, lines: u64, over: bool, input: &[u8], out: &mut [u8]) -> Fed
    ensures value { result ≡ fed_of (feed runner (length out.old) lines over input.now) (length input.now) }
    ensures out_after { out.new ≡ (feed runner (length out.old) lines over input.now).text ++ drop result.length out.old }
{
    let mut count = lines;
    let mut left = input;
    let mut length: usize = 0;
    while let Some((line, rest)) = split_line(left, over) {
        if out.len() - length < 64 {
            break;
        }
        count = count.wrapping_add(1);
        length += reply::respond(runner, count, line, &mut out[length..]);
        left = rest;
    }
    Fed {
        count,
        taken: input.len() - left.len(),
        length,
    }
}

// Moves a line that has not ended, the bytes from `at` to `end`, to the front of a buffer, 256 of
// them at most, and answers how many.
pub fn keep(at: usize, end: usize, buffer: &mut [u8]) -> usize
    ensures value { result ≡ length (clipped (drop at (take end buffer.old))) }
    ensures buffer_after { buffer.new ≡ clipped (drop at (take end buffer.old)) ++ drop result buffer.old }
{
    let end = end.min(buffer.len());
    let at = at.min(end);
    let count = (end - at).min(256);
    buffer.copy_within(at..at + count, 0);
    count
}

impl Session {
    // Keeps the ends of the session's part within a buffer.
    fn clamp(&mut self, buffer: &[u8])
        ensures { IsWithin self.old self.new buffer.now }
    {
        self.end = self.end.min(buffer.len());
        self.at = self.at.min(self.end);
    }

    // A turn, with the input's buffer and one for texts.
    pub fn turn(&mut self, runner: Runner, buffer: &mut [u8], out: &mut [u8]) -> Wanted
        ensures turned { wanted_of result out.new (session_state self.new buffer.new) ≡ turn runner (length out.old) (session_state self.old buffer.old) }
        ensures end_in_bounds { self.new.end ≤ length buffer.new }
        ensures prefix_len { IsThere result out.new }
    {
        self.clamp(buffer);
        let fed = feed(
            runner,
            self.count,
            self.over,
            &buffer[self.at..self.end],
            out,
        );
        if 0 < fed.taken {
            self.count = fed.count;
            self.at += fed.taken;
            return Wanted::Write(fed.length);
        }
        if self.over {
            return Wanted::Stop;
        }
        self.end = keep(self.at, self.end, buffer);
        self.at = 0;
        Wanted::Read
    }

    // After a read, which put so many bytes behind those at hand or, where there is no number,
    // failed.
    pub fn received(&mut self, got: Option<usize>, buffer: &[u8])
        ensures { session_state self.new buffer.now ≡ after_read got (drop self.old.end buffer.now) (session_state self.old buffer.now) }
    {
        self.clamp(buffer);
        match got {
            Some(count) => {
                let count = count.min(buffer.len() - self.end);
                self.end += count;
                self.over |= count == 0;
            }
            None => {
                self.end = self.at;
                self.over = true;
            }
        }
    }
}
