// A tool of tests: a list of calls, given as numbers, and what each tells. `flow_script` is
// exported for tests in other languages and has no equation: what it tells is compared, by
// `test_calls` with what the rules say and by bench/differential with plain Rust.
//
// A call is 24 numbers: its kind, then its arguments, then numbers that are not read.
//   0 load           where the file starts among the lent bytes, its length
//   1 begin          mode, allowed set, limit, how many inputs, the inputs
//   2 advance        the amount
//   3 answer
//   4 abandon
//   5 write back     how many bytes of the buffer are lent
//   6 show a box     where the file starts, its length, the number of the box
//   7 convert        where the file starts, its length, how many bytes of the buffer are lent
//   8 rewrite
// A kind from 9 on is no call: it tells `NO_CALL`, and nothing is done.
// Kept: kinds are numbers, and so is what is told of none, since callers in C give and read them
// (`flow_script`). `as` stands where std has no `From`: u32 for usize, and usize for u64.
#![tactic(auto)]

use encoding::{Encoded, Numbered, kinds};
use runner::{Called, Runner};

// Told where a kind is that of no call. No reply has it: the kinds of `encoding` are below.
pub const NO_CALL: u32 = 16;

// A call, with the lent bytes that it names.
#[derive(Clone, Copy)]
enum Call<'a> {
    Load(&'a [u8]),
    Begin {
        mode: u32,
        inputs: &'a [u32],
        allowed: u32,
        limit: u32,
    },
    Advance(u32),
    Answer,
    Abandon,
    WriteBack {
        room: usize,
    },
    ShowBox {
        file: &'a [u8],
        number: u32,
    },
    Convert {
        file: &'a [u8],
        room: usize,
    },
    Rewrite,
}

// So many of the lent bytes, or as many as there are.
fn part(files: &[u8], from: u32, length: u32) -> &[u8] {
    let rest = files.get(from as usize..).unwrap_or_default();
    &rest[..rest.len().min(length as usize)]
}

impl<'a> Call<'a> {
    // The call that 24 numbers say, at most 17 of which are inputs, or none where they say none.
    fn from_words(words: &'a [u32; 24], files: &'a [u8]) -> Option<Call<'a>> {
        let [kind, first, second, third, count, ..] = *words;
        match kind {
            0 => Some(Call::Load(part(files, first, second))),
            1 => Some(Call::Begin {
                mode: first,
                inputs: &words[5..5 + (count as usize).min(17)],
                allowed: second,
                limit: third,
            }),
            2 => Some(Call::Advance(first)),
            3 => Some(Call::Answer),
            4 => Some(Call::Abandon),
            5 => Some(Call::WriteBack {
                room: first as usize,
            }),
            6 => Some(Call::ShowBox {
                file: part(files, first, second),
                number: third,
            }),
            7 => Some(Call::Convert {
                file: part(files, first, second),
                room: third as usize,
            }),
            8 => Some(Call::Rewrite),
            _ => None,
        }
    }
}

// After a call: the runner, what was told, and a sum over the bytes of a lent buffer or a returned
// part.
// Kept: one type for what calls of five types told, as three numbers, with a sum beside them.
#[derive(Clone, Copy)]
struct Turn {
    runner: Runner,
    told: Encoded,
    sum: u32,
}

impl<T: Numbered> From<Called<T>> for Turn {
    fn from(called: Called<T>) -> Turn {
        Turn::new(called.runner, called.told, 0)
    }
}

impl Turn {
    fn new(runner: Runner, told: impl Into<Encoded>, sum: u32) -> Turn {
        let told = told.into();
        Turn { runner, told, sum }
    }

    // The four numbers that a call tells: the three of `encoding`, of the first its low 32 bits,
    // and the sum. Kept: no `From` narrows.
    fn numbers(self) -> [u32; 4] {
        let Encoded {
            kind,
            first,
            second,
        } = self.told;
        [kind, (first % (1 << 32)) as u32, second, self.sum]
    }
}

fn sum_of(bytes: &[u8]) -> u32 {
    bytes.iter().fold(0, |sum: u32, byte| {
        ((sum << 5) ^ (sum >> 3)).wrapping_add(u32::from(*byte))
    })
}

// As much of a buffer as a call lends.
fn lent(buf: &mut [u8], room: usize) -> &mut [u8] {
    let end = room.min(buf.len());
    &mut buf[..end]
}

// One call, or none.
fn make(runner: Runner, call: Option<Call>, buf: &mut [u8]) -> Turn {
    let Some(call) = call else {
        return Turn::new(runner, encoding::make(NO_CALL, 0, 0), 0);
    };
    // Kept: a match on the call, since each has fields of its own.
    match call {
        Call::Load(file) => runner.load(file).into(),
        Call::Begin {
            mode,
            inputs,
            allowed,
            limit,
        } => runner.begin(mode, inputs, allowed, limit).into(),
        Call::Advance(amount) => runner.advance(amount).into(),
        Call::Answer => Turn::new(runner, runner.answer(), 0),
        Call::Abandon => runner.abandon().into(),
        Call::WriteBack { room } => {
            let told = runner.write_back(lent(buf, room));
            Turn::new(runner, told, sum_of(buf))
        }
        Call::ShowBox { file, number } => {
            let shown = chart::show_box(file, number);
            let told = encoding::make(kinds::SHOWN, shown.len() as u64, 0);
            Turn::new(runner, told, sum_of(shown))
        }
        Call::Convert { file, room } => {
            let told = convert::convert(file, lent(buf, room));
            Turn::new(runner, told, sum_of(buf))
        }
        Call::Rewrite => runner.rewrite().into(),
    }
}

// Makes the calls of a list, on a new runner, and answers how many there are. Each tells four
// numbers: the three of `encoding`, and the sum; calls past the room for them are made as well.
// Numbers that are too few for one more call are not read.
pub fn flow_script(files: &[u8], words: &[u32], told: &mut [u32], buf: &mut [u8]) -> usize {
    let (calls, _) = words.as_chunks::<24>();
    let (rooms, _) = told.as_chunks_mut::<4>();
    let mut runner = Runner::new();
    for (i, words) in calls.iter().enumerate() {
        let turn = make(runner, Call::from_words(words, files), buf);
        runner = turn.runner;
        if let Some(room) = rooms.get_mut(i) {
            *room = turn.numbers();
        }
    }
    calls.len()
}
