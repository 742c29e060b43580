// The run program's calls of the system: chart.bin is read, then standard input, as the turns of
// `transcript` want it, and what they want is written. Standard error is told what standard output
// cannot say.
#![tactic(auto)]

ghost use Rattle.std.specs.Prelude.{◌≡◌, ◌≤◌, length, IfOk};
ghost use Rattle.io.specs.Counts.{IsPrefixLen};
ghost use Rattle.transcript.specs.Transcript.{read_of_file};

use runner::Runner;
use std::env::FillError;
use std::io::{Error, Input, Read};
use std::rt::{Env, Files};
use transcript::{Session, Wanted};

// Writes a line to standard error: what failed, a colon and the system's word for it.
fn fail(rt: &impl Eprint, what: &str, error: &Error) {
    let _ = eprintln!(rt; "{what}: {error}");
}

// Reads chart.bin to the front of a buffer, and answers how many bytes. There is no equation, since
// no contract can say what the file holds. Kept: 0 where it cannot be read, since "a missing file
// counts as length 0", and a number, as a read of std answers, by the clause below.
pub fn read_chart(rt: &(impl Files + Eprint), buf: &mut [u8; 2561]) -> usize
    ensures { IsPrefixLen result buf.new }
{
    read_file(rt, buf)
        .inspect_err(|error| fail(rt, "chart.bin", error))
        .unwrap_or(0)
}

// Reads until a buffer is full or the file ends. The buffer has as many bytes as are read of a
// chart file at most. Kept: the loop and its length, since no method of std fills an array as far
// as a file goes: `read_exact` refuses a shorter file, and `read_to_end` needs a heap.
fn read_file(rt: &impl Files, buf: &mut [u8]) -> Result<usize, Error>
    requires { length buf.old ≡ read_of_file }
    ensures { IfOk result (λ n. IsPrefixLen n buf.new) }
{
    let mut file = std::fs::open(rt, "chart.bin")?;
    let mut length = 0;
    while length < buf.len() {
        match file.read(&mut buf[length..])? {
            0 => break,
            more => length += more,
        }
    }
    Ok(length)
}

// Reads behind the bytes at hand.
// Kept: the clause on the session's end, since its buffer is lent and no field of it.
fn read(rt: &impl Eprint, input: &mut impl Read, session: &mut Session, buffer: &mut [u8])
    requires { session.old.end ≤ length buffer.old }
{
    let got = input
        .read(&mut buffer[session.end..])
        .inspect_err(|error| fail(rt, "standard input", error))
        .ok();
    session.received(got, buffer);
}

// Does what each turn wants, until one wants to stop or a write fails. An ending loop counts its
// turns, up to a number that no run uses up. Kept: the three arms say what a turn's want means, and
// closures for them would be no plainer; a length of a text, which `turn` tells of a lent buffer.
fn serve(
    rt: &(impl Input + Print + Eprint),
    runner: Runner,
    buffer: &mut [u8],
    out: &mut [u8],
) -> Result<(), Error> {
    let mut input = rt.reader();
    let mut session = Session::default();
    for _ in 0..u64::MAX {
        match session.turn(runner, buffer, out) {
            Wanted::Write(length) => rt.write_all(&out[..length])?,
            Wanted::Read => read(rt, &mut input, &mut session, buffer),
            Wanted::Stop => break,
        }
    }
    Ok(())
}

// Writes the transcript of chart.bin and standard input, as far as writes go. Kept: arrays and what
// lies at their front, since `read_chart` and `reply::load_chart` tell a length of a lent buffer.
fn transcribe(rt: &(impl Files + Input + Print + Eprint)) -> Result<(), Error> {
    let mut file = [0u8; 2561];
    let length = read_chart(rt, &mut file);
    let mut texts = io::large_buffer();
    let opened = reply::load_chart(Runner::new(), &file[..length], &mut texts);
    rt.write_all(&texts[..opened.length])?;
    if opened.loaded {
        let mut input = io::large_buffer();
        serve(rt, opened.runner, &mut input, &mut texts)?;
    }
    Ok(())
}

pub fn run(rt: &(impl Env + Files + Input + Print + Eprint)) {
    let words = rt.arg(1, &mut [0u8; 1]);
    if !matches!(words, Err(FillError::NotPresent)) {
        let _ = eprintln!(rt; "flowrun: words after the command are not taken");
    }
    if let Err(error) = transcribe(rt) {
        fail(rt, "standard output", &error);
    }
}
