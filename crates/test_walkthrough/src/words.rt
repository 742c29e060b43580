// How the stages print what they show.
use encoding::{Encoded, Numbered, kinds};
use runner::{Called, Runner};
use std::{fmt, io};

// Bytes in hexadecimal, a space before each.
#[derive(Clone, Copy)]
pub struct Bytes<'a>(pub &'a [u8]);

impl fmt::Display for Bytes<'_> {
    fn fmt<W: fmt::Write>(&self, f: &mut fmt::Formatter<W>) -> fmt::Result {
        for byte in self.0 {
            write!(f, " {byte:02x}")?;
        }
        Ok(())
    }
}

// Whether something holds.
#[derive(Clone, Copy)]
pub struct Holds(pub bool);

impl fmt::Display for Holds {
    fn fmt<W: fmt::Write>(&self, f: &mut fmt::Formatter<W>) -> fmt::Result {
        f.write_str(if self.0 { "yes" } else { "no" })
    }
}

// The set that an input begins a run with: an allowed one begins with none.
#[derive(Clone, Copy)]
pub struct Mark(pub u16);

impl fmt::Display for Mark {
    fn fmt<W: fmt::Write>(&self, f: &mut fmt::Formatter<W>) -> fmt::Result {
        match self.0 {
            0 => f.write_str("bit 1, allowed, begins with set 0"),
            set => write!(f, "bit 0, withheld, begins with set {set}"),
        }
    }
}

// What a call told, in the words of the run program. Kept: kinds are the numbers of `encoding`, by
// which all calls are printed alike; `test_cases` has other words for what is written and shown.
#[derive(Clone, Copy)]
struct Told(Encoded);

impl fmt::Display for Told {
    fn fmt<W: fmt::Write>(&self, f: &mut fmt::Formatter<W>) -> fmt::Result {
        let Encoded {
            kind,
            first,
            second,
        } = self.0;
        match kind {
            kinds::DONE => f.write_str("done"),
            kinds::CHART => write!(f, "chart inputs {first} boxes {second}"),
            kinds::RUNNING => write!(f, "running steps {first}"),
            kinds::ENDED => write!(f, "ended steps {first}"),
            kinds::VALUE => write!(f, "value {first} steps {second}"),
            kinds::NOTICE => write!(f, "notice steps {first} inputs {second}"),
            kinds::REFUSED => write!(f, "refused {first} detail {second}"),
            kinds::WRITTEN => write!(f, "length {first}"),
            _ => write!(f, "spent steps {first}"),
        }
    }
}

pub fn print_told(rt: &impl Print, words: &str, told: impl Into<Encoded>) -> io::Result<()> {
    println!(rt; "{words}: {}", Told(told.into()))
}

// What a call told, and then the runner after it.
pub fn print_called<T: Numbered>(
    rt: &impl Print,
    words: &str,
    called: Called<T>,
) -> io::Result<Runner> {
    print_told(rt, words, called.told)?;
    Ok(called.runner)
}
