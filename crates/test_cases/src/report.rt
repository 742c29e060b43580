// What the program prints: cases, and what ended them.
use crate::pair::Difference;
use encoding::{Encoded, kinds};
use std::{fmt, io};

// What a call told, in the words of the run program. Kept: kinds are the numbers of `encoding`,
// since the lines of fixed cases say them.
#[derive(Clone, Copy)]
pub struct Told(pub Encoded);

impl fmt::Display for Told {
    fn fmt<W: fmt::Write>(&self, f: &mut fmt::Formatter<W>) -> fmt::Result {
        let Encoded {
            kind,
            first,
            second,
        } = self.0;
        match kind {
            kinds::DONE => f.write_str("done"),
            kinds::CHART => write!(f, "chart inputs {first} boxes {second}"),
            kinds::RUNNING => write!(f, "running steps {first}"),
            kinds::ENDED => write!(f, "ended steps {first}"),
            kinds::VALUE => write!(f, "value {first} steps {second}"),
            kinds::NOTICE => write!(f, "notice steps {first} inputs {second}"),
            kinds::SPENT => write!(f, "spent steps {first}"),
            kinds::REFUSED => write!(f, "refused {first} detail {second}"),
            kinds::WRITTEN => write!(f, "written {first}"),
            kinds::SHOWN => write!(f, "shown bytes {first} kind {second}"),
            _ => Ok(()),
        }
    }
}

// Why the cases end before all are done: the two sides differ; a case told something else than its
// line says; a line is no command, or says what is not so, after so many calls; or standard output
// fails.
// Kept: names and lines are bytes, here and in `case`, since those of an input may be no text.
#[derive(Drop)]
pub enum Failure<'a> {
    Difference(Difference),
    Unexpected {
        name: &'a [u8],
        expected: Encoded,
        told: Encoded,
    },
    WrongLine {
        line: &'a [u8],
        calls: u32,
    },
    Output(io::Error),
}

impl From<Difference> for Failure<'_> {
    fn from(difference: Difference) -> Self {
        Failure::Difference(difference)
    }
}

impl From<io::Error> for Failure<'_> {
    fn from(error: io::Error) -> Self {
        Failure::Output(error)
    }
}

pub fn case(rt: &impl Print, name: &[u8], told: Encoded) -> io::Result<()> {
    rt.write_all(name)?;
    println!(rt; ": {}", Told(told))
}

impl Failure<'_> {
    pub fn print(self, rt: &impl Print) -> io::Result<()> {
        match self {
            Failure::Difference(difference) => println!(rt; "difference: {difference}"),
            Failure::Unexpected {
                name,
                expected,
                told,
            } => {
                print!(rt; "difference: ")?;
                case(rt, name, expected)?;
                case(rt, b"  told", told)
            }
            Failure::WrongLine { line, calls } => {
                print!(rt; "difference: ")?;
                rt.write_all(line)?;
                println!(rt; ", case 0, call {calls}\n  one: done\n  other: done")
            }
            Failure::Output(error) => Err(error),
        }
    }
}
