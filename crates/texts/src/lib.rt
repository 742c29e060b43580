// The texts that the run program prints.
#![tactic(auto)]

ghost use Rattle.std.specs.Prelude.{◌≡◌, ◌++◌, ◌+◌, ◌<◌, ◌≤◌, length, drop, map, sum_by};
ghost use Rattle.texts.specs.Printing.{clause, sentence, printed, printed_length};

use block::Refusal;
use runner::{Answered, Ending, Loaded};

// The chart line, the ending of a run, or a refusal, whose detail passes 32 bits where it is the
// number of a line that is ill-formed.
// Kept: a refusal as numbers, since a line's number passes the 32 bits of `Refusal`.
#[derive(Clone, Copy, Debug, PartialEq, Eq)]
pub enum Text {
    Chart { inputs: u8, boxes: u8 },
    Value { value: u32, steps: u32 },
    Notice { steps: u32, named: u16 },
    Spent { steps: u32 },
    Refused { number: u32, detail: u64 },
}

impl From<Refusal> for Text {
    ghost use Rattle.texts.specs.Texts.{of_refusal};

    ghost from_gives = { λ refusal text. text ≡ of_refusal refusal };

    fn from(refusal: Refusal) -> Text {
        Text::Refused {
            number: refusal.number,
            detail: u64::from(refusal.detail),
        }
    }
}

impl From<Result<Loaded, Refusal>> for Text {
    ghost use Rattle.texts.specs.Texts.{of_loaded};

    ghost from_gives = { λ told text. text ≡ of_loaded told };

    fn from(told: Result<Loaded, Refusal>) -> Text {
        match told {
            Ok(Loaded { inputs, boxes }) => Text::Chart { inputs, boxes },
            Err(refusal) => Text::from(refusal),
        }
    }
}

impl From<Result<Answered, Refusal>> for Text {
    ghost use Rattle.texts.specs.Texts.{of_answered};

    ghost from_gives = { λ told text. text ≡ of_answered told };

    fn from(told: Result<Answered, Refusal>) -> Text {
        match told {
            Ok(Answered { ending, steps }) => match ending {
                Ending::Value(value) => Text::Value { value, steps },
                Ending::Notice(named) => Text::Notice { steps, named },
                Ending::Spent => Text::Spent { steps },
            },
            Err(refusal) => Text::from(refusal),
        }
    }
}

impl Text {
    ghost use Rattle.texts.specs.Texts.{text_of};

    // Prints at the front of a buffer, and answers how many bytes it put there: none in a buffer
    // that is short of 64.
    // Kept: a Display and `write!` promise their bytes where they are Ok, and no clause says when
    // that is, but these bytes always come. `printed_length` holds the length 0 where there is no
    // room. Length and bytes are two clauses, here, below and in `reply`: proofs above cite each by
    // its name. Kept inline, here and below: the compiler then stores a word as a constant, where it
    // would copy it by its length.
    #[inline(always)]
    #[tactic(auto, unfolding(crate::specs::Printing::sentence))]
    pub fn print(self, out: &mut [u8]) -> usize
        ensures value { result ≡ printed_length (text_of self) (length out.old) }
        ensures out_after { out.new ≡ printed (text_of self) out.old }
    {
        match self {
            Text::Chart { inputs, boxes } => print_sentence(
                &[
                    ("chart inputs ", u64::from(inputs)),
                    (" boxes ", u64::from(boxes)),
                ],
                out,
            ),
            Text::Value { value, steps } => print_sentence(
                &[("value ", u64::from(value)), (" steps ", u64::from(steps))],
                out,
            ),
            Text::Notice { steps, named } => print_sentence(
                &[
                    ("notice steps ", u64::from(steps)),
                    (" inputs ", u64::from(named)),
                ],
                out,
            ),
            Text::Spent { steps } => print_sentence(&[("spent steps ", u64::from(steps))], out),
            Text::Refused { number, detail } => print_sentence(
                &[("refused ", u64::from(number)), (" detail ", detail)],
                out,
            ),
        }
    }
}

// A word and a number at the front.
#[inline(always)]
fn put_clause(word: &str, number: u64, out: &mut [u8]) -> usize
    requires { length word.now + 20 ≤ length out.old }
    ensures value { result ≡ length (clause word.now number) }
    ensures upper_bound { result ≤ length word.now + 20 }
    ensures out_after { out.new ≡ clause word.now number ++ drop (length (clause word.now number)) out.old }
{
    let mut buffer = itoa::Buffer::new();
    let digits = buffer.format(number);
    let at = word.len();
    let end = at + digits.len();
    out[..at].copy_from_slice(word.as_bytes());
    out[at..end].copy_from_slice(digits.as_bytes());
    end
}

// The clauses, then the newline, where the buffer has room for every text.
#[inline(always)]
fn print_sentence(clauses: &[(&str, u64)], out: &mut [u8]) -> usize
    requires { sum_by (λ c. length c.0.now + 20) clauses.now < 64 }
    ensures value { result ≡ printed_length (sentence (map (λ c. (c.0.now, c.1)) clauses.now)) (length out.old) }
    ensures out_after { out.new ≡ printed (sentence (map (λ c. (c.0.now, c.1)) clauses.now)) out.old }
{
    if out.len() < 64 {
        return 0;
    }
    let mut at = 0;
    for &(word, number) in clauses {
        at += put_clause(word, number, &mut out[at..]);
    }
    out[at] = b'\n';
    at + 1
}
