// What the runner's calls and the converter tell, as three numbers: for callers in other languages,
// and for tests.
#![tactic(auto)]

pub mod kinds;

ghost use Rattle.std.specs.Prelude.{◌≡◌};
ghost use Rattle.runner.specs.Outcomes.{Reply, done, chart, wrote, turned_away};
ghost use Rattle.runner.specs.Replies.{reply_by, progress_told, ending_told};
ghost use Rattle.encoding.specs.Encoding.{numbers, encode, EncodesOnce};

use block::Refusal;
use runner::{Advanced, Answered, Ending, Loaded};

// A kind, one of `kinds`, and its two values.
// Kept, here and in `make`: a number for the kind, since callers in C read it (see `kinds`).
#[derive(Clone, Copy, Debug, PartialEq, Eq)]
pub struct Encoded {
    pub kind: u32,
    pub first: u64,
    pub second: u32,
}

// Kept: a constructor of three numbers, since it is public and its clause is what callers go by.
pub fn make(kind: u32, first: u64, second: u32) -> Encoded
    ensures { result ≡ numbers kind first second }
{
    Encoded {
        kind,
        first,
        second,
    }
}

// What a call tells where it is done: its reply, and the numbers of that.
pub trait Numbered {
    ghost reply: { Self → Reply };

    fn numbered(self) -> Encoded
        ensures { result ≡ encode (reply self) };
}

// A begin, an abandon or a rewriting.
impl Numbered for () {
    ghost reply = { λ u. done };

    #[tactic(auto, unfolding(crate::specs::Encoding::encode))]
    fn numbered(self) -> Encoded {
        make(kinds::DONE, 0, 0)
    }
}

impl Numbered for Loaded {
    ghost reply = { λ c. chart c.inputs c.boxes };

    #[tactic(auto, unfolding(crate::specs::Encoding::encode))]
    fn numbered(self) -> Encoded {
        make(kinds::CHART, u64::from(self.inputs), u32::from(self.boxes))
    }
}

impl Numbered for Advanced {
    ghost reply = { progress_told };

    #[tactic(auto, unfolding(crate::specs::Encoding::encode))]
    fn numbered(self) -> Encoded {
        match self {
            Advanced::Running(steps) => make(kinds::RUNNING, u64::from(steps), 0),
            Advanced::Ended(steps) => make(kinds::ENDED, u64::from(steps), 0),
        }
    }
}

impl Numbered for Answered {
    ghost reply = { ending_told };

    #[tactic(auto, unfolding(crate::specs::Encoding::encode, crate::specs::Encoding::ending_numbers))]
    fn numbered(self) -> Encoded {
        let steps = self.steps;
        match self.ending {
            Ending::Value(value) => make(kinds::VALUE, u64::from(value), steps),
            Ending::Notice(named) => make(kinds::NOTICE, u64::from(steps), u32::from(named)),
            Ending::Spent => make(kinds::SPENT, u64::from(steps), 0),
        }
    }
}

// The length of a file, by write back and by the converter.
impl Numbered for usize {
    ghost reply = { wrote };

    #[tactic(auto, unfolding(crate::specs::Encoding::encode))]
    fn numbered(self) -> Encoded {
        // Kept: std has no `From` of usize into u64.
        make(kinds::WRITTEN, self as u64, 0)
    }
}

impl From<Refusal> for Encoded {
    ghost from_gives = { λ refusal told. told ≡ encode (turned_away refusal) };

    #[tactic(auto, unfolding(crate::specs::Encoding::encode))]
    fn from(refusal: Refusal) -> Encoded {
        make(kinds::REFUSED, u64::from(refusal.number), refusal.detail)
    }
}

// Of every call, and of the converter: what it tells, or its refusal.
impl<T: Numbered> From<Result<T, Refusal>> for Encoded {
    ghost from_gives = { λ answer told. told ≡ encode (reply_by T.reply answer) };

    fn from(answer: Result<T, Refusal>) -> Encoded {
        match answer {
            Ok(done) => done.numbered(),
            Err(refusal) => refusal.into(),
        }
    }
}

// The claim of this crate. A claim counts where a contract holds it: without this function the
// theorem could be deleted, and nothing would fail.
pub fn promised()
    ensures { EncodesOnce }
{}
