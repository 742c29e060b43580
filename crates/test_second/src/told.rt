// What the calls tell: a reply, or a refusal.
use crate::machine::Ending;

// The reply of a call that is not refused.
#[derive(Clone, Copy, Debug, PartialEq, Eq)]
pub enum Reply {
    Done,
    Chart { inputs: u8, boxes: u8 },
    Running { steps: u32 },
    Ended { steps: u32 },
    Answer(Ending),
    Written { length: u16 },
}

// Why a call is refused: of a check the block, of a rule the place, and of a chart that the other
// edition does not take the box.
#[derive(Clone, Copy, Debug, PartialEq, Eq)]
pub enum Refusal {
    Length,
    Check(u8),
    Letters,
    Header,
    Blocks,
    Place(u8),
    Mode,
    Allowed,
    Inputs,
    Limit,
    Room,
    Amount,
    OtherEdition(u8),
    Edition,
    NoChart,
    UnderWay,
    NoRun,
    NoEnding,
}

pub type Told = Result<Reply, Refusal>;

impl Refusal {
    fn number(self) -> u32 {
        match self {
            Refusal::Length => 1,
            Refusal::Check(_) => 2,
            Refusal::Letters => 3,
            Refusal::Header => 4,
            Refusal::Blocks => 5,
            Refusal::Place(_) => 6,
            Refusal::Mode => 7,
            Refusal::Allowed => 8,
            Refusal::Inputs => 9,
            Refusal::Limit => 10,
            Refusal::Room => 12,
            Refusal::Amount => 13,
            Refusal::OtherEdition(_) => 14,
            Refusal::Edition => 15,
            Refusal::NoChart => 21,
            Refusal::UnderWay => 22,
            Refusal::NoRun => 23,
            Refusal::NoEnding => 24,
        }
    }

    fn detail(self) -> u32 {
        match self {
            Refusal::Check(number) | Refusal::Place(number) | Refusal::OtherEdition(number) => {
                u32::from(number)
            }
            _ => 0,
        }
    }
}

// What is told as a kind and two values, of which one that is not used is 0. They are said here
// again because this crate was written apart from `encoding`, and is compared with it.
// Kept: a number for the kind, since `encoding` makes such numbers, and the two are compared.
#[derive(Clone, Copy, Debug, PartialEq, Eq)]
pub struct Numbers {
    pub kind: u32,
    pub first: u32,
    pub second: u32,
}

impl From<Told> for Numbers {
    fn from(told: Told) -> Numbers {
        let (kind, first, second) = match told {
            Ok(Reply::Done) => (0, 0, 0),
            Ok(Reply::Chart { inputs, boxes }) => (1, u32::from(inputs), u32::from(boxes)),
            Ok(Reply::Running { steps }) => (2, steps, 0),
            Ok(Reply::Ended { steps }) => (3, steps, 0),
            Ok(Reply::Answer(Ending::Value { value, steps })) => (4, value, steps),
            Ok(Reply::Answer(Ending::Notice { steps, named })) => (5, steps, named),
            Ok(Reply::Answer(Ending::Spent { steps })) => (6, steps, 0),
            Err(refusal) => (7, refusal.number(), refusal.detail()),
            Ok(Reply::Written { length }) => (8, u32::from(length), 0),
        };
        Numbers {
            kind,
            first,
            second,
        }
    }
}
