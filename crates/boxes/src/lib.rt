// The rules of a box, ten bytes, in a chart of an edition, of k inputs and n boxes.
// Kept: editions, kinds, operations and comparisons are bytes, since a file's bytes are judged
// here, and `well_formed`, `has_kind` and `reads_right` promise an answer of any byte.
#![tactic(auto)]

ghost use Rattle.std.specs.Prelude.{◌≡◌, ◌&&◌, leb};
ghost use Rattle.boxes.specs.Bytes.{all_zero};
ghost use Rattle.boxes.specs.Box.{readable, reads_right, has_kind, operand_rule, assignment_rule, decision_rule, halt_rule, choice_rule, well_formed};

// Every byte is 0.
#[tactic(auto, using(std::proofs::lemmas::List::Folds::list_all_more), unfolding(crate::specs::Bytes::all_zero))]
pub fn all_zero(bytes: &[u8]) -> bool
    ensures { result ≡ all_zero bytes.now }
{
    // Kept: a loop over all bytes, since `all` stops at the first and takes longer (`bench/run`).
    let mut clear = true;
    for &b in bytes {
        clear &= b == 0;
    }
    clear
}

// A variable that a box may store to.
fn is_target(v: u8) -> bool
    ensures { result ≡ (leb 16 v && leb v 31) }
{
    (16..=31).contains(&v)
}

// Whether an operation reads its right operand, which is where the editions differ in what they
// read.
pub fn reads_right(edition: u8, op: u8) -> bool
    ensures { result ≡ reads_right edition op }
{
    (2..=8).contains(&op) | ((op == 11) & (edition == 2))
}

// Whether an edition has boxes of a kind.
pub fn has_kind(edition: u8, kind: u8) -> bool
    ensures { result ≡ has_kind edition kind }
{
    (1..=3).contains(&kind) | ((kind == 4) & (edition == 2))
}

// What the rules ask of the chart that a box stands in: its edition, and how many inputs and boxes
// it has.
#[derive(Clone, Copy)]
struct Chart {
    edition: u8,
    k: u8,
    n: u8,
}

impl Chart {
    fn can_read(self, v: u8) -> bool
        ensures { result ≡ readable self.k v }
    {
        (v < self.k) | is_target(v)
    }

    #[tactic(auto, unfolding(crate::specs::Box::operand_rule))]
    fn operand_holds(self, reads: bool, v: u8) -> bool
        ensures { result ≡ operand_rule self.k reads v }
    {
        if reads { self.can_read(v) } else { v == 0 }
    }

    #[tactic(auto, unfolding(crate::specs::Box::assignment_rule))]
    fn assignment_holds(self, b: &[u8; 10]) -> bool
        ensures { result ≡ assignment_rule self.edition self.k self.n b.now }
    {
        let target = b[1];
        let op = b[2];
        (b[0] == 1)
            & is_target(target)
            & (op <= 11)
            & self.operand_holds(1 <= op, b[3])
            & self.operand_holds(reads_right(self.edition, op), b[4])
            & (b[5] < self.n)
            & ((op == 0) | all_zero(&b[6..10]))
    }

    #[tactic(auto, unfolding(crate::specs::Box::decision_rule))]
    fn decision_holds(self, b: &[u8; 10]) -> bool
        ensures { result ≡ decision_rule self.k self.n b.now }
    {
        (b[0] == 2)
            & (b[1] == 0)
            & (b[2] <= 2)
            & self.can_read(b[3])
            & self.can_read(b[4])
            & (b[5] < self.n)
            & (b[6] < self.n)
            & all_zero(&b[7..10])
    }

    #[tactic(auto, unfolding(crate::specs::Box::choice_rule))]
    fn choice_holds(self, b: &[u8; 10]) -> bool
        ensures { result ≡ choice_rule self.k self.n b.now }
    {
        (b[0] == 4)
            & is_target(b[1])
            & (b[2] <= 2)
            & self.can_read(b[3])
            & self.can_read(b[4])
            & (b[5] < self.n)
            & self.can_read(b[6])
            & self.can_read(b[7])
            & all_zero(&b[8..10])
    }
}

#[tactic(auto, unfolding(crate::specs::Box::halt_rule))]
fn halt_holds(b: &[u8; 10]) -> bool
    ensures { result ≡ halt_rule b.now }
{
    (b[0] == 3) & all_zero(&b[1..10])
}

// Ten bytes that break no rule of a box. Kept: a match on the kind, whose arms are one call each.
#[tactic(auto, using(crate::proofs::Formed::formed))]
pub fn well_formed(edition: u8, k: u8, n: u8, b: &[u8]) -> bool
    ensures { result ≡ well_formed edition k n b.now }
{
    let Ok(b) = <&[u8; 10]>::try_from(b) else {
        return false;
    };
    let chart = Chart { edition, k, n };
    match b[0] {
        1 => chart.assignment_holds(b),
        2 => chart.decision_holds(b),
        3 => halt_holds(b),
        kind => has_kind(edition, kind) & chart.choice_holds(b),
    }
}
