// The modes: what an assignment leaves on its target, what a decision and a halt do, and whether
// counts are hidden. A mark is a set of withheld inputs, a number whose bit j is input j; 0 is no
// mark.
// Kept: that 0 is for no notice, since it is the empty set of inputs and no mark beside the sets
// (`decision_notice` and `halt_notice` in specs/Marks.antt).
#![tactic(auto)]

ghost use Rattle.std.specs.Prelude.{◌≡◌};
ghost use Rattle.marks.specs.Marks.{code_of, mode_in, by_mode, masks_of, set_by, decision_notice, counter_mark, halt_notice, named_by, hides};

#[derive(Clone, Copy, Debug, PartialEq, Eq)]
pub enum Mode {
    Bare,
    Surveillance,
    HighWater,
}

// The mode of a number.
impl From<u8> for Mode {
    ghost from_gives = { λ number mode. mode ≡ code_of number };

    fn from(number: u8) -> Mode {
        match number {
            0 => Mode::Bare,
            1 => Mode::Surveillance,
            _ => Mode::HighWater,
        }
    }
}

// A rule by the mode. Kept: a match, whose arms are one value each.
fn by_mode(mode: Mode, bare: u16, surveillance: u16, high: u16) -> u16
    ensures { result ≡ by_mode (mode_in mode) bare surveillance high }
{
    match mode {
        Mode::Bare => bare,
        Mode::Surveillance => surveillance,
        Mode::HighWater => high,
    }
}

// The masks by which an assignment in a mode sets its target's mark: which inputs it keeps of the
// old set, and which it takes of the sets read.
#[derive(Clone, Copy)]
pub struct Masks {
    keep: u16,
    take: u16,
}

// Bare keeps all and takes none, so that a mark stays.
pub fn masks_of(mode: Mode) -> Masks
    ensures { result ≡ masks_of (mode_in mode) }
{
    let keep = by_mode(mode, 65535, 0, 65535);
    let take = by_mode(mode, 0, 65535, 65535);
    Masks { keep, take }
}

// The mark of the target after an assignment: what is taken of the marks read, and what is kept of
// its mark before.
pub fn set_mark(masks: Masks, before: u16, read: u16) -> u16
    ensures { result ≡ set_by masks before read }
{
    (read & masks.take) | (before & masks.keep)
}

// The marks for which a decision that reads these ends the run with a notice; 0 where it goes on.
pub fn decision_notice(mode: Mode, read: u16) -> u16
    ensures { result ≡ decision_notice (mode_in mode) read }
{
    by_mode(mode, 0, read, 0)
}

// The counter mark after a decision that reads these marks.
pub fn counter_mark(mode: Mode, counter: u16, read: u16) -> u16
    ensures { result ≡ counter_mark (mode_in mode) counter read }
{
    by_mode(mode, counter, counter, counter | read)
}

// The marks for which a halt gives a notice, of the counter mark and the mark of variable 31; 0
// where it gives the value.
pub fn halt_notice(mode: Mode, counter: u16, output: u16) -> u16
    ensures { result ≡ halt_notice (mode_in mode) counter output }
{
    by_mode(mode, 0, output, counter | output)
}

// The set that a notice carries, which is given for these marks. Kept: `decision_notice` is another
// rule of the same form, and each has its own definition.
pub fn named_by(mode: Mode, marks: u16) -> u16
    ensures { result ≡ named_by (mode_in mode) marks }
{
    by_mode(mode, 0, marks, 0)
}

// Whether the mode hides its counts, all but that of a value.
pub fn hides(mode: Mode) -> bool
    ensures { result ≡ hides (mode_in mode) }
{
    matches!(mode, Mode::HighWater)
}
