// What a run begins with: the limit, the variables and their marks.
#![tactic(auto)]

ghost use Rattle.std.specs.Prelude.{◌≡◌, ◌<◌};
ghost use Rattle.begin.specs.Begin.{effective, withheld_mark, first_vars, first_marks};

// The limit that 0 means.
const LIMIT_FOR_NONE: u32 = 4096;

// The limit that a number means.
#[tactic(auto, unfolding(crate::specs::Begin::effective))]
pub fn effective(limit: u32) -> u32
    ensures { result ≡ effective limit }
{
    // Kept: 0 for no limit, as `effective` in specs/ has it, after document 01.
    if limit == 0 { LIMIT_FOR_NONE } else { limit }
}

// The variables at the start of a run: the inputs, at most 32 of them, then 0.
pub fn first_vars(inputs: &[u32]) -> [u32; 32]
    ensures { result ≡ first_vars inputs.now }
{
    // Kept: an array beside that of the marks, since document 01 has the runner hold both.
    let end = inputs.len().min(32);
    let mut vars = [0u32; 32];
    vars[..end].copy_from_slice(&inputs[..end]);
    vars
}

// The mark of input j: itself alone, and none where the allowed set has its bit.
#[tactic(auto, unfolding(crate::specs::Begin::withheld_mark))]
fn withheld_mark(allowed: u32, j: usize) -> u16
    requires { j < 16 }
    ensures { result ≡ withheld_mark allowed j }
{
    if (allowed >> j) % 2 == 1 {
        0
    } else {
        1u16 << j
    }
}

// The marks at the start of a run: of the withheld inputs among the first k, at most 16 of them,
// and no other.
pub fn first_marks(allowed: u32, k: u8) -> [u16; 32]
    ensures { result ≡ first_marks allowed k }
{
    let end = usize::from(k).min(16);
    let mut marks = [0u16; 32];
    for (j, mark) in marks[..end].iter_mut().enumerate() {
        *mark = withheld_mark(allowed, j);
    }
    marks
}
