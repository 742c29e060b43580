// Kept: numbers, since callers in C read them (`flow_script`), and `encode` names each.
// The kinds of what is told: the numbers that `encode` of specs/Encoding.antt has. In parentheses
// are the two values of each; one that is not named is 0.
pub const DONE: u32 = 0;

// (inputs, boxes)
pub const CHART: u32 = 1;

// (steps)
pub const RUNNING: u32 = 2;

// (steps)
pub const ENDED: u32 = 3;

// (value, steps)
pub const VALUE: u32 = 4;

// (steps, the set of inputs that it names)
pub const NOTICE: u32 = 5;

// (steps)
pub const SPENT: u32 = 6;

// (number, detail)
pub const REFUSED: u32 = 7;

// (length)
pub const WRITTEN: u32 = 8;

// A box shown, which is no call of the runner (length of the part).
pub const SHOWN: u32 = 9;
