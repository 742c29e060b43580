// Decisions between two copies become choices: the rewriter, on the bytes of a chart file.
// Kept: kinds and operations are bytes here, since a choice is put into the file as its bytes.
use crate::blocks::{place, start};

// The choice for a decision between two boxes that copy to one target and go on to one box. Its
// comparison and the variables compared are the decision's.
fn choice_for(file: &[u8], number: u8) -> Option<[u8; 10]> {
    let [2, _, comparison, left, right, if_true, if_false, ..] = place(file, number) else {
        return None;
    };
    let [1, target, 1, one, _, next, ..] = place(file, if_true) else {
        return None;
    };
    let [1, other_target, 1, other, _, other_next, ..] = place(file, if_false) else {
        return None;
    };
    if if_true == if_false || target != other_target || next != other_next {
        return None;
    }
    Some([4, target, comparison, left, right, next, one, other, 0, 0])
}

// The boxes, of which there are so many, change in place, one after the other, and each is still
// judged as on the old bytes: only a box of kind 2 changes, in its own turn, and it is of kind 1
// neither before nor after. So a box has its own bytes as they were when its turn comes, and a next
// box of it copies then exactly if it copied at first, with the same bytes. The checks are left.
pub fn rewrite(bytes: &mut [u8; 2560], boxes: u8) {
    for number in 0..boxes {
        if let Some(choice) = choice_for(bytes, number) {
            let start = start(number);
            if let Some(decision) = bytes.get_mut(start..start + 10) {
                decision.copy_from_slice(&choice);
            }
        }
    }
}
