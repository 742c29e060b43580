// The rewriter: a decision between two copies into one variable becomes a choice without a branch.
#![tactic(auto)]

ghost use Rattle.std.specs.Prelude.{◌≡◌, [], MatchOption, ◌++◌, ◌+◌, ◌*◌, ◌<◌, length, take, drop};
ghost use Rattle.boxes.specs.Bytes.{box_of};
ghost use Rattle.rewrite.specs.Rewrite.{rewritten_box, rewritten};
ghost use Rattle.rewrite.specs.Reading.{copy_of, choice_at};

// An assignment that copies a variable: its target, the variable copied and its next box.
#[derive(Clone, Copy)]
struct CopyBox {
    target: u8,
    from: u8,
    next: u8,
}

// The box of a number, where a place has it.
fn box_at(table: &[u8; 2040], number: u8) -> Option<&[u8]>
    ensures { MatchOption result (box_of table.now number ≡ []) (λ b. (b.now ≡ box_of table.now number) × (length b.now ≡ 10)) }
{
    // Kept, here and below: a box is bytes of the table, the kind too, as the specs have it.
    let start = 10 * usize::from(number);
    table.get(start..start + 10)
}

// The box of a number, if it is a copy.
fn copy_at(table: &[u8; 2040], number: u8) -> Option<CopyBox>
    ensures { result ≡ copy_of (box_of table.now number) }
{
    let b = box_at(table, number)?;
    (b[0] == 1 && b[2] == 1).then_some(CopyBox {
        target: b[1],
        from: b[3],
        next: b[5],
    })
}

// The choice that the box at a place becomes, if it is replaced.
#[tactic(auto, unfolding(crate::specs::Reading::choice_at, crate::specs::Rewrite::is_replaced, crate::specs::Rewrite::copy_alike, crate::specs::Rewrite::choice_of))]
fn choice_at(table: &[u8; 2040], p: u8) -> Option<[u8; 10]>
    ensures { result ≡ choice_at table.now p }
{
    let b = box_at(table, p)?;
    if b[0] != 2 || b[5] == b[6] {
        return None;
    }
    let one = copy_at(table, b[5])?;
    let other = copy_at(table, b[6])?;
    if one.target != other.target || one.next != other.next {
        return None;
    }
    Some([
        4, one.target, b[2], b[3], b[4], one.next, one.from, other.from, 0, 0,
    ])
}

// Place p of a table rewritten, in its own place.
fn rewrite_place(table: &mut [u8; 2040], p: u8)
    requires { p < 204 }
    ensures { table.new ≡ take (10 * p) table.old ++ (rewritten_box table.old p ++ drop (10 * p + 10) table.old) }
{
    if let Some(choice) = choice_at(table, p) {
        let start = 10 * usize::from(p);
        table[start..start + 10].copy_from_slice(&choice);
    }
}

// The table with every such decision replaced, in its own place. Each decision is judged on the
// table as it is by then, half rewritten, which is the same as judging on the old one.
pub fn rewrite(table: &mut [u8; 2040])
    ensures { table.new ≡ rewritten table.old }
{
    for p in 0..204 {
        rewrite_place(table, p);
    }
}
