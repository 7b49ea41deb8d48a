// Ground 3 over a table: the header's counts are in range, each line has the kind that its place gives it, and the sizes of the blocks add up.
#![tactic(auto)]

ghost use Rattle.std.specs.Prelude.{◌≡◌, ◌<◌};
ghost use Rattle.numbers.specs.Search.{first};
ghost use Rattle.table.specs.Table.{table_of};
ghost use Rattle.table.specs.Form.{header_in_range, kind_due, kind_wrong, gain, loss, sum_agrees, sums_agree};

use table::{
    MAX_BRANCHES, MAX_DEFINITIONS, MAX_NODES, MAX_PORTS, MAX_SLOTS, MAX_TYPES, Part, block_size,
    blocks_of, branch_row, cell, definition_row, field, is_within, lines_of, node_row, slot_row,
};

// Whether the header's counts are in range.
#[tactic(auto, unfolding(table::specs::Form::header_in_range))]
pub fn header_in_range(table: &[u8]) -> bool
    ensures { result ≡ header_in_range (table_of table.now) }
{
    is_within(0, MAX_TYPES, cell(table, 0, field::TYPES))
        && is_within(1, MAX_DEFINITIONS, cell(table, 0, field::DEFINITIONS))
        && is_within(0, MAX_SLOTS, cell(table, 0, field::SLOTS))
        && is_within(1, MAX_NODES, cell(table, 0, field::NODES))
        && is_within(0, MAX_BRANCHES, cell(table, 0, field::BRANCHES))
        && is_within(0, MAX_PORTS, cell(table, 0, field::PORTS))
}

// The kind that the header's counts give a row.
#[tactic(auto, unfolding(table::specs::Form::kind_due))]
fn kind_due(table: &[u8], row: usize) -> u32
    ensures { result ≡ kind_due (table_of table.now) row }
{
    if row == 0 {
        1
    } else if row < definition_row(table) {
        2
    } else if row < slot_row(table) {
        3
    } else if row < node_row(table) {
        4
    } else if row < branch_row(table) {
        5
    } else {
        6
    }
}

// The first of n rows that has another kind than the header's counts give it; n where there is none.
pub fn first_kind_wrong(table: &[u8], n: usize) -> usize
    ensures { result ≡ first (kind_wrong (table_of table.now)) n }
{
    (0..n)
        .find(|&row| cell(table, row, field::KIND) != kind_due(table, row))
        .unwrap_or(n)
}

// What a size, which is a signed number, adds to a sum.
#[tactic(auto, unfolding(table::specs::Form::gain))]
fn gain_of(v: u32) -> u32
    requires { v < 65536 }
    ensures value { result ≡ gain v }
    ensures upper_bound { result < 65536 }
{
    if v < 32768 { v } else { 0 }
}

// What a size, which is a signed number, takes away from a sum.
#[tactic(auto, unfolding(table::specs::Form::loss))]
fn loss_of(v: u32) -> u32
    requires { v < 65536 }
    ensures value { result ≡ loss v }
    ensures upper_bound { result < 65536 }
{
    if v < 32768 { 0 } else { 65536 - v }
}

// Whether the sizes of a part's blocks, which nothing has bounded yet, add up to the header's count.
#[tactic(auto, using(crate::proofs::Sums::sums))]
fn sum_agrees(table: &[u8], part: Part) -> bool
    ensures { result ≡ sum_agrees (table_of table.now) part }
{
    let n = blocks_of(table, part);
    let mut gains = 0;
    let mut losses = 0;
    for i in 0..n {
        let v = block_size(table, part, i);
        gains += gain_of(v);
        losses += loss_of(v);
    }
    gains as usize == lines_of(table, part) as usize + losses as usize
}

// Whether the sizes of the blocks of slots, of nodes and of branches add up to the header's counts.
#[tactic(auto, unfolding(table::specs::Form::sums_agree))]
pub fn sums_agree(table: &[u8]) -> bool
    ensures { result ≡ sums_agree (table_of table.now) }
{
    sum_agrees(table, Part::Slots)
        && sum_agrees(table, Part::Nodes)
        && sum_agrees(table, Part::Branches)
}
