// Filling the index of a table: the starts of its blocks, the owners of its nodes and branches, and the first row of each kind, each part behind the one before.
ghost use Rattle.std.specs.Prelude.{◌≡◌, true, ◌+◌, ◌≤◌, ◌<◌, get_or, replicate};
ghost use Rattle.numbers.specs.Search.{first};
ghost use Rattle.numbers.specs.Laid.{laid};
ghost use Rattle.table.specs.Table.{table_of};
ghost use Rattle.table.specs.Layout.{blocks, ends_past};
ghost use Rattle.table.specs.Form.{header_in_range};
ghost use Rattle.table.specs.Index.{starts_from, starts_room, owners_from, owners_room, rows_from, index_length, index_of, entry, Starts};

use super::{
    Part, block_size, blocks_of, branch_row, definition_row, lines_of, node_row, owners_from,
    slot_row, starts_from,
};

// Start i of a part, from the index.
fn start_at(index: &[u32], part: Part, i: u32) -> u32
    ensures { result ≡ get_or index.now (starts_from part + i) 0 }
{
    numbers::cell_at(index, starts_from(part) + i as usize)
}

// The first block that ends past x, where none below `from` does.
fn seek(table: &[u8], index: &[u32], part: Part, from: u32, x: u32) -> u32
    requires header { header_in_range (table_of table.now) ≡ true }
    requires starts { Starts (table_of table.now) part index.now }
    requires from_bound { from ≤ blocks (table_of table.now) part }
    requires from_value { first (ends_past (table_of table.now) part x) from ≡ from }
    ensures { result ≡ first (ends_past (table_of table.now) part x) (blocks (table_of table.now) part) }
{
    let n = blocks_of(table, part);
    (from..n)
        .find(|&i| x < start_at(index, part, i + 1))
        .unwrap_or(n)
}

// A part's starts are laid behind what the index has already.
#[tactic(auto, using(crate::proofs::indexing::Laying::starts_laid))]
fn lay_starts(table: &[u8], index: &mut [u32], part: Part)
    requires header { header_in_range (table_of table.now) ≡ true }
    requires index_value { index.old ≡ laid (entry (table_of table.now)) (starts_from part) index_length }
    ensures { index.new ≡ laid (entry (table_of table.now)) (starts_from part + starts_room part) index_length }
{
    let n = blocks_of(table, part);
    let from = starts_from(part);
    let mut sum = 0;
    for i in 0..n {
        sum += block_size(table, part, i);
        numbers::put_cell(index, from + i as usize + 1, sum);
    }
}

// A part's owners are laid behind what the index has already, all starts among it.
#[tactic(auto, using(crate::proofs::indexing::Laying::owners_laid))]
fn lay_owners(table: &[u8], index: &mut [u32], part: Part)
    requires header { header_in_range (table_of table.now) ≡ true }
    requires has_owners { 0 < owners_room part }
    requires index_value { index.old ≡ laid (entry (table_of table.now)) (owners_from part) index_length }
    ensures { index.new ≡ laid (entry (table_of table.now)) (owners_from part + owners_room part) index_length }
{
    let n = lines_of(table, part);
    let from = owners_from(part);
    let mut block = 0;
    for x in 0..n {
        block = seek(table, index, part, block, x);
        numbers::put_cell(index, from + x as usize, block);
    }
}

// The first rows are laid behind what the index has already.
fn lay_rows(table: &[u8], index: &mut [u32])
    requires { index.old ≡ laid (entry (table_of table.now)) rows_from index_length }
    ensures { index.new ≡ laid (entry (table_of table.now)) index_length index_length }
{
    numbers::put_cell(index, super::DEFINITION_ROW, definition_row(table) as u32);
    numbers::put_cell(index, super::SLOT_ROW, slot_row(table) as u32);
    numbers::put_cell(index, super::NODE_ROW, node_row(table) as u32);
    numbers::put_cell(index, super::BRANCH_ROW, branch_row(table) as u32);
}

// The index of a table whose header is in range, into a slice of zeros.
#[tactic(auto, using(crate::proofs::indexing::Laying::index_none, crate::proofs::indexing::Laying::index_whole))]
pub fn fill_index(table: &[u8], index: &mut [u32])
    requires header { header_in_range (table_of table.now) ≡ true }
    requires index_value { index.old ≡ replicate index_length 0 }
    ensures { index.new ≡ index_of (table_of table.now) }
{
    lay_starts(table, index, Part::Slots);
    lay_starts(table, index, Part::Nodes);
    lay_starts(table, index, Part::Branches);
    lay_owners(table, index, Part::Nodes);
    lay_owners(table, index, Part::Branches);
    lay_rows(table, index);
}
