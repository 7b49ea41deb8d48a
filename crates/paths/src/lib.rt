// Grounds 6 and 7 over a loaded table, by the gaps of its flow: what a row reads has been written on every path to it, and some path leads to each node.
#![tactic(auto)]

ghost use Rattle.std.specs.Prelude.{◌≡◌};
ghost use Rattle.numbers.specs.Search.{every, first};
ghost use Rattle.table.specs.Table.{table_of};
ghost use Rattle.table.specs.Roles.{operand_count};
ghost use Rattle.flow.specs.Flow.{flow, argument_written, call_written, operand_written, row_written, reads_unwritten, unreachable};
ghost use Rattle.flow.specs.Gaps.{gaps_of};

use flow::{Flow, has_gap};
use table::field;

// The gap of the path itself.
const PATH_MARK: u32 = 16;

// Whether argument i of the call in a row, at node n, is surely written.
#[tactic(auto, unfolding(flow::specs::Flow::argument_written, flow::specs::Flow::may_lack))]
fn argument_written(flow: &Flow, row: usize, n: usize, i: u32) -> bool
    ensures { result ≡ argument_written flow.now row n i }
{
    let argument = flow.table().cell(row, field::ARGUMENTS + i as usize);
    !flow.has_gap(n, argument)
}

// Whether all arguments of the call in a row, at node n, are surely written.
fn arguments_written(flow: &Flow, row: usize, n: usize, count: u32) -> bool
    ensures { result ≡ every (argument_written flow.now row n) count }
{
    (0..count).all(|i| argument_written(flow, row, n, i))
}

// Whether what node n, which is in a row, reads is surely written: only a call reads, namely its arguments.
#[tactic(auto, unfolding(flow::specs::Flow::call_written))]
fn call_written(flow: &Flow, row: usize, n: usize) -> bool
    ensures { result ≡ call_written flow.now row n }
{
    let table = flow.table();
    let callee = table.cell(row, field::CALLEE);
    table.cell(row, field::NODE_KIND) != table::CALL
        || arguments_written(flow, row, n, table.parameters(callee))
}

// Whether operand k of the branch in a row, of node n, is surely written where it is read.
#[tactic(auto, unfolding(flow::specs::Flow::operand_written, flow::specs::Flow::may_lack))]
fn operand_written(flow: &Flow, row: usize, n: usize, k: u32) -> bool
    ensures { result ≡ operand_written flow.now row n k }
{
    let table = flow.table();
    !roles::is_read(roles::role_of(table, row, k))
        || !flow.has_gap(n, roles::operand_of(table, row, k))
}

// Whether all operands of the branch in a row, of node n, are surely written where they are read.
fn operands_written(flow: &Flow, row: usize, n: usize) -> bool
    ensures { result ≡ every (operand_written flow.now row n) operand_count }
{
    (0..table::OPERANDS).all(|k| operand_written(flow, row, n, k))
}

// Whether what a row reads is surely written.
#[tactic(auto, unfolding(flow::specs::Flow::row_written))]
fn row_written(flow: &Flow, row: usize) -> bool
    ensures { result ≡ row_written flow.now row }
{
    let table = flow.table();
    match table.cell(row, field::KIND) {
        5 => call_written(flow, row, table.node_in(row)),
        6 => operands_written(flow, row, table.node_at(row) as usize),
        _ => true,
    }
}

// The first of n rows that reads what may be unwritten; n where there is none.
pub fn first_reads_unwritten(flow: &Flow, n: usize) -> usize
    ensures { result ≡ first (reads_unwritten flow.now) n }
{
    (0..n).find(|row| !row_written(flow, *row)).unwrap_or(n)
}

// Ground 7 for one row: it is a node that no path leads to.
#[tactic(auto, unfolding(flow::specs::Flow::unreachable, flow::specs::Flow::may_lack))]
fn is_unreachable(table: &[u8], gaps: &[u32], row: usize) -> bool
    requires { gaps_of gaps.now ≡ flow (table_of table.now) }
    ensures { result ≡ unreachable (table_of table.now) row }
{
    table::cell(table, row, field::KIND) == 5
        && !has_gap(gaps, table::node_in(table, row), PATH_MARK)
}

// The first of n rows that is a node that no path leads to; n where there is none.
pub fn first_unreachable(table: &[u8], gaps: &[u32], n: usize) -> usize
    requires { gaps_of gaps.now ≡ flow (table_of table.now) }
    ensures { result ≡ first (unreachable (table_of table.now)) n }
{
    (0..n)
        .find(|row| is_unreachable(table, gaps, *row))
        .unwrap_or(n)
}
