// Which slots a path may leave unwritten, over a loaded table. The gaps of a node are the bits of one number, so that a write clears a bit and two ways
// to a node meet in one `|`.
#![tactic(auto)]

ghost use Rattle.std.specs.Prelude.{◌≡◌, ◌+◌, ◌-◌, ◌<◌, replicate};
ghost use Rattle.table.specs.Table.{max_nodes, nodes};
ghost use Rattle.table.specs.Layout.{start, definition_of};
ghost use Rattle.table.specs.declared.Part.TheVariants.{Nodes};
ghost use Rattle.flow.specs.Flow.{slot_written, past_write, arrive, beginning, branch_followed, node_followed, flow_to, flow, has_gap};
ghost use Rattle.flow.specs.Gaps.{bits, gaps_of, gaps_from, seed};

use std::marker::Model;
use table::{Part, Table, field};

// The numbers that hold the gaps, one for each node.
pub const GAPS: usize = table::MAX_NODES as usize;

// Gaps 0 to 15 are slots, gap 16 is the path itself.
const GAP_COUNT: u32 = 17;

// All gaps, and the bit past them.
const ALL_GAPS: u32 = 131071;

const PAST_GAPS: u32 = 131072;

// Whether node n has gap k.
#[tactic(auto, using(crate::specs::Gaps::Laws::gap_within, crate::specs::Gaps::Laws::gap_beyond))]
pub fn has_gap(gaps: &[u32], n: usize, k: u32) -> bool
    ensures { result ≡ has_gap (gaps_of gaps.now) n k }
{
    k < GAP_COUNT && (numbers::cell_at(gaps, n) >> k) % 2 == 1
}

// The slot that the branch in a row writes, and 17 where it writes none.
#[tactic(auto, unfolding(crate::specs::Flow::slot_written))]
fn slot_written(table: &Table, row: usize) -> u32
    ensures { result ≡ slot_written table.now row }
{
    if roles::is_written(roles::role_of(table, row, 2)) {
        roles::operand_of(table, row, 2)
    } else if roles::is_written(roles::role_of(table, row, 3)) {
        roles::operand_of(table, row, 3)
    } else {
        GAP_COUNT
    }
}

// The gaps m without that of slot w.
#[tactic(auto, using(crate::specs::Gaps::Laws::bit_room, crate::specs::Gaps::Laws::past_within, crate::specs::Gaps::Laws::past_beyond))]
fn past_write(m: u32, w: u32) -> u32
    ensures { bits result ≡ past_write w (bits m) }
{
    if w < GAP_COUNT {
        m & (ALL_GAPS - (1 << w))
    } else {
        m
    }
}

// Node t is also reached with the gaps m.
#[tactic(auto, using(crate::specs::Gaps::Laws::arrives))]
fn arrive_at(gaps: &mut [u32], t: usize, m: u32)
    ensures { gaps_of gaps.new ≡ arrive (gaps_of gaps.old) t (bits m) }
{
    let had = numbers::cell_at(gaps, t);
    numbers::put_cell(gaps, t, had | m);
}

// Gap p and those above it.
#[tactic(auto, using(crate::specs::Gaps::Laws::bit_room, crate::specs::Gaps::Laws::from_within, crate::specs::Gaps::Laws::from_beyond))]
fn gaps_from(p: u32) -> u32
    ensures { result ≡ gaps_from p }
{
    if p < GAP_COUNT {
        PAST_GAPS - (1 << p)
    } else {
        0
    }
}

// The first node of the definition of node n.
fn first_node(table: &Table, n: u32) -> u32
    ensures { result ≡ start table.now Nodes (definition_of table.now n) }
{
    let d = table.owner(Part::Nodes, n as usize);
    table.start(Part::Nodes, d)
}

// The gaps that node n begins with.
#[tactic(auto, unfolding(crate::specs::Gaps::seed))]
fn seed_of(table: &Table, n: u32) -> u32
    ensures { result ≡ seed table.now n }
{
    let d = table.owner(Part::Nodes, n as usize);
    if n == table.start(Part::Nodes, d) {
        gaps_from(table.parameters(d))
    } else {
        0
    }
}

// All nodes get the gaps that they begin with; no path begins past the last node, and the numbers there stay 0.
fn begin(table: &Table, gaps: &mut [u32])
    requires gaps_value { gaps.old ≡ replicate max_nodes 0 }
    ensures { gaps_of gaps.new ≡ beginning table.now }
{
    let count = table.node_total();
    for n in 0..count {
        numbers::put_cell(gaps, n as usize, seed_of(table, n));
    }
}

// The branch in a row, of a node with the gaps m in a definition that starts at node f, leads on: to its next node, and a spawn to its child too.
#[tactic(auto, unfolding(crate::specs::Flow::branch_followed))]
fn follow_branch(table: &Table, f: u32, m: u32, row: usize, gaps: &mut [u32])
    ensures { gaps_of gaps.new ≡ branch_followed table.now f (bits m) row (gaps_of gaps.old) }
{
    let past = past_write(m, slot_written(table, row));
    let next = f as usize + table.cell(row, field::NEXT) as usize;
    arrive_at(gaps, next, past);
    if table.cell(row, field::ACTION) == table::SPAWN {
        let child = f as usize + table.cell(row, field::CHILD) as usize;
        arrive_at(gaps, child, past);
    }
}

// Each branch of node n, which has the gaps m, leads on.
fn follow_branches(table: &Table, n: u32, m: u32, gaps: &mut [u32])
    ensures { gaps_of gaps.new ≡ node_followed table.now n (bits m) (gaps_of gaps.old) }
{
    let f = first_node(table, n);
    let row = table.first_branch(n);
    let count = table.branch_count(n);
    for i in 0..count {
        follow_branch(table, f, m, row + i as usize, gaps);
    }
}

// The nodes below n have been followed, and node n is too.
fn follow_node(table: &Table, n: u32, gaps: &mut [u32])
    requires n_bound { n < nodes table.now }
    requires n_few { n < max_nodes }
    requires gaps_value { gaps_of gaps.old ≡ flow_to table.now n }
    ensures { gaps_of gaps.new ≡ flow_to table.now (n + 1) }
{
    let m = numbers::cell_at(gaps, n as usize);
    follow_branches(table, n, m, gaps);
}

// The gaps of every node.
pub fn find_gaps(table: &Table, gaps: &mut [u32])
    requires gaps_value { gaps.old ≡ replicate max_nodes 0 }
    ensures { gaps_of gaps.new ≡ flow table.now }
{
    begin(table, gaps);
    let count = table.node_total();
    for n in 0..count {
        follow_node(table, n, gaps);
    }
}

// A table with the gaps of its flow.
#[derive(Drop)]
pub struct Flow<'a, 'b> {
    table: Table<'a>,
    gaps: &'b [u32],
}

impl<'a, 'b> Model for Flow<'a, 'b> {
    ghost use Rattle.std.specs.Prelude.{◌≡◌};
    ghost use Rattle.table.specs.Table.{Table};
    ghost use Rattle.flow.specs.Flow.{flow};
    ghost use Rattle.flow.specs.Gaps.{gaps_of};

    ghost Value = { Table };

    ghost view = { λ f. f.table };

    ghost invariant = { λ f. gaps_of f.gaps.now ≡ flow f.table };
}

impl<'a, 'b> Flow<'a, 'b> {
    // The table with the gaps that were found for it.
    pub fn new(table: Table<'a>, gaps: &'b [u32]) -> Self
        requires { gaps_of gaps.now ≡ flow table }
        ensures { result ≡ table.entry }
    {
        Flow { table, gaps }
    }

    // The table alone.
    pub fn table(&self) -> &Table<'a>
        ensures { result.now ≡ self.now }
    {
        &self.table
    }

    // The table alone, given up by its flow.
    pub fn into_table(self) -> Table<'a>
        ensures { result ≡ self.entry }
    {
        self.table
    }

    // The gaps that were found for the table, for as long as they were lent.
    pub fn gaps(&self) -> &'b [u32]
        ensures { gaps_of result.now ≡ flow self.now }
    {
        self.gaps
    }

    // Whether node n has gap k.
    pub fn has_gap(&self, n: usize, k: u32) -> bool
        ensures { result ≡ has_gap (flow self.now) n k }
    {
        has_gap(self.gaps, n, k)
    }
}
