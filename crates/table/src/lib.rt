// Reading a loaded table: its numbers, the rows of each kind of line, how its blocks lie, and all of that by the table's index. Rows and numbers are
// counted from 0.
#![tactic(auto)]

ghost use Rattle.std.specs.Prelude.{◌≡◌, ◌+◌, ◌-◌, ◌≤◌, ◌<◌};
ghost use Rattle.numbers.specs.Rows.{at};
ghost use Rattle.table.specs.Table.{table_of, definition_row, slot_row, node_row, branch_row, line_total, parameters, slot_count, node_count, nodes, ports};
ghost use Rattle.table.specs.Layout.{blocks, lines, branch_count, size, start, owner, definition_of, node_of, slot_type};
ghost use Rattle.table.specs.Index.{starts_from, starts_room, owners_from, owners_room, Indexed};
ghost use Rattle.table.specs.declared.Part.TheVariants.{Branches};
ghost use Rattle.table.specs.Form.Laws.{Counts};
ghost use Rattle.table.specs.Form.{within};

use std::marker::Model;

pub mod field;
pub mod indexing;

// A table is 865 rows of 12 numbers, each of two bytes, and is held in 20,760 bytes.
pub const MAX_ROWS: usize = 865;

pub const ROW_NUMBERS: usize = 12;

pub const ROW_BYTES: usize = ROW_NUMBERS * 2;

pub const BYTES: usize = 20760;

// The header's counts are at most these.
pub const MAX_TYPES: u32 = 16;

pub const MAX_DEFINITIONS: u32 = 16;

pub const MAX_SLOTS: u32 = 256;

pub const MAX_NODES: u32 = 192;

pub const MAX_BRANCHES: u32 = 384;

pub const MAX_PORTS: u32 = 8;

// A definition's parameters, slots and nodes and a choice's branches are at most these.
pub const MAX_PARAMETERS: u32 = 8;

pub const MAX_OWN_SLOTS: u32 = 16;

pub const MAX_OWN_NODES: u32 = 192;

pub const MAX_OWN_BRANCHES: u32 = 8;

// The kinds of a node that are asked for: a choice and a call; and the action that is a spawn.
pub const CHOICE: u32 = 1;

pub const CALL: u32 = 2;

pub const SPAWN: u32 = 4;

// The operands of a branch: two of its guard, then three of its action.
pub const OPERANDS: u32 = 5;

// The words of an index, and the places in it of the first row of each kind of line.
pub const INDEX: usize = 807;

pub const DEFINITION_ROW: usize = 803;

pub const SLOT_ROW: usize = 804;

pub const NODE_ROW: usize = 805;

pub const BRANCH_ROW: usize = 806;

// The lines that come in blocks: the slots and the nodes of each definition, the branches of each choice.
#[derive(Clone, Copy)]
pub enum Part {
    Slots,
    Nodes,
    Branches,
}

// What an operand of a branch is.
#[derive(Clone, Copy)]
pub enum Role {
    Unused,
    Constant,
    ReadNumber,
    ReadChannel,
    ReadCarried,
    WriteNumber,
    WriteChannel,
    WriteCarried,
}

// Number k of a row; 0 outside the table.
#[tactic(auto, using(crate::proofs::Cells::cells))]
pub fn cell(table: &[u8], row: usize, k: usize) -> u32
    ensures value { result ≡ at (table_of table.now) row k }
    ensures upper_bound { result < 65536 }
{
    if row < MAX_ROWS && k < ROW_NUMBERS {
        numbers::short_at(table, row * ROW_NUMBERS + k)
    } else {
        0
    }
}

// The row of the first definition: it follows the header and the types.
pub fn definition_row(table: &[u8]) -> usize
    ensures value { result ≡ definition_row (table_of table.now) }
    ensures upper_bound { result ≤ 65536 }
{
    1 + cell(table, 0, field::TYPES) as usize
}

// The row of the first slot.
pub fn slot_row(table: &[u8]) -> usize
    ensures value { result ≡ slot_row (table_of table.now) }
    ensures upper_bound { result ≤ 131072 }
{
    definition_row(table) + cell(table, 0, field::DEFINITIONS) as usize
}

// The row of the first node.
pub fn node_row(table: &[u8]) -> usize
    ensures value { result ≡ node_row (table_of table.now) }
    ensures upper_bound { result ≤ 196608 }
{
    slot_row(table) + cell(table, 0, field::SLOTS) as usize
}

// The row of the first branch.
pub fn branch_row(table: &[u8]) -> usize
    ensures value { result ≡ branch_row (table_of table.now) }
    ensures upper_bound { result ≤ 262144 }
{
    node_row(table) + cell(table, 0, field::NODES) as usize
}

// The number of lines that the header promises.
pub fn line_total(table: &[u8]) -> usize
    ensures { result ≡ line_total (table_of table.now) }
{
    branch_row(table) + cell(table, 0, field::BRANCHES) as usize
}

// The number of slots of definition d.
pub fn slots_of(table: &[u8], d: u32) -> u32
    ensures value { result ≡ slot_count (table_of table.now) d }
    ensures upper_bound { result < 65536 }
{
    cell(table, definition_row(table) + d as usize, field::OWN_SLOTS)
}

// The number of nodes of definition d.
pub fn nodes_of(table: &[u8], d: u32) -> u32
    ensures value { result ≡ node_count (table_of table.now) d }
    ensures upper_bound { result < 65536 }
{
    cell(table, definition_row(table) + d as usize, field::OWN_NODES)
}

// How many blocks a part has.
#[tactic(auto, unfolding(crate::specs::Layout::blocks))]
pub fn blocks_of(table: &[u8], part: Part) -> u32
    ensures value { result ≡ blocks (table_of table.now) part }
    ensures upper_bound { result < 65536 }
{
    match part {
        Part::Slots | Part::Nodes => cell(table, 0, field::DEFINITIONS),
        Part::Branches => cell(table, 0, field::NODES),
    }
}

// How many lines the header gives to a part.
#[tactic(auto, unfolding(crate::specs::Layout::lines))]
pub fn lines_of(table: &[u8], part: Part) -> u32
    ensures value { result ≡ lines (table_of table.now) part }
    ensures upper_bound { result < 65536 }
{
    match part {
        Part::Slots => cell(table, 0, field::SLOTS),
        Part::Nodes => cell(table, 0, field::NODES),
        Part::Branches => cell(table, 0, field::BRANCHES),
    }
}

// How many branches a node has: a choice says it, and other nodes have none.
#[tactic(auto, unfolding(crate::specs::Layout::branch_count))]
pub fn branch_count(table: &[u8], node: u32) -> u32
    ensures value { result ≡ branch_count (table_of table.now) node }
    ensures upper_bound { result < 65536 }
{
    let row = node_row(table) + node as usize;
    if cell(table, row, field::NODE_KIND) == CHOICE {
        cell(table, row, field::OWN_BRANCHES)
    } else {
        0
    }
}

// The node in a row, counted over the whole file; 0 for the rows before the first node.
pub fn node_in(table: &[u8], row: usize) -> usize
    ensures { result ≡ row - node_row (table_of table.now) }
{
    row.saturating_sub(node_row(table))
}

// The branch in a row, counted over the whole file; 0 for the rows before the first branch.
pub fn branch_in(table: &[u8], row: usize) -> usize
    ensures { result ≡ row - branch_row (table_of table.now) }
{
    row.saturating_sub(branch_row(table))
}

// How many lines block i of a part has.
#[tactic(auto, unfolding(crate::specs::Layout::size))]
pub fn block_size(table: &[u8], part: Part, i: u32) -> u32
    ensures value { result ≡ size (table_of table.now) part i }
    ensures upper_bound { result < 65536 }
{
    match part {
        Part::Slots => slots_of(table, i),
        Part::Nodes => nodes_of(table, i),
        Part::Branches => branch_count(table, i),
    }
}

// Whether a number is in its range.
#[tactic(auto, unfolding(crate::specs::Form::within))]
pub fn is_within(least: u32, most: u32, v: u32) -> bool
    ensures { result ≡ within least most v }
{
    (least..=most).contains(&v)
}

// The place in an index where the starts of a part begin.
pub fn starts_from(part: Part) -> usize
    ensures value { result ≡ starts_from part }
    ensures upper_bound { result ≤ 34 }
{
    match part {
        Part::Slots => 0,
        Part::Nodes => 17,
        Part::Branches => 34,
    }
}

// The place in an index where the owners of a part begin.
pub fn owners_from(part: Part) -> usize
    ensures value { result ≡ owners_from part }
    ensures upper_bound { result ≤ 419 }
{
    match part {
        Part::Slots | Part::Nodes => 227,
        Part::Branches => 419,
    }
}

// How many places an index has for the starts of a part.
fn starts_room(part: Part) -> u32
    ensures { result ≡ starts_room part }
{
    match part {
        Part::Slots | Part::Nodes => MAX_DEFINITIONS + 1,
        Part::Branches => MAX_NODES + 1,
    }
}

// How many places an index has for the owners of a part.
fn owners_room(part: Part) -> usize
    ensures value { result ≡ owners_room part }
    ensures upper_bound { result ≤ 384 }
{
    match part {
        Part::Slots => 0,
        Part::Nodes => MAX_NODES as usize,
        Part::Branches => MAX_BRANCHES as usize,
    }
}

// A table with the index that was filled for it, so that a look-up is one read and the table's length is known.
#[derive(Drop)]
pub struct Table<'a> {
    bytes: &'a [u8],
    index: &'a [u32],
}

impl<'a> Model for Table<'a> {
    ghost use Rattle.table.specs.Table.{Table, table_of};
    ghost use Rattle.table.specs.Index.{Held};

    ghost Value = { Table };

    ghost view = { λ t. table_of t.bytes.now };

    ghost invariant = { λ t. Held t.bytes.now t.index.now };
}

impl<'a> Table<'a> {
    // The table in a buffer, by its index.
    pub fn new(bytes: &'a [u8], index: &'a [u32]) -> Self
        requires { Indexed (table_of bytes.now) index.now }
        ensures { result ≡ table_of bytes.now }
    {
        Table { bytes, index }
    }

    // The bytes of the table.
    pub fn bytes(&self) -> &[u8]
        ensures { table_of result.now ≡ self.now }
    {
        self.bytes
    }

    // The index of the table, for as long as it was lent.
    pub fn index(&self) -> &'a [u32]
        ensures { Indexed self.now result.now }
    {
        self.index
    }

    // The number of nodes in all. That the header's counts are in range is known of each value of this type.
    pub fn node_total(&self) -> u32
        ensures value { result ≡ nodes self.now }
        ensures counts { Counts self.now }
    {
        cell(self.bytes, 0, field::NODES)
    }

    // The number of ports.
    pub fn ports(&self) -> u32
        ensures value { result ≡ ports self.now }
        ensures upper_bound { result < 65536 }
    {
        self.cell(0, field::PORTS)
    }

    // The number of nodes of definition d.
    pub fn nodes(&self, d: u32) -> u32
        ensures value { result ≡ node_count self.now d }
        ensures upper_bound { result < 65536 }
    {
        self.cell(self.definition_row() + d as usize, field::OWN_NODES)
    }

    // Where block i of a part starts; 0 past the end of the last block.
    #[tactic(auto, using(crate::proofs::Places::starts_read))]
    pub fn start(&self, part: Part, i: u32) -> u32
        ensures value { result ≡ start self.now part i }
        ensures upper_bound { result ≤ 12582720 }
    {
        if i < starts_room(part) {
            self.index[starts_from(part) + i as usize]
        } else {
            0
        }
    }

    // Where block i of a part starts, for a block that is there or one past the last.
    #[tactic(auto, using(crate::proofs::Places::starts_read_within))]
    pub fn start_within(&self, part: Part, i: u32) -> u32
        requires i_bound { i ≤ blocks self.now part }
        ensures value { result ≡ start self.now part i }
        ensures upper_bound { result ≤ 12582720 }
    {
        let place = starts_from(part) + i as usize;
        self.index[place]
    }

    // The block that x stands in; 0 past the part's lines.
    #[tactic(auto, using(crate::proofs::Places::owners_read))]
    pub fn owner(&self, part: Part, x: usize) -> u32
        requires has_owners { 0 < owners_room part }
        ensures value { result ≡ owner self.now part x }
        ensures upper_bound { result ≤ blocks self.now part }
    {
        if x < owners_room(part) {
            self.index[owners_from(part) + x]
        } else {
            0
        }
    }

    // The row of the first definition.
    #[tactic(auto, using(crate::proofs::Places::first_rows))]
    pub fn definition_row(&self) -> usize
        ensures value { result ≡ definition_row self.now }
        ensures upper_bound { result ≤ 17 }
    {
        self.index[DEFINITION_ROW] as usize
    }

    // The row of the first slot.
    #[tactic(auto, using(crate::proofs::Places::first_rows))]
    pub fn slot_row(&self) -> usize
        ensures value { result ≡ slot_row self.now }
        ensures upper_bound { result ≤ 33 }
    {
        self.index[SLOT_ROW] as usize
    }

    // The row of the first node.
    #[tactic(auto, using(crate::proofs::Places::first_rows))]
    pub fn node_row(&self) -> usize
        ensures value { result ≡ node_row self.now }
        ensures upper_bound { result ≤ 289 }
    {
        self.index[NODE_ROW] as usize
    }

    // The row of the first branch.
    #[tactic(auto, using(crate::proofs::Places::first_rows))]
    pub fn branch_row(&self) -> usize
        ensures value { result ≡ branch_row self.now }
        ensures upper_bound { result ≤ 481 }
    {
        self.index[BRANCH_ROW] as usize
    }

    // The row of the first branch of a node.
    pub fn first_branch(&self, node: u32) -> usize
        ensures value { result ≡ branch_row self.now + start self.now Branches node }
        ensures upper_bound { result ≤ 12583201 }
    {
        self.branch_row() + self.start(Part::Branches, node) as usize
    }

    // Number k of a row; 0 outside the table.
    #[tactic(auto, using(crate::proofs::Cells::cells))]
    pub fn cell(&self, row: usize, k: usize) -> u32
        ensures value { result ≡ at self.now row k }
        ensures upper_bound { result < 65536 }
    {
        if row < MAX_ROWS && k < ROW_NUMBERS {
            let place = (row * ROW_NUMBERS + k) * 2;
            numbers::pair(self.bytes[place], self.bytes[place + 1])
        } else {
            0
        }
    }

    // The number of parameters of definition d.
    pub fn parameters(&self, d: u32) -> u32
        ensures value { result ≡ parameters self.now d }
        ensures upper_bound { result < 65536 }
    {
        self.cell(self.definition_row() + d as usize, field::PARAMETERS)
    }

    // The number of slots of definition d.
    pub fn slots(&self, d: u32) -> u32
        ensures value { result ≡ slot_count self.now d }
        ensures upper_bound { result < 65536 }
    {
        self.cell(self.definition_row() + d as usize, field::OWN_SLOTS)
    }

    // How many branches a node has.
    #[tactic(auto, unfolding(crate::specs::Layout::branch_count))]
    pub fn branch_count(&self, node: u32) -> u32
        ensures value { result ≡ branch_count self.now node }
        ensures upper_bound { result < 65536 }
    {
        let row = self.node_row() + node as usize;
        if self.cell(row, field::NODE_KIND) == CHOICE {
            self.cell(row, field::OWN_BRANCHES)
        } else {
            0
        }
    }

    // The type of slot k of definition d.
    #[tactic(auto, unfolding(crate::specs::Layout::slot_type))]
    pub fn slot_type(&self, d: u32, k: u32) -> u32
        ensures value { result ≡ slot_type self.now d k }
        ensures upper_bound { result < 65536 }
    {
        let place = self.start(Part::Slots, d) as usize + k as usize;
        self.cell(self.slot_row() + place, field::TYPE)
    }

    // The node in a row, counted over the whole file; 0 for the rows before the first node.
    pub fn node_in(&self, row: usize) -> usize
        ensures { result ≡ row - node_row self.now }
    {
        row.saturating_sub(self.node_row())
    }

    // The branch in a row, counted over the whole file; 0 for the rows before the first branch.
    pub fn branch_in(&self, row: usize) -> usize
        ensures { result ≡ row - branch_row self.now }
    {
        row.saturating_sub(self.branch_row())
    }

    // The definition of the node in a row.
    #[tactic(auto, unfolding(crate::specs::Layout::definition_of))]
    pub fn definition_at(&self, row: usize) -> u32
        ensures { result ≡ definition_of self.now (row - node_row self.now) }
    {
        self.owner(Part::Nodes, self.node_in(row))
    }

    // The node of the branch in a row.
    #[tactic(auto, unfolding(crate::specs::Layout::node_of))]
    pub fn node_at(&self, row: usize) -> u32
        ensures { result ≡ node_of self.now (row - branch_row self.now) }
    {
        self.owner(Part::Branches, self.branch_in(row))
    }
}
