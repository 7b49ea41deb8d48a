// What a table says of the node at which a thread stands, read with the thread's slots.
#![tactic(auto)]

ghost use Rattle.std.specs.Prelude.{◌≡◌, ◌+◌, ◌≤◌, ◌<◌};
ghost use Rattle.table.specs.Table.{definitions, slot_row};
ghost use Rattle.table.specs.Layout.{start, definition_of};
ghost use Rattle.table.specs.declared.Part.TheVariants.{Slots, Nodes};
ghost use Rattle.state.specs.State.{state_of, thread, slot_of};
ghost use Rattle.rules.specs.Program.{checked_sum, checked_difference, fitting, type_at, channel_slot, blank, branch_at, next_of, child_of, act_of, printed_guard, assigned, guard_holds, opposite};

use rules::{Act, Direction};
use table::{Part, Table, field};

// The definition of node n.
#[tactic(auto, unfolding(table::specs::Layout::blocks))]
pub fn definition_of(table: &Table, n: u32) -> u32
    ensures value { result ≡ definition_of table.now n }
    ensures upper_bound { result ≤ definitions table.now }
{
    table.owner(Part::Nodes, n as usize)
}

// Where the types of a definition's slots begin in the table.
pub fn types_from(table: &Table, d: u32) -> u32
    ensures value { result ≡ slot_row table.now + start table.now Slots d }
    ensures upper_bound { result ≤ 12713792 }
{
    table.slot_row() as u32 + table.start(Part::Slots, d)
}

// The type of slot k at node n.
#[tactic(auto, unfolding(rules::specs::Program::type_at, table::specs::Layout::blocks))]
pub fn type_at(table: &Table, n: u32, k: u32) -> u32
    ensures value { result ≡ type_at table.now n k }
    ensures upper_bound { result < 65536 }
{
    let d = definition_of(table, n);
    let place = table.start_within(Part::Slots, d) as usize + k as usize;
    table.cell(table.slot_row() + place, field::TYPE)
}

// Whether slot k of definition d is a channel slot.
#[tactic(auto, unfolding(rules::specs::Program::channel_slot))]
pub fn channel_slot(table: &Table, d: u32, k: u32) -> bool
    ensures { result ≡ channel_slot table.now d k }
{
    k < table.slots(d) && table.slot_type(d, k) != 0
}

// What slot k of definition d has while it is unwritten.
#[tactic(auto, unfolding(rules::specs::Program::blank))]
pub fn blank_of(table: &Table, d: u32, k: u32) -> u32
    ensures { result ≡ blank table.now d k }
{
    if channel_slot(table, d, k) {
        state::MINUS_ONE
    } else {
        0
    }
}

// The row of branch i of node n.
#[tactic(auto, unfolding(rules::specs::Program::branch_at))]
pub fn branch_at(table: &Table, n: u32, i: u32) -> usize
    ensures { result ≡ branch_at table.now n i }
{
    table.first_branch(n) + i as usize
}

// The node that number x of the definition of node n is.
#[tactic(auto, unfolding(table::specs::Layout::blocks))]
fn node_within(table: &Table, n: u32, x: u32) -> u32
    requires x_bound { x < 65536 }
    ensures { result ≡ start table.now Nodes (definition_of table.now n) + x }
{
    table.start_within(Part::Nodes, definition_of(table, n)) + x
}

// The node to which the branch in a row, of node n, leads on.
#[tactic(auto, unfolding(rules::specs::Program::next_of))]
pub fn next_of(table: &Table, n: u32, row: usize) -> u32
    ensures { result ≡ next_of table.now n row }
{
    node_within(table, n, table.cell(row, field::NEXT))
}

// The node at which the child begins that the branch in a row, of node n, spawns.
#[tactic(auto, unfolding(rules::specs::Program::child_of))]
pub fn child_of(table: &Table, n: u32, row: usize) -> u32
    ensures { result ≡ child_of table.now n row }
{
    node_within(table, n, table.cell(row, field::CHILD))
}

// What the branch in a row does.
#[tactic(auto, unfolding(rules::specs::Program::act_of))]
pub fn act_of(table: &Table, row: usize) -> Act
    ensures { result ≡ act_of table.now row }
{
    match table.cell(row, field::ACTION) {
        0 => Act::Tau,
        1 => Act::Meeting(Direction::Out),
        2 => Act::Meeting(Direction::In),
        3 => Act::New,
        4 => Act::Spawn,
        _ => Act::Assignment,
    }
}

// Slot k of thread t.
pub fn slot(state: &state::Words, t: u32, k: u32) -> u32
    ensures { result ≡ slot_of (thread (state_of state.now) t) k }
{
    state::thread_word(state, t as usize, state::FIRST_SLOT + k as usize)
}

// Whether the guard of the branch in a row, as the file has it, is true of thread t.
#[tactic(auto, unfolding(rules::specs::Program::printed_guard))]
pub fn printed_guard(table: &Table, row: usize, state: &state::Words, t: u32) -> bool
    ensures { result ≡ printed_guard table.now row (thread (state_of state.now) t) }
{
    let guard = table.cell(row, field::GUARD);
    // Most branches have none, and their operands are not read.
    if guard == 0 {
        true
    } else {
        let left = slot(state, t, table.cell(row, field::FIRST));
        let right = table.cell(row, field::SECOND);
        match guard {
            1 => left == numbers::widen(right),
            2 => numbers::below(left, numbers::widen(right)),
            3 => left == slot(state, t, right),
            _ => numbers::below(left, slot(state, t, right)),
        }
    }
}

// The sum of the numbers in two slots, if it fits into one.
#[tactic(auto, unfolding(rules::specs::Program::checked_sum))]
fn sum_of(x: u32, y: u32) -> Option<i32>
    ensures { result ≡ checked_sum x y }
{
    numbers::checked_add(numbers::signed(x), numbers::signed(y))
}

// The difference of the numbers in two slots, if it fits into one.
#[tactic(auto, unfolding(rules::specs::Program::checked_difference))]
fn difference_of(x: u32, y: u32) -> Option<i32>
    ensures { result ≡ checked_difference x y }
{
    numbers::checked_sub(numbers::signed(x), numbers::signed(y))
}

// What the assignment in a row comes to for thread t.
#[tactic(auto, unfolding(rules::specs::Program::assigned))]
pub fn assigned_value(table: &Table, row: usize, state: &state::Words, t: u32) -> Option<i32>
    ensures { result ≡ assigned table.now row (thread (state_of state.now) t) }
{
    let first = table.cell(row, field::B);
    let second = table.cell(row, field::C);
    match table.cell(row, field::ACTION) {
        5 => Some(numbers::signed(numbers::widen(first))),
        6 => sum_of(slot(state, t, first), slot(state, t, second)),
        _ => difference_of(slot(state, t, first), slot(state, t, second)),
    }
}

// Whether what the branch in a row assigns thread t, if anything, fits.
#[tactic(auto, unfolding(rules::specs::Program::fitting, numbers::specs::Signed::is_exact))]
fn is_fitting(table: &Table, row: usize, state: &state::Words, t: u32) -> bool
    ensures { result ≡ fitting (act_of table.now row) (assigned table.now row (thread (state_of state.now) t)) }
{
    match act_of(table, row) {
        Act::Tau | Act::Meeting(_) | Act::New | Act::Spawn => true,
        Act::Assignment => assigned_value(table, row, state, t).is_some(),
    }
}

// Whether the guard of the branch in a row counts as true of thread t: it is true, and what the branch assigns fits.
#[tactic(auto, unfolding(rules::specs::Program::guard_holds))]
pub fn guard_holds(table: &Table, row: usize, state: &state::Words, t: u32) -> bool
    ensures { result ≡ guard_holds table.now row (thread (state_of state.now) t) }
{
    printed_guard(table, row, state, t) && is_fitting(table, row, state, t)
}

// The side that answers a direction.
#[tactic(auto, unfolding(rules::specs::Program::opposite))]
pub fn opposite_of(d: Direction) -> Direction
    ensures { result ≡ opposite d }
{
    match d {
        Direction::Out => Direction::In,
        Direction::In => Direction::Out,
    }
}
