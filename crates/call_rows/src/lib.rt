// The row of a thread that makes a call: the slots with which it enters the definition, and whether the thread holds what it held.
#![tactic(auto)]

ghost use Rattle.std.specs.Prelude.{◌≡◌, ◌<◌};
ghost use Rattle.numbers.specs.Search.{every, tabulate};
ghost use Rattle.state.specs.State.{state_of, thread, row_slots};
ghost use Rattle.rules.specs.Moves.{written};
ghost use Rattle.rules.specs.declared.Move.TheVariants.{Calls};
ghost use Rattle.call_rows.specs.CalledRow.{last_slot, call_by, kept_at, kept_by, call_slots, call_keeps};

use table::{Part, Table, field};

// From which slot on all are 0 as a definition with p parameters among n slots is entered.
#[tactic(auto, unfolding(crate::specs::CalledRow::last_slot))]
fn last_slot(p: u32, n: u32) -> u32
    ensures { result ≡ last_slot p n }
{
    if p <= n && n < state::SLOTS {
        n
    } else {
        state::SLOTS
    }
}

// Slot k as the call in a row enters a definition with p parameters among n slots, whose types stand from a row on.
#[tactic(auto, unfolding(crate::specs::CalledRow::call_by))]
fn call_slot(
    table: &Table,
    row: usize,
    from: u32,
    p: u32,
    n: u32,
    state: &state::Words,
    t: u32,
    k: u32,
) -> u32
    ensures { result ≡ call_by table.now row from p n (thread (state_of state.now) t) k }
{
    if k < p {
        let argument = table.cell(row, field::ARGUMENTS + k as usize);
        program::slot(state, t, argument)
    } else if k < n && table.cell(from as usize + k as usize, field::TYPE) != 0 {
        state::MINUS_ONE
    } else {
        0
    }
}

// Whether slot k, which the call gives v, gets what it has, if it is a channel slot.
#[tactic(auto, unfolding(crate::specs::CalledRow::kept_at))]
fn slot_keeps(
    table: &Table,
    from: u32,
    n: u32,
    state: &state::Words,
    t: u32,
    k: u32,
    v: u32,
) -> bool
    ensures { result ≡ kept_at table.now from n (thread (state_of state.now) t) k v }
{
    n <= k
        || table.cell(from as usize + k as usize, field::TYPE) == 0
        || v == program::slot(state, t, k)
}

// The slots with which a call enters a definition, and whether the thread holds by them what it held.
#[derive(Clone, Copy)]
pub struct Entry {
    pub slots: [u32; thread_rows::SLOTS],
    pub keeps: bool,
}

// All slots with which the call in a row enters a definition with p parameters among n slots are laid down, and whether every channel slot gets what it has.
fn lay_call(
    table: &Table,
    row: usize,
    from: u32,
    p: u32,
    n: u32,
    state: &state::Words,
    t: u32,
) -> Entry
    ensures slots { result.slots ≡ tabulate row_slots (call_by table.now row from p n (thread (state_of state.now) t)) }
    ensures keeps { result.keeps ≡ every (kept_by table.now row from p n (thread (state_of state.now) t)) row_slots }
{
    let last = last_slot(p, n);
    let mut slots = [0; thread_rows::SLOTS];
    let mut keeps = true;
    for k in 0..last {
        let v = call_slot(table, row, from, p, n, state, t, k);
        slots[k as usize] = v;
        keeps &= slot_keeps(table, from, n, state, t, k, v);
    }
    Entry { slots, keeps }
}

// All slots with which thread t makes the call at its node are laid down, before any is written. The thread keeps what it holds where the call is to its own
// definition and every channel slot gets what it has.
#[tactic(auto, using(crate::specs::CalledRow::Laws::keeps_ways))]
pub fn prepare_call(table: &Table, state: &state::Words, t: u32) -> Entry
    ensures slots { result.slots ≡ call_slots table.now (thread (state_of state.now) t) }
    ensures keeps { result.keeps ≡ call_keeps table.now (thread (state_of state.now) t) }
{
    let node = state::stands_at(state, t);
    let row = table.node_row() + node as usize;
    let d = table.cell(row, field::CALLEE);
    let from = program::types_from(table, d);
    let p = table.parameters(d);
    let n = table.slots(d);
    let laid = lay_call(table, row, from, p, n, state, t);
    let entry = table.start(Part::Nodes, d);
    Entry {
        slots: laid.slots,
        keeps: program::definition_of(table, node) == d
            && program::definition_of(table, entry) == d
            && laid.keeps,
    }
}

// Thread t makes the call at its node with the slots that were laid down for it.
#[tactic(auto, unfolding(rules::specs::Moves::written, rules::specs::Start::entered, crate::specs::CalledRow::call_slots, crate::specs::CalledRow::call_at))]
pub fn enter_call(
    table: &Table,
    state: &mut state::Words,
    t: u32,
    slots: &[u32; thread_rows::SLOTS],
)
    requires { slots.now ≡ call_slots table.now (thread (state_of state.old) t) }
    ensures { state_of state.new ≡ written table.now (state_of state.old) t Calls }
{
    let row = table.node_row() + state::stands_at(state, t) as usize;
    let d = table.cell(row, field::CALLEE);
    let node = table.start(Part::Nodes, d);
    thread_rows::put_row(state, t, state::READY, node, slots);
}
