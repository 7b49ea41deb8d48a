// The state with which a file starts. Nothing of the old state is read.
#![tactic(auto)]

ghost use Rattle.std.specs.Prelude.{◌≡◌, [], ◌∷◌, ◌<◌};
ghost use Rattle.numbers.specs.Search.{tabulate};
ghost use Rattle.state.specs.State.{state_of, row_slots, with_thread, with_channel};
ghost use Rattle.rules.specs.Start.{entered, started};
ghost use Rattle.starts.specs.Opening.{port_held, freed, opened, marked, unstarted, port_at};

use table::{Part, Table};

// Every thread row is free.
#[tactic(auto, using(crate::specs::Opening::Laws::freeing))]
fn free_threads(state: &mut state::Words)
    ensures { state_of state.new ≡ freed (state_of state.old) }
{
    for t in 0..state::THREADS {
        thread_rows::write_free(state, t);
    }
}

// Channel c's row: its type, its count, and no waiting holder.
#[tactic(auto, using(crate::specs::Opening::Laws::row_put))]
fn put_channel_row(state: &mut state::Words, c: u32, ty: u32, n: u32)
    ensures { state_of state.new ≡ with_channel (state_of state.old) c (ty ∷ n ∷ 0 ∷ []) }
{
    state::put_channel(state, c as usize, state::TYPE, ty);
    state::put_channel(state, c as usize, state::COUNT, n);
    state::put_channel(state, c as usize, state::WAITERS, 0);
}

// Channel c where this many channels are ports: a port is of type 1 and held by the bench, any other channel is free.
#[tactic(auto, unfolding(crate::specs::Opening::port_held))]
fn open_channel(state: &mut state::Words, c: u32, ports: u32)
    ensures { state_of state.new ≡ with_channel (state_of state.old) c (port_held ports c) }
{
    if c < ports {
        put_channel_row(state, c, 1, 1);
    } else {
        put_channel_row(state, c, 0, 0);
    }
}

// Every channel is opened where this many channels are ports.
#[tactic(auto, using(crate::specs::Opening::Laws::opening))]
fn open_ports(state: &mut state::Words, ports: u32)
    ensures { state_of state.new ≡ opened (state_of state.old) ports }
{
    for c in 0..state::CHANNELS {
        open_channel(state, c, ports);
    }
}

// The marks: thread row 0 is taken, so are the ports' rows, and the turn is with thread 0.
#[tactic(auto, using(crate::specs::Opening::Laws::marks_put))]
fn put_marks(state: &mut state::Words, ports: u32)
    ensures { state_of state.new ≡ marked (state_of state.old) ports }
{
    state::put_mark(state, state::THREAD_MARK, 1);
    state::put_mark(state, state::CHANNEL_MARK, ports);
    state::put_mark(state, state::TURN, 0);
}

// The state before thread 0 has its row: the bench alone holds the ports.
#[tactic(auto, unfolding(crate::specs::Opening::unstarted, crate::specs::Opening::freed, crate::specs::Opening::opened, crate::specs::Opening::marked, state::specs::State::with_channels))]
fn write_unstarted(table: &Table, state: &mut state::Words)
    ensures { state_of state.new ≡ unstarted table.now }
{
    let ports = table.ports();
    free_threads(state);
    open_ports(state, ports);
    put_marks(state, ports);
}

// Slot k of thread 0 as a file starts: parameter k is port k, any other slot is blank.
#[tactic(auto, unfolding(crate::specs::Opening::port_at))]
fn port_slot(table: &Table, k: u32) -> u32
    ensures { result ≡ port_at table.now k }
{
    if k < table.parameters(0) {
        k
    } else {
        program::blank_of(table, 0, k)
    }
}

// All slots with which thread 0 starts.
fn port_slots(table: &Table) -> [u32; thread_rows::SLOTS]
    ensures { result ≡ tabulate row_slots (port_at table.now) }
{
    let mut slots = [0; thread_rows::SLOTS];
    for k in 0..state::SLOTS {
        slots[k as usize] = port_slot(table, k);
    }
    slots
}

// Thread 0 enters definition 0 with the ports.
#[tactic(auto, unfolding(rules::specs::Start::entered, crate::specs::Opening::port_at))]
fn write_start(table: &Table, state: &mut state::Words)
    ensures { state_of state.new ≡ with_thread (state_of state.old) 0 (entered table.now 0 (λ k. k)) }
{
    let slots = port_slots(table);
    let node = table.start(Part::Nodes, 0);
    thread_rows::put_row(state, 0, state::READY, node, &slots);
}

// The state with which the table's file starts.
#[tactic(auto, using(crate::specs::Opening::Laws::started_is))]
pub fn write_started(table: &Table, state: &mut state::Words)
    ensures { state_of state.new ≡ started table.now }
{
    write_unstarted(table, state);
    let noted = upkeep::note_held(table, state, 0);
    write_start(table, state);
    upkeep::settle_one(table, state, 0, &noted);
}
