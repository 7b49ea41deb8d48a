// The row of a thread, written in part or as a whole; of a thread that has no row nothing is written. Whoever calls these functions settles the channel rows.
#![tactic(auto)]

ghost use Rattle.std.specs.Prelude.{◌≡◌, ◌∷◌, ◌<◌};
ghost use Rattle.state.specs.State.{max_threads, state_of, thread, slots_of, with_thread};
ghost use Rattle.rules.specs.Start.{free_row};
ghost use Rattle.rules.specs.Moves.{resumed, waiting_row, stored};
ghost use Rattle.thread_rows.specs.WrittenRows.{rewritten, reslotted};

// The slots of a row.
pub const SLOTS: usize = state::SLOTS as usize;

// Thread t gets a status and a node; its slots stay.
#[tactic(auto, using(crate::specs::WrittenRows::Laws::head_written))]
fn put_head(state: &mut state::Words, t: u32, status: u32, node: u32)
    ensures { state_of state.new ≡ rewritten (state_of state.old) t (λ row. status ∷ node ∷ slots_of row) }
{
    state::put_thread(state, t as usize, state::STATUS, status);
    state::put_thread(state, t as usize, state::NODE, node);
}

// Slot k of thread t gets v.
#[tactic(auto, unfolding(rules::specs::Moves::stored))]
pub fn store(state: &mut state::Words, t: u32, k: u32, v: u32)
    ensures { state_of state.new ≡ rewritten (state_of state.old) t (λ row. stored row k v) }
{
    state::put_thread(state, t as usize, state::FIRST_SLOT + k as usize, v);
}

// Thread t goes on, ready, at a node.
#[tactic(auto, unfolding(rules::specs::Moves::resumed))]
pub fn resume(state: &mut state::Words, t: u32, node: u32)
    ensures { state_of state.new ≡ rewritten (state_of state.old) t (λ row. resumed row node) }
{
    put_head(state, t, state::READY, node);
}

// Thread t waits where it stands.
#[tactic(auto, unfolding(rules::specs::Moves::waiting_row))]
pub fn write_waiting(state: &mut state::Words, t: u32)
    ensures { state_of state.new ≡ rewritten (state_of state.old) t waiting_row }
{
    let node = state::stands_at(state, t);
    put_head(state, t, state::WAITING, node);
}

// Thread t gets these slots; its status and its node stay.
fn put_slots(state: &mut state::Words, t: u32, slots: &[u32; SLOTS])
    ensures { state_of state.new ≡ rewritten (state_of state.old) t (λ row. reslotted row slots.now) }
{
    for k in 0..state::SLOTS {
        store(state, t, k, slots[k as usize]);
    }
}

// Thread t gets a whole row: a status, a node and sixteen slots.
#[tactic(auto, using(crate::specs::WrittenRows::Laws::row_written_lem))]
pub fn put_row(state: &mut state::Words, t: u32, status: u32, node: u32, slots: &[u32; SLOTS])
    ensures { state_of state.new ≡ with_thread (state_of state.old) t (status ∷ node ∷ slots.now) }
{
    put_head(state, t, status, node);
    put_slots(state, t, slots);
}

// Thread t's row is free.
pub fn write_free(state: &mut state::Words, t: u32)
    ensures { state_of state.new ≡ with_thread (state_of state.old) t free_row }
{
    put_row(state, t, state::FREE, 0, &[0; SLOTS]);
}

// The slots of thread t.
pub fn copy_slots(state: &state::Words, t: u32) -> [u32; SLOTS]
    requires { t < max_threads }
    ensures { result ≡ slots_of (thread (state_of state.now) t) }
{
    let mut slots = [0; SLOTS];
    for k in 0..state::SLOTS {
        slots[k as usize] = program::slot(state, t, k);
    }
    slots
}
