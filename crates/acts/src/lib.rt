// What a branch that is taken without a partner writes: alone, with a new channel, with a child.
#![tactic(auto)]

ghost use Rattle.std.specs.Prelude.{◌≡◌, ◌<◌, Some};
ghost use Rattle.std.specs.Int.{w32};
ghost use Rattle.std.proofs.Common.{to_z};
ghost use Rattle.state.specs.State.{max_threads, max_channels, state_of};
ghost use Rattle.rules.specs.Moves.{gone, written};
ghost use Rattle.rules.specs.declared.Move.TheVariants.{Creates, Spawns};
ghost use Rattle.thread_rows.specs.WrittenRows.{rewritten};
ghost use Rattle.program.specs.HandedOn.{gone_storing};

use rules::Act;
use table::{Table, field};

// Thread t goes on after an act of its own: an assignment stores v in its slot.
#[tactic(auto, using(crate::proofs::Laws::assignment_stores), unfolding(rules::specs::Moves::gone))]
fn go_alone(state: &mut state::Words, t: u32, act: Act, node: u32, slot: u32, v: u32)
    ensures { state_of state.new ≡ rewritten (state_of state.old) t (λ row. gone act row node slot (Some (to_z w32 v))) }
{
    thread_rows::resume(state, t, node);
    if let Act::Assignment = act {
        thread_rows::store(state, t, slot, v);
    }
}

// Thread t goes on by its branch in a row, a tau or an assignment that comes to v.
#[tactic(auto, unfolding(program::specs::HandedOn::gone_storing))]
pub fn write_gone(table: &Table, state: &mut state::Words, t: u32, row: usize, v: u32)
    ensures { state_of state.new ≡ rewritten (state_of state.old) t (gone_storing table.now row v) }
{
    let node = state::stands_at(state, t);
    let next = program::next_of(table, node, row);
    let slot = table.cell(row, field::A);
    go_alone(state, t, program::act_of(table, row), next, slot, v);
}

// Thread t makes channel c by its branch i, and the channels' mark moves one past it.
pub fn write_creation(table: &Table, state: &mut state::Words, t: u32, i: u32, c: u32)
    requires { c < max_channels }
    ensures { state_of state.new ≡ written table.now (state_of state.old) t (Creates i c) }
{
    let node = state::stands_at(state, t);
    let row = program::branch_at(table, node, i);
    let next = program::next_of(table, node, row);
    let slot = table.cell(row, field::A);
    let kind = program::type_at(table, node, slot);
    thread_rows::resume(state, t, next);
    thread_rows::store(state, t, slot, c);
    state::put_channel(state, c as usize, state::TYPE, kind);
    state::put_mark(
        state,
        state::CHANNEL_MARK,
        next_rows::one_up(state::CHANNELS, c),
    );
}

// Thread t makes the child u by its branch i: both go on with the slots of t, and the threads' mark moves one past the child.
#[tactic(auto, unfolding(rules::specs::Moves::written, rules::specs::Moves::spawned_by, rules::specs::Moves::resumed))]
pub fn write_spawn(table: &Table, state: &mut state::Words, t: u32, i: u32, u: u32)
    requires t_lt_max_threads { t < max_threads }
    requires u_lt_max_threads { u < max_threads }
    ensures { state_of state.new ≡ written table.now (state_of state.old) t (Spawns i u) }
{
    let slots = thread_rows::copy_slots(state, t);
    let node = state::stands_at(state, t);
    let row = program::branch_at(table, node, i);
    let next = program::next_of(table, node, row);
    let child = program::child_of(table, node, row);
    thread_rows::resume(state, t, next);
    thread_rows::put_row(state, u, state::READY, child, &slots);
    state::put_mark(
        state,
        state::THREAD_MARK,
        next_rows::one_up(state::THREADS, u),
    );
}
