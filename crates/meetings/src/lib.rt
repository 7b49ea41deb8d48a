// What a meeting writes: the rows of the two threads that meet, and the row of a thread that the bench meets.
#![tactic(auto)]

ghost use Rattle.std.specs.Prelude.{◌≡◌, ◌≢◌};
ghost use Rattle.state.specs.State.{state_of, thread};
ghost use Rattle.rules.specs.Moves.{met_by, value_by, side_of, written};
ghost use Rattle.rules.specs.declared.Move.TheVariants.{Meets};
ghost use Rattle.thread_rows.specs.WrittenRows.{rewritten};
ghost use Rattle.meetings.specs.Sides.{Facing, passed};

use rules::{Act, Direction};
use table::{Table, field};

// The direction of an act.
#[tactic(auto, unfolding(rules::specs::Moves::side_of))]
fn side_of(act: Act) -> Direction
    ensures { result ≡ side_of act }
{
    match act {
        Act::Meeting(d) => d,
        Act::Tau | Act::New | Act::Spawn | Act::Assignment => Direction::Out,
    }
}

// What thread t gives at a meeting by its branch i.
#[tactic(auto, unfolding(rules::specs::Moves::value_by))]
pub fn value_by(table: &Table, state: &state::Words, t: u32, i: u32) -> u32
    ensures { result ≡ value_by table.now (thread (state_of state.now) t) i }
{
    let row = program::branch_at(table, state::stands_at(state, t), i);
    program::slot(state, t, table.cell(row, field::B))
}

// Thread t goes on after a meeting by its branch i with somebody who gives v: a receiver has v in its slot.
#[tactic(auto, unfolding(rules::specs::Moves::met_by, rules::specs::Moves::met))]
pub fn write_met(table: &Table, state: &mut state::Words, t: u32, i: u32, v: u32)
    ensures { state_of state.new ≡ rewritten (state_of state.old) t (λ row. met_by table.now row i v) }
{
    let node = state::stands_at(state, t);
    let row = program::branch_at(table, node, i);
    let next = program::next_of(table, node, row);
    let slot = table.cell(row, field::B);
    let side = side_of(program::act_of(table, row));
    thread_rows::resume(state, t, next);
    if let Direction::In = side {
        thread_rows::store(state, t, slot, v);
    }
}

// Threads t and u go on after the meeting of their branches i and j, each with what the other one gives.
pub fn write_meeting(table: &Table, state: &mut state::Words, t: u32, i: u32, u: u32, j: u32)
    requires { u ≢ t }
    ensures { state_of state.new ≡ written table.now (state_of state.old) t (Meets i u j) }
{
    let given = value_by(table, state, u, j);
    let gives = value_by(table, state, t, i);
    write_met(table, state, t, i, given);
    write_met(table, state, u, j, gives);
}

// Thread t goes on after the send in a row, and thread u after the receive in another, with what t gives in its slot.
#[inline(always)]
fn write_passed(
    table: &Table,
    state: &mut state::Words,
    t: u32,
    send: usize,
    u: u32,
    receive: usize,
)
    requires { u ≢ t }
    ensures { state_of state.new ≡ passed table.now (state_of state.old) t send u receive }
{
    let slot = table.cell(receive, field::B);
    let v = program::slot(state, t, table.cell(send, field::B));
    let next = program::next_of(table, state::stands_at(state, t), send);
    let after = program::next_of(table, state::stands_at(state, u), receive);
    thread_rows::resume(state, t, next);
    thread_rows::resume(state, u, after);
    thread_rows::store(state, u, slot, v);
}

// Threads t and u go on after the meeting of their branches i and j, by who of the two sends: fewer words are read and written than by `write_meeting`.
pub fn write_directed(table: &Table, state: &mut state::Words, t: u32, i: u32, u: u32, j: u32)
    requires distinct { u ≢ t }
    requires facing { Facing table.now (state_of state.old) t i u j }
    ensures { state_of state.new ≡ written table.now (state_of state.old) t (Meets i u j) }
{
    let own = program::branch_at(table, state::stands_at(state, t), i);
    let other = program::branch_at(table, state::stands_at(state, u), j);
    match side_of(program::act_of(table, own)) {
        Direction::Out => write_passed(table, state, t, own, u, other),
        Direction::In => write_passed(table, state, u, other, t, own),
    }
}
