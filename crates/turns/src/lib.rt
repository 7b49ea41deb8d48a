// A thread's turn: its move is decided and made, and the turn moves past it. A move that is made leaves the channel rows settled but for the counts of waiting
// holders, which a call settles at its end.
#![tactic(auto)]

ghost use Rattle.std.specs.Prelude.{◌≡◌, true, ◌≢◌, ◌<◌};
ghost use Rattle.state.specs.State.{max_threads, max_channels, state_of, thread, is_ready};
ghost use Rattle.rules.specs.Holding.{settled};
ghost use Rattle.rules.specs.Moves.{move, met_by_bench};
ghost use Rattle.rules.specs.Calls.{step_answer, reason_for, turn_by};
ghost use Rattle.rules.specs.declared.Move.TheVariants.{Ends, Calls, Creates, Spawns, Meets};
ghost use Rattle.rules_laws.specs.Granted.{Granted};
ghost use Rattle.rules_laws.specs.Soundness.{Sound};
ghost use Rattle.turns.specs.Counted.{Counted, weighed};
ghost use Rattle.turns.specs.Running.{Running, MoveMade, TurnTaken};
ghost use Rattle.turns.specs.Weights.{number_by, weighed_after};
ghost use Rattle.program.specs.HandedOn.{Carries};
ghost use Rattle.next_rows.specs.UsedBelow.{UsedBelow};
ghost use Rattle.turns.specs.Made.{ChildIn};
ghost use Rattle.turns.specs.TopRaised.{raised_by};
ghost use Rattle.turns.specs.Keeping.{CanMeet, AtPort};

use offers::Moment;
use rules::{Deed, Move, Reason, Refusal};
use std::ops::ControlFlow;
use table::{Table, field};

const CHANNELS: usize = state::CHANNELS as usize;

// What a turn came to, the move that was decided, and a number from which on no thread row is in use after it.
#[derive(Clone, Copy)]
pub struct Round {
    pub turn: ControlFlow<Reason>,
    pub decided: Move,
    pub top: u32,
}

// Thread t comes to its end.
fn make_end(table: &Table, state: &mut state::Words, t: u32)
    requires counted { Counted table.now (state_of state.old) }
    requires t_lt_max_threads { t < max_threads }
    ensures { MoveMade table.now (state_of state.old) t Ends (state_of state.new) }
{
    let noted = upkeep::note_held(table, state, t);
    thread_rows::write_free(state, t);
    upkeep::settle_one(table, state, t, &noted);
}

// Thread t, which is ready, makes the call at its node. Where it will hold what it holds, no count changes.
#[tactic(auto, using(crate::specs::Keeping::Laws::ready_below))]
fn make_call(table: &Table, state: &mut state::Words, t: u32)
    requires counted { Counted table.now (state_of state.old) }
    requires ready { is_ready (thread (state_of state.old) t) ≡ true }
    ensures { MoveMade table.now (state_of state.old) t Calls (state_of state.new) }
{
    let entry = call_rows::prepare_call(table, state, t);
    if entry.keeps {
        call_rows::enter_call(table, state, t, &entry.slots);
    } else {
        let noted = upkeep::note_held(table, state, t);
        call_rows::enter_call(table, state, t, &entry.slots);
        upkeep::settle_one(table, state, t, &noted);
    }
}

// Thread t makes channel c by its branch i.
fn make_channel(table: &Table, state: &mut state::Words, t: u32, i: u32, c: u32)
    requires counted { Counted table.now (state_of state.old) }
    requires t_lt_max_threads { t < max_threads }
    requires c_lt_max_channels { c < max_channels }
    ensures { MoveMade table.now (state_of state.old) t (Creates i c) (state_of state.new) }
{
    let noted = upkeep::note_held(table, state, t);
    acts::write_creation(table, state, t, i, c);
    upkeep::settle_new(table, state, t, c, &noted);
}

// Thread t makes the child u by its branch i.
fn make_child(table: &Table, state: &mut state::Words, t: u32, i: u32, u: u32)
    requires counted { Counted table.now (state_of state.old) }
    requires t_lt_max_threads { t < max_threads }
    requires u_lt_max_threads { u < max_threads }
    requires distinct { u ≢ t }
    ensures { MoveMade table.now (state_of state.old) t (Spawns i u) (state_of state.new) }
{
    let noted = upkeep::note_held(table, state, t);
    let child = upkeep::note_held(table, state, u);
    acts::write_spawn(table, state, t, i, u);
    upkeep::settle_two(table, state, t, u, &noted, &child);
}

// Whether a number is given at a meeting by branch i of a node.
#[tactic(auto, unfolding(crate::specs::Weights::number_by))]
fn gives_number(table: &Table, node: u32, i: u32) -> bool
    ensures { result ≡ number_by table.now node i }
{
    let row = program::branch_at(table, node, i);
    let value = table.cell(row, field::B);
    program::type_at(table, node, value) == 0
}

// Threads t and u meet by their branches i and j. Where a number is given, both hold what they held, and no count of holders changes.
fn make_meeting(table: &Table, state: &mut state::Words, t: u32, i: u32, u: u32, j: u32)
    requires counted { Counted table.now (state_of state.old) }
    requires can_meet { CanMeet table.now (state_of state.old) t i u j }
    ensures { MoveMade table.now (state_of state.old) t (Meets i u j) (state_of state.new) }
{
    if gives_number(table, state::stands_at(state, t), i) {
        meetings::write_directed(table, state, t, i, u, j);
    } else {
        let noted = upkeep::note_held(table, state, t);
        let partner = upkeep::note_held(table, state, u);
        meetings::write_meeting(table, state, t, i, u, j);
        upkeep::settle_two(table, state, t, u, &noted, &partner);
    }
}

// Thread t, which is ready, makes the move that was decided, with what is handed on with it; one that lacks a row changes nothing.
#[tactic(auto, using(crate::specs::Running::Laws::made_by, crate::specs::Keeping::Laws::child_aside, crate::specs::Keeping::Laws::ready_below))]
fn make_move(table: &Table, state: &mut state::Words, t: u32, m: Move, row: usize, v: u32)
    requires running { Running table.now (state_of state.old) }
    requires ready { is_ready (thread (state_of state.old) t) ≡ true }
    requires m_value { m ≡ move table.now (state_of state.old) t }
    requires carries { Carries table.now row v (state_of state.old) t m }
    ensures { MoveMade table.now (state_of state.old) t m (state_of state.new) }
{
    match m {
        Move::Ends => make_end(table, state, t),
        Move::Calls => make_call(table, state, t),
        Move::Waits => thread_rows::write_waiting(state, t),
        Move::Goes(_) => acts::write_gone(table, state, t, row, v),
        Move::Creates(i, c) => make_channel(table, state, t, i, c),
        Move::Spawns(i, u) => make_child(table, state, t, i, u),
        Move::Meets(i, u, j) => make_meeting(table, state, t, i, u, j),
        Move::LacksThread | Move::LacksChannel => {}
    }
}

// Thread u, which the bench meets through its branch j at a port and which is given v, goes on. A port carries numbers, so that u holds what it held; it no longer waits.
pub fn make_met(table: &Table, state: &mut state::Words, u: u32, j: u32, v: u32)
    requires granted { Granted table.now }
    requires sound { Sound table.now (state_of state.old) }
    requires at_port { AtPort table.now (state_of state.old) u j }
    ensures { state_of state.new ≡ met_by_bench table.now (state_of state.old) u j v }
{
    meetings::write_met(table, state, u, j, v);
    upkeep::shift_waiting(table, state, u, state::MINUS_ONE);
}

// What a step from a node is answered with, by its move.
#[tactic(auto, unfolding(rules::specs::Calls::step_answer))]
pub fn step_answer(node: u32, m: Move) -> Result<(u32, Deed), Refusal>
    ensures { result ≡ step_answer node m }
{
    match m {
        Move::Ends => Ok((node, Deed::Ended)),
        Move::Calls => Ok((node, Deed::Called)),
        Move::Waits => Ok((node, Deed::Waited)),
        Move::Goes(i) | Move::Creates(i, _) => Ok((node, Deed::Took(i))),
        Move::Spawns(i, u) | Move::Meets(i, u, _) => Ok((node, Deed::TookWith(i, u))),
        Move::LacksThread => Err(Refusal::ThreadRow),
        Move::LacksChannel => Err(Refusal::ChannelRow),
    }
}

// Why a run ends where the step of thread t is refused: a row is lacking, or there was no thread to step.
#[tactic(auto, unfolding(rules::specs::Calls::reason_for))]
fn reason_for(t: u32, ground: Refusal) -> Reason
    ensures { result ≡ reason_for t ground }
{
    match ground {
        Refusal::ThreadRow => Reason::LackedThread(t),
        Refusal::ChannelRow => Reason::LackedChannel(t),
        _ => Reason::NoneReady,
    }
}

// What a move of thread t comes to in a run, by the answer that its step would get; the node does not matter.
#[tactic(auto, unfolding(rules::specs::Calls::turn_by, rules::specs::Calls::turn_for))]
fn turn_by(t: u32, m: Move) -> ControlFlow<Reason>
    ensures { result ≡ turn_by t m }
{
    match step_answer(0, m) {
        Ok(_) => ControlFlow::Continue(()),
        Err(ground) => ControlFlow::Break(reason_for(t, ground)),
    }
}

// A number from which on no row is in use after move m, where none was from top on before it.
#[tactic(auto, unfolding(crate::specs::TopRaised::raised_by, crate::specs::Made::ChildIn))]
fn raised(m: Move, top: u32) -> u32
    requires { ChildIn m }
    ensures { result ≡ raised_by top m }
{
    match m {
        Move::Spawns(_, u) => top.max(u + 1),
        _ => top,
    }
}

// Thread t, which is ready, has its turn: it makes its move, and the turn moves past it.
#[tactic(auto, using(crate::specs::Running::Laws::running_apart, crate::specs::Made::Laws::move_child, crate::specs::Keeping::Laws::ready_below))]
pub fn turn_of(table: &Table, state: &mut state::Words, t: u32, top: u32) -> Round
    requires running { Running table.now (state_of state.old) }
    requires used_below { UsedBelow (state_of state.old) top }
    requires ready { is_ready (thread (state_of state.old) t) ≡ true }
    ensures { TurnTaken table.now (state_of state.old) t result (state_of state.new) }
{
    let moment = Moment::new(table, state, top);
    let d = decision::decide(&moment, t);
    let m = d.made;
    make_move(table, state, t, m, d.row, d.number);
    state::put_mark(state, state::TURN, next_rows::one_up(state::THREADS, t));
    Round {
        turn: turn_by(t, m),
        decided: m,
        top: raised(m, top),
    }
}

// Every channel gets its count of waiting holders from a list.
fn put_waiting(state: &mut state::Words, waiting: &[u8; CHANNELS])
    ensures { state_of state.new ≡ weighed waiting.now (state_of state.old) max_channels }
{
    for (c, n) in waiting.iter().enumerate() {
        state::put_channel(state, c, state::WAITERS, u32::from(*n));
    }
}

// The counts of waiting holders, which no move has kept, are settled.
#[tactic(auto, using(crate::specs::Counted::Laws::settled_last))]
pub fn settle_waiting(table: &Table, state: &mut state::Words)
    requires counted { Counted table.now (state_of state.old) }
    ensures { state_of state.new ≡ settled table.now (state_of state.old) }
{
    let counts = recount::tally(table, state);
    put_waiting(state, &counts.waiting);
}

// The counts of waiting holders are settled after one step in a settled state, by which thread t, which stood at the node, made move m: where t has begun to
// wait, and where its partner at a meeting by which a number is given no longer does. After every other move they are right.
#[tactic(auto, unfolding(crate::specs::Weights::weighed_after))]
pub fn settle_step(table: &Table, state: &mut state::Words, t: u32, node: u32, m: Move)
    ensures { state_of state.new ≡ weighed_after table.now node t m (state_of state.old) }
{
    match m {
        Move::Waits => upkeep::shift_waiting(table, state, t, 1),
        Move::Meets(i, partner, _) if gives_number(table, node, i) => {
            upkeep::shift_waiting(table, state, partner, state::MINUS_ONE);
        }
        _ => {}
    }
}
