// The calls on a state that has been admitted: step, give, take and run, with the grounds of their own.
#![tactic(auto)]

ghost use Rattle.std.specs.Prelude.{◌≡◌, true, ◌<◌};
ghost use Rattle.state.specs.State.{max_threads, state_of, thread, is_ready};
ghost use Rattle.rules_laws.specs.Granted.{Granted};
ghost use Rattle.rules_laws.specs.Soundness.{Sound};
ghost use Rattle.rules.specs.Calls.{afterwards, can_step, step_on, give_on, take_on, run_on};
ghost use Rattle.calls.specs.Course.{TurnsOf};

use rules::{Deed, Direction, Move, Reason, Refusal};
use std::ops::ControlFlow;
use table::Table;

// Ground 11: whether thread t is there and ready.
#[tactic(auto, unfolding(rules::specs::Calls::can_step))]
fn can_step(state: &state::Words, t: u32) -> bool
    ensures { result ≡ can_step (state_of state.now) t }
{
    t < state::THREADS && state::status(state, t) == state::READY
}

// How many turns went, why they ended, and the move of the last.
#[derive(Clone, Copy)]
struct Turns {
    went: u32,
    reason: Reason,
    last: Move,
}

// At most n turns, the first of them thread t's, which is ready; 64 where nobody is. The counts of waiting holders are left to be settled.
fn take_turns(table: &Table, state: &mut state::Words, t: u32, n: u16) -> Turns
    requires granted { Granted table.now }
    requires sound { Sound table.now (state_of state.old) }
    requires ready { t < max_threads → is_ready (thread (state_of state.old) t) ≡ true }
    ensures { TurnsOf table.now n (state_of state.old) t result.went result.reason result.last (state_of state.new) }
{
    let mut top = next_rows::rows_used(state);
    let mut next = t;
    let mut last = Move::Ends;
    for i in 0..n {
        if state::THREADS <= next {
            return Turns {
                went: i as u32,
                reason: Reason::NoneReady,
                last,
            };
        }
        let round = turns::turn_of(table, state, next, top);
        top = round.top;
        last = round.decided;
        if let ControlFlow::Break(reason) = round.turn {
            return Turns {
                went: i as u32,
                reason,
                last,
            };
        }
        next = next_rows::next_ready(state, top);
    }
    Turns {
        went: n as u32,
        reason: Reason::AllDone,
        last,
    }
}

// A step of thread t: one turn, after which the turn is whose it was.
#[tactic(auto, using(crate::proofs::Laws::step_refused, crate::proofs::Laws::step_is_ready))]
pub fn step(table: &Table, state: &mut state::Words, t: u32) -> Result<(u32, Deed), Refusal>
    requires granted { Granted table.now }
    requires sound { Sound table.now (state_of state.old) }
    ensures { afterwards result (state_of state.new) ≡ step_on table.now (state_of state.old) t }
{
    if !can_step(state, t) {
        return Err(Refusal::Thread);
    }
    let node = state::stands_at(state, t);
    let turn = state::mark(state, state::TURN);
    let turns = take_turns(table, state, t, 1);
    state::put_mark(state, state::TURN, turn);
    let m = turns.last;
    turns::settle_step(table, state, t, node, m);
    turns::step_answer(node, m)
}

// The number of pattern v is given on port p.
#[tactic(auto, using(crate::proofs::Laws::give_refused, crate::proofs::Laws::give_nobody, turns::specs::Keeping::Laws::at_port))]
pub fn give(table: &Table, state: &mut state::Words, p: u32, v: u32) -> Result<Option<u32>, Refusal>
    requires granted { Granted table.now }
    requires sound { Sound table.now (state_of state.old) }
    ensures { afterwards result (state_of state.new) ≡ give_on table.now (state_of state.old) p v }
{
    if table.ports() <= p {
        return Err(Refusal::Port);
    }
    match offers::find_at_port(table, state, Direction::In, p) {
        None => Ok(None),
        Some((u, j)) => {
            turns::make_met(table, state, u, j, v);
            Ok(Some(u))
        }
    }
}

// A number is taken from port p.
pub fn take(table: &Table, state: &mut state::Words, p: u32) -> Result<Option<(u32, u32)>, Refusal>
    requires granted { Granted table.now }
    requires sound { Sound table.now (state_of state.old) }
    ensures { afterwards result (state_of state.new) ≡ take_on table.now (state_of state.old) p }
{
    if table.ports() <= p {
        return Err(Refusal::Port);
    }
    match offers::find_at_port(table, state, Direction::Out, p) {
        None => Ok(None),
        Some((u, j)) => {
            let v = meetings::value_by(table, state, u, j);
            turns::make_met(table, state, u, j, 0);
            Ok(Some((u, v)))
        }
    }
}

// At most n steps.
#[tactic(auto, using(next_rows::specs::UsedBelow::used_all, turns::specs::Made::Laws::next_is_ready))]
pub fn run(table: &Table, state: &mut state::Words, n: u16) -> Result<(u32, Reason), Refusal>
    requires granted { Granted table.now }
    requires sound { Sound table.now (state_of state.old) }
    ensures { afterwards result (state_of state.new) ≡ run_on table.now (state_of state.old) n }
{
    let t = next_rows::next_ready(state, state::THREADS);
    let turns = take_turns(table, state, t, n);
    turns::settle_waiting(table, state);
    Ok((turns.went, turns.reason))
}
