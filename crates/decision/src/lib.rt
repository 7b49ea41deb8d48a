// Which move a ready thread makes: the choice of a branch, with the partner or the free row that the branch needs.
#![tactic(auto)]

ghost use Rattle.std.specs.Prelude.{◌≡◌, true, cond, ◌+◌, ◌≤◌, None, Some};
ghost use Rattle.std.specs.Int.{w32};
ghost use Rattle.std.proofs.Common.{to_z};
ghost use Rattle.numbers.specs.Signed.{is_exact};
ghost use Rattle.table.specs.Table.{branch_row};
ghost use Rattle.table.specs.Layout.{branch_count, start};
ghost use Rattle.table.specs.declared.Part.TheVariants.{Branches};
ghost use Rattle.state.specs.State.{state_of, thread, stands_at};
ghost use Rattle.rules.specs.Program.{branch_at, printed_guard, opposite};
ghost use Rattle.rules.specs.Offers.{partner_of};
ghost use Rattle.rules.specs.declared.Move.TheVariants.{Waits, Goes};
ghost use Rattle.rules.specs.Moves.{free_thread, free_channel, meeting, creation, spawning, goes_ahead, branch_move, choice, move};
ghost use Rattle.program.specs.HandedOn.{Carries};

use offers::Moment;
use rules::{Act, Direction, Move};
use table::field;

// A move that is decided. Where a branch goes ahead alone, its row, and the number that it stores if it is an assignment.
#[derive(Clone, Copy)]
pub struct Decided {
    pub made: Move,
    pub row: usize,
    pub number: u32,
}

// A move with which nothing is handed on.
fn plain(m: Move) -> Decided
    ensures { result.made ≡ m }
{
    Decided {
        made: m,
        row: 0,
        number: 0,
    }
}

// The move of thread t by branch i, a meeting of direction d on channel c.
#[tactic(auto, unfolding(rules::specs::Moves::meeting))]
fn meeting_move(moment: &Moment, t: u32, i: u32, d: Direction, c: u32) -> Move
    ensures { result ≡ meeting i (partner_of moment.now.table moment.now.state t (opposite d) c) }
{
    let side = program::opposite_of(d);
    match moment.find_partner(t, side, c) {
        None => Move::Waits,
        Some((u, j)) => Move::Meets(i, u, j),
    }
}

// The move by branch i, which makes a channel.
#[tactic(auto, unfolding(rules::specs::Moves::creation))]
fn creation_move(state: &state::Words, i: u32) -> Move
    ensures { result ≡ creation i (free_channel (state_of state.now)) }
{
    let made = next_rows::free_channel(state);
    if made < state::CHANNELS {
        Move::Creates(i, made)
    } else {
        Move::LacksChannel
    }
}

// The move by branch i, which makes a thread.
#[tactic(auto, unfolding(rules::specs::Moves::spawning))]
fn spawning_move(state: &state::Words, i: u32) -> Move
    ensures { result ≡ spawning i (free_thread (state_of state.now)) }
{
    let child = next_rows::free_thread(state);
    if child < state::THREADS {
        Move::Spawns(i, child)
    } else {
        Move::LacksThread
    }
}

// The move by branch i, in a row, which assigns v: to wait where it does not fit.
#[tactic(auto, unfolding(numbers::specs::Signed::is_exact))]
fn assignment_move(i: u32, row: usize, v: Option<i32>) -> Decided
    ensures made_value { result.made ≡ cond (is_exact v) (Goes i) Waits }
    ensures row_value { is_exact v ≡ true → result.row ≡ row }
    ensures v_value { is_exact v ≡ true → v ≡ Some (to_z w32 result.number) }
{
    match v {
        Some(z) => Decided {
            made: Move::Goes(i),
            row,
            number: numbers::pattern(z),
        },
        None => plain(Move::Waits),
    }
}

// The move of thread t by branch i, in a row, whose guard is true as the file has it: to wait where the branch assigns a number that does not fit.
#[tactic(auto, unfolding(rules::specs::Moves::branch_move, rules::specs::Moves::act_move, rules::specs::Moves::meeting, rules::specs::Moves::creation, rules::specs::Moves::spawning, rules::specs::Program::guard_holds, rules::specs::Program::fitting, program::specs::HandedOn::Carries))]
fn act_move(moment: &Moment, t: u32, i: u32, row: usize) -> Decided
    requires row_value { row ≡ branch_at moment.now.table (stands_at (thread moment.now.state t)) i }
    requires guarded { printed_guard moment.now.table row (thread moment.now.state t) ≡ true }
    ensures made_value { result.made ≡ branch_move moment.now.table moment.now.state t i }
    ensures carries { Carries moment.now.table result.row result.number moment.now.state t result.made }
{
    let table = moment.table();
    let state = moment.state();
    match program::act_of(table, row) {
        Act::Tau => Decided {
            made: Move::Goes(i),
            row,
            number: 0,
        },
        Act::Meeting(d) => {
            let c = program::slot(state, t, table.cell(row, field::A));
            plain(meeting_move(moment, t, i, d, c))
        }
        Act::New => plain(creation_move(state, i)),
        Act::Spawn => plain(spawning_move(state, i)),
        Act::Assignment => {
            assignment_move(i, row, program::assigned_value(table, row, state, t))
        }
    }
}

// The move of thread t by branch i, in a row, alone: to wait where the guard is false.
#[tactic(auto, unfolding(rules::specs::Moves::branch_move, rules::specs::Program::guard_holds, program::specs::HandedOn::Carries))]
fn branch_move(moment: &Moment, t: u32, i: u32, row: usize) -> Decided
    requires row_value { row ≡ branch_at moment.now.table (stands_at (thread moment.now.state t)) i }
    ensures made_value { result.made ≡ branch_move moment.now.table moment.now.state t i }
    ensures carries { Carries moment.now.table result.row result.number moment.now.state t result.made }
{
    if program::printed_guard(moment.table(), row, moment.state(), t) {
        act_move(moment, t, i, row)
    } else {
        plain(Move::Waits)
    }
}

// Whether a move by one branch goes ahead.
#[tactic(auto, unfolding(rules::specs::Moves::goes_ahead))]
fn goes_ahead(m: Move) -> bool
    ensures { result ≡ goes_ahead m }
{
    !matches!(m, Move::Waits)
}

// The move of thread t at a choice of n branches, the first in row from: by the first branch that goes ahead, to wait where none does.
#[tactic(auto, using(numbers::specs::Search::Laws::first_none, numbers::specs::Search::Laws::first_more, numbers::specs::Search::Laws::first_hit), unfolding(rules::specs::Moves::choice, rules::specs::Moves::ahead, rules::specs::Program::branch_at, program::specs::HandedOn::Carries))]
fn choose(moment: &Moment, t: u32, n: u32, from: usize) -> Decided
    requires n_value { n ≡ branch_count moment.now.table (stands_at (thread moment.now.state t)) }
    requires from_value { from ≡ branch_row moment.now.table + start moment.now.table Branches (stands_at (thread moment.now.state t)) }
    requires from_bound { from ≤ 12583201 }
    ensures made_value { result.made ≡ choice moment.now.table moment.now.state t }
    ensures carries { Carries moment.now.table result.row result.number moment.now.state t result.made }
{
    for i in 0..n {
        let d = branch_move(moment, t, i, from + i as usize);
        if goes_ahead(d.made) {
            return d;
        }
    }
    plain(Move::Waits)
}

// The move that thread t makes, if it is ready.
#[tactic(auto, using(crate::proofs::Choice::move_is), unfolding(table::specs::Layout::branch_count, program::specs::HandedOn::Carries))]
pub fn decide(moment: &Moment, t: u32) -> Decided
    ensures made_value { result.made ≡ move moment.now.table moment.now.state t }
    ensures carries { Carries moment.now.table result.row result.number moment.now.state t result.made }
{
    let table = moment.table();
    let node = state::stands_at(moment.state(), t);
    let row = table.node_row() + node as usize;
    match table.cell(row, field::NODE_KIND) {
        table::CHOICE => {
            let from = table.first_branch(node);
            choose(moment, t, table.cell(row, field::OWN_BRANCHES), from)
        }
        table::CALL => plain(Move::Calls),
        _ => plain(Move::Ends),
    }
}
