// What a thread offers by a branch, and the search for the partner that answers an offer.
#![tactic(auto)]

ghost use Rattle.std.specs.Prelude.{◌≡◌, true, ◌+◌, ◌≤◌, ◌<◌};
ghost use Rattle.state.specs.State.{max_threads, state_of, thread, is_waiting};
ghost use Rattle.rules.specs.Program.{act_of, same};
ghost use Rattle.rules.specs.Offers.{offers_at, partner_of};
ghost use Rattle.rules.specs.Moves.{first_from};
ghost use Rattle.next_rows.specs.UsedBelow.{UsedBelow};
ghost use Rattle.offers.specs.Offer.{offer_on};
ghost use Rattle.offers.specs.Apart.{Apart};
ghost use Rattle.offers.specs.Seen.{seen_in};
ghost use Rattle.offers.specs.Tried.{is_waiting_thread, tried, first_row};

use rules::{Act, Direction};
use std::marker::Model;
use table::{Table, field};

// What the branch in a row, of thread u, offers on channel c: a meeting on it whose guard is true, which assigns nothing that would have to fit. The
// guard is read last, since in a search most branches fail by their act or by their channel.
#[tactic(auto, unfolding(crate::specs::Offer::offer_on, crate::specs::Offer::offer_of, rules::specs::Program::guard_holds, rules::specs::Program::fitting))]
pub fn offer_on(
    table: &Table,
    row: usize,
    state: &state::Words,
    u: u32,
    c: u32,
) -> Option<Direction>
    ensures { result ≡ offer_on table.now (thread (state_of state.now) u) c row }
{
    match program::act_of(table, row) {
        Act::Meeting(d)
            if program::slot(state, u, table.cell(row, field::A)) == c
                && program::printed_guard(table, row, state, u) => { Some(d) }
        _ => None,
    }
}

// What a branch is to a search for an offer: it offers what is looked for, it offers what the asker itself offers on the channel, or neither.
#[derive(Clone, Copy)]
enum Seen {
    Answers,
    Competes,
    Neither,
}

// The branch in a row, of thread u, to a search for an offer of d on channel c.
#[tactic(auto, unfolding(crate::specs::Seen::seen_in, crate::specs::Seen::seen_as, rules::specs::Program::same))]
fn seen_in(table: &Table, row: usize, state: &state::Words, u: u32, d: Direction, c: u32) -> Seen
    ensures { result ≡ seen_in table.now (thread (state_of state.now) u) d c row }
{
    match offer_on(table, row, state, u, c) {
        None => Seen::Neither,
        Some(e) if e == d => Seen::Answers,
        Some(_) => Seen::Competes,
    }
}

// How many branches of thread u, which waits, are tried for thread t: none of its own.
#[tactic(auto, unfolding(crate::specs::Tried::tried, table::specs::Layout::branch_count))]
fn branches_asked(table: &Table, state: &state::Words, t: u32, u: u32) -> u32
    requires { is_waiting (thread (state_of state.now) u) ≡ true }
    ensures { result ≡ tried table.now (state_of state.now) t u }
{
    let row = table.node_row() + state::stands_at(state, u) as usize;
    if u != t && table.cell(row, field::NODE_KIND) == table::CHOICE {
        table.cell(row, field::OWN_BRANCHES)
    } else {
        0
    }
}

// How many branches of thread u are tried for thread t: none of its own, and none of a thread that does not wait.
#[tactic(auto, unfolding(crate::specs::Tried::tried))]
fn branches_tried(table: &Table, state: &state::Words, t: u32, u: u32) -> u32
    ensures { result ≡ tried table.now (state_of state.now) t u }
{
    if state::status(state, u) == state::WAITING {
        branches_asked(table, state, t, u)
    } else {
        0
    }
}

// The row of the first branch of thread u, of which n are tried; 0 where none is.
#[tactic(auto, unfolding(crate::specs::Tried::first_row))]
fn first_row(table: &Table, state: &state::Words, u: u32, n: u32) -> usize
    ensures value { result ≡ first_row table.now (state_of state.now) u n }
    ensures upper_bound { result ≤ 12583201 }
{
    if n == 0 {
        0
    } else {
        table.first_branch(state::stands_at(state, u))
    }
}

// The first waiting thread from a number on, below a limit; the limit where there is none.
#[tactic(auto, unfolding(crate::specs::Tried::is_waiting_thread))]
fn next_waiting(state: &state::Words, from: u32, limit: u32) -> u32
    requires { from ≤ limit }
    ensures value { result ≡ first_from limit from (is_waiting_thread (state_of state.now)) }
    ensures upper_bound { result ≤ limit }
{
    next_rows::first_from(limit, from, |u| state::status(state, u) == state::WAITING)
}

// A state in which a move is decided, with its table: no thread row from top on is in use, and no two threads that wait could meet.
#[derive(Drop)]
pub struct Moment<'a, 'b> {
    table: &'a Table<'a>,
    state: &'b state::Words,
    top: u32,
}

impl<'a, 'b> Model for Moment<'a, 'b> {
    ghost use Rattle.state.specs.State.{state_of};
    ghost use Rattle.next_rows.specs.UsedBelow.{UsedBelow};
    ghost use Rattle.offers.specs.Apart.{Apart};
    ghost use Rattle.offers.specs.Moment.{Moment};

    ghost Value = { Moment };

    ghost view = { λ m. record { table = m.table.now; state = state_of m.state.now } };

    ghost invariant = { λ m. UsedBelow (state_of m.state.now) m.top × Apart m.table.now (state_of m.state.now).threads };
}

impl<'a, 'b> Moment<'a, 'b> {
    // A state with its table, and a number from which on no thread row is in use.
    pub fn new(table: &'a Table<'a>, state: &'b state::Words, top: u32) -> Self
        requires used_below { UsedBelow (state_of state.now) top }
        requires apart { Apart table.now (state_of state.now).threads }
        ensures { result ≡ record { table = table.now; state = state_of state.now } }
    {
        Moment { table, state, top }
    }

    // The table alone.
    pub fn table(&self) -> &Table<'a>
        ensures { result.now ≡ self.now.table }
    {
        self.table
    }

    // The words of the state.
    pub fn state(&self) -> &state::Words
        ensures { state_of result.now ≡ self.now.state }
    {
        self.state
    }

    // The number from which on no row is in use, seen to be at most that of all rows.
    #[tactic(auto, unfolding(next_rows::specs::UsedBelow::UsedBelow))]
    fn limit(&self) -> u32
        ensures { UsedBelow self.now.state result }
    {
        self.top.min(state::THREADS)
    }

    // The first waiting thread other than t that offers d on channel c, and the first of its branches that does.
    // Where a thread competes, that is, offers t's own direction on c, no other thread offers d, and the search ends with its branches.
    pub fn find_partner(&self, t: u32, d: Direction, c: u32) -> Option<(u32, u32)>
        ensures { result ≡ partner_of self.now.table self.now.state t d c }
    {
        if state::CHANNELS <= c {
            return None;
        }
        let table = self.table;
        let state = self.state;
        let limit = self.limit();
        let mut found = None;
        let mut u = next_waiting(state, 0, limit);
        'threads: while u < limit {
            let n = branches_asked(table, state, t, u);
            let from = first_row(table, state, u, n);
            let mut competes = false;
            for i in 0..n {
                match seen_in(table, from + i as usize, state, u, d, c) {
                    Seen::Answers => {
                        found = Some((u, i));
                        break 'threads;
                    }
                    Seen::Competes => competes = true,
                    Seen::Neither => {}
                }
            }
            if competes {
                break 'threads;
            }
            u = next_waiting(state, u + 1, limit);
        }
        found
    }
}

// Whether thread u offers d on channel c by its branch i.
#[tactic(auto, using(crate::proofs::Search::at_answers, crate::proofs::Search::at_competes, crate::proofs::Search::at_neither))]
fn offers_at(table: &Table, state: &state::Words, u: u32, d: Direction, c: u32, i: u32) -> bool
    ensures { result ≡ offers_at table.now (thread (state_of state.now) u) d c i }
{
    let node = state::stands_at(state, u);
    let row = program::branch_at(table, node, i);
    match seen_in(table, row, state, u, d, c) {
        Seen::Answers => true,
        Seen::Competes | Seen::Neither => false,
    }
}

// The first waiting thread that offers d on port p to the bench, which is no thread, and the first of its branches that does. The search for a
// thread's partner has one caller, so that the compiler lays it out in the loop of a run; hence the bench has this one.
pub fn find_at_port(table: &Table, state: &state::Words, d: Direction, p: u32) -> Option<(u32, u32)>
    ensures { result ≡ partner_of table.now (state_of state.now) max_threads d p }
{
    if state::CHANNELS <= p {
        return None;
    }
    let mut found = None;
    'threads: for u in 0..state::THREADS {
        let n = branches_tried(table, state, state::THREADS, u);
        for i in 0..n {
            if offers_at(table, state, u, d, p, i) {
                found = Some((u, i));
                break 'threads;
            }
        }
    }
    found
}
