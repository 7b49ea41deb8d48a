// Whether every waiting thread waits rightly: at a choice of which no branch could go ahead. One pass over the waiting threads notes at each channel
// who waits to send and who waits to receive on it; two threads that could meet then stand at one channel.
#![tactic(auto)]

ghost use Rattle.std.specs.Prelude.{◌≡◌, true, ◌+◌, ◌<◌, get_or, set, is_some, IfSome};
ghost use Rattle.numbers.specs.Search.{every};
ghost use Rattle.state.specs.State.{state_of, max_threads, thread, status, stands_at};
ghost use Rattle.rules.specs.Sound.{waits_rightly};
ghost use Rattle.rules.specs.declared.Direction.TheVariants.{Out, In};
ghost use Rattle.waits.specs.Waits.{noted, apart, all_apart, held_back, offer_noted, all_held, waits_alone, notes};

use rules::{Act, Direction};
use table::{Table, field};

// The note of several threads: nobody is 0, thread t alone is t + 1.
const SEVERAL: u8 = 65;

const CHANNELS: usize = state::CHANNELS as usize;

// The note m with thread t besides.
#[tactic(auto, unfolding(crate::specs::Waits::noted))]
fn note_of(m: u8, t: u32) -> u8
    requires { t < max_threads }
    ensures { result ≡ noted m t }
{
    let own = t as u8 + 1;
    if m == 0 || m == own { own } else { SEVERAL }
}

// What a pass over the waiting threads notes at each channel: who offers to send on it, and who to receive.
#[derive(Drop)]
struct Offered {
    senders: [u8; CHANNELS],
    receivers: [u8; CHANNELS],
}

// Thread t is noted at channel c, if there is such a channel.
fn note(notes: &mut [u8], c: u32, t: u32)
    requires { t < max_threads }
    ensures { notes.new ≡ set notes.old c (noted (get_or notes.old c 0) t) }
{
    let at = c as usize;
    let before = numbers::item_at(notes, at, 0);
    numbers::put_item(notes, at, note_of(before, t));
}

// The branch in a row, of thread t: what it offers is noted. Answers whether it is held back, that is, could not go ahead alone.
#[tactic(auto, using(crate::proofs::Ways::meeting, crate::proofs::Ways::alone), unfolding(rules::specs::Program::same))]
fn note_branch(
    table: &Table,
    row: usize,
    state: &state::Words,
    t: u32,
    offered: &mut Offered,
) -> bool
    requires { t < max_threads }
    ensures value { result ≡ held_back table.now (thread (state_of state.now) t) row }
    ensures senders_after { offered.new.senders ≡ offer_noted table.now (thread (state_of state.now) t) Out row t offered.old.senders }
    ensures receivers_after { offered.new.receivers ≡ offer_noted table.now (thread (state_of state.now) t) In row t offered.old.receivers }
{
    if let Act::Meeting(d) = program::act_of(table, row) {
        if program::printed_guard(table, row, state, t) {
            let c = program::slot(state, t, table.cell(row, field::A));
            match d {
                Direction::Out => note(&mut offered.senders, c, t),
                Direction::In => note(&mut offered.receivers, c, t),
            }
        }
        true
    } else {
        !program::guard_holds(table, row, state, t)
    }
}

// What the branches of thread t, which waits at node n, offer is noted. Answers whether all are held back; where they are, the notes are whole.
fn note_branches(table: &Table, state: &state::Words, t: u32, n: u32, offered: &mut Offered) -> bool
    requires n_value { n ≡ stands_at (thread (state_of state.now) t) }
    requires waits { status (thread (state_of state.now) t) ≡ 2 }
    requires senders_value { offered.old.senders ≡ notes table.now (state_of state.now) Out t }
    requires receivers_value { offered.old.receivers ≡ notes table.now (state_of state.now) In t }
    ensures value { result ≡ all_held table.now (state_of state.now) t }
    ensures senders_after { result ≡ true → offered.new.senders ≡ notes table.now (state_of state.now) Out (t + 1) }
    ensures receivers_after { result ≡ true → offered.new.receivers ≡ notes table.now (state_of state.now) In (t + 1) }
{
    let count = table.branch_count(n);
    let from = table.first_branch(n);
    for i in 0..count {
        if !note_branch(table, from + i as usize, state, t, offered) {
            return false;
        }
    }
    true
}

// What thread t offers is noted. Answers whether it could not go ahead alone; where it could not, the notes are whole.
#[tactic(auto, using(crate::proofs::Ways::thread_skipped), unfolding(crate::specs::Waits::waits_alone, table::specs::Layout::branch_count))]
fn note_thread(table: &Table, state: &state::Words, t: u32, offered: &mut Offered) -> bool
    requires senders_value { offered.old.senders ≡ notes table.now (state_of state.now) Out t }
    requires receivers_value { offered.old.receivers ≡ notes table.now (state_of state.now) In t }
    ensures value { result ≡ waits_alone table.now (state_of state.now) t }
    ensures senders_after { result ≡ true → offered.new.senders ≡ notes table.now (state_of state.now) Out (t + 1) }
    ensures receivers_after { result ≡ true → offered.new.receivers ≡ notes table.now (state_of state.now) In (t + 1) }
{
    if state::status(state, t) != state::WAITING {
        return true;
    }
    let n = state::stands_at(state, t);
    let row = table.node_row() + n as usize;
    table.cell(row, field::NODE_KIND) == table::CHOICE && note_branches(table, state, t, n, offered)
}

// What all threads offer, if none of them could go ahead alone.
fn note_threads(table: &Table, state: &state::Words) -> Option<Offered>
    ensures value { is_some result ≡ every (waits_alone table.now (state_of state.now)) max_threads }
    ensures senders { IfSome result (λ offered. offered.senders ≡ notes table.now (state_of state.now) Out max_threads) }
    ensures receivers { IfSome result (λ offered. offered.receivers ≡ notes table.now (state_of state.now) In max_threads) }
{
    let mut offered = Offered {
        senders: [0; CHANNELS],
        receivers: [0; CHANNELS],
    };
    for t in 0..state::THREADS {
        if !note_thread(table, state, t, &mut offered) {
            return None;
        }
    }
    Some(offered)
}

// Whether the threads noted as senders, a, and as receivers, b, of one channel are not two that could meet.
#[tactic(auto, unfolding(crate::specs::Waits::apart))]
fn is_apart(a: u8, b: u8) -> bool
    ensures { result ≡ apart a b }
{
    a == 0 || b == 0 || (a == b && a != SEVERAL)
}

// Whether no channel has a sender and a receiver that are two threads.
fn all_apart(offered: &Offered) -> bool
    ensures { result ≡ all_apart offered.now.senders offered.now.receivers }
{
    (0..state::CHANNELS).all(|c| is_apart(
        recount::byte_at(&offered.senders, c),
        recount::byte_at(&offered.receivers, c),
    ))
}

// Whether every waiting thread stands at a choice of which no branch could go ahead.
#[tactic(auto, using(crate::proofs::Ways::not_alone))]
pub fn waits_rightly(table: &Table, state: &state::Words) -> bool
    ensures { result ≡ every (waits_rightly table.now (state_of state.now)) max_threads }
{
    match note_threads(table, state) {
        Some(offered) => all_apart(&offered),
        None => false,
    }
}
