// Ground 10: whether a state is sound for a table. Each thread row is passed once, for its own tests and for the counts, and once more for its offers where it waits.
#![tactic(auto)]

ghost use Rattle.std.specs.Prelude.{◌≡◌, ◌&&◌, ◌+◌, ◌<◌, ltb, leb, replicate};
ghost use Rattle.numbers.specs.Count.{bit};
ghost use Rattle.numbers.specs.Search.{every, tabulate};
ghost use Rattle.table.specs.Table.{nodes, ports};
ghost use Rattle.state.specs.State.{state_of, max_channels, thread_words, row_slots, thread, stands_at, is_waiting};
ghost use Rattle.state.specs.Words.{waiting as waiting_status};
ghost use Rattle.holding.specs.Own.{own_room, types_of};
ghost use Rattle.rules.specs.Holding.{count_of, holders, waiters};
ghost use Rattle.rules.specs.Sound.{marks_in_range, count_true, port_typed, sound};
ghost use Rattle.recount.specs.Tally.{row_added, Fresh};
ghost use Rattle.sound.specs.SoundRows.{word_zero, spare_of, spare_zero_at, slot_sound, row_sound, rows_sound};

use flow::Flow;
use recount::Counts;
use table::{Table, field};

// Every port has this type.
const PORT_TYPE: u32 = 1;

// Whether the marks and the turn are in range.
#[tactic(auto, unfolding(rules::specs::Sound::marks_in_range))]
fn marks_in_range(state: &state::Words) -> bool
    ensures { result ≡ marks_in_range (state_of state.now) }
{
    state::mark(state, state::THREAD_MARK) < state::THREADS
        && state::mark(state, state::CHANNEL_MARK) < state::CHANNELS
        && state::mark(state, state::TURN) < state::THREADS
}

// Whether slot k of thread t is typed, and filled if it must be. The thread is in use and stands at node n, and the types of its slots, of which k is one, stand from a
// row of the table on.
#[tactic(auto, using(crate::proofs::Ways::slot_number, crate::proofs::Ways::slot_channel, crate::proofs::Ways::slot_empty, crate::proofs::Ways::slot_no_channel))]
fn slot_sound(flow: &Flow, state: &state::Words, t: u32, n: u32, from: u32, k: u32) -> bool
    requires n_value { n ≡ stands_at (thread (state_of state.now) t) }
    requires from_value { from ≡ types_of flow.now (thread (state_of state.now) t) }
    requires k_bound { k < own_room flow.now (thread (state_of state.now) t) }
    ensures { result ≡ slot_sound flow.now (state_of state.now) (thread (state_of state.now) t) k }
{
    let ty = flow.table().cell(from as usize + k as usize, field::TYPE);
    ty == 0
        || match program::slot(state, t, k) {
            c if c < state::CHANNELS => state::channel_word(state, c as usize, state::TYPE) == ty,
            v => v == state::MINUS_ONE && flow.has_gap(n as usize, k),
        }
}

// The slots of thread t, of which there are `count`, are put to their tests, and the thread is counted at the channels in them. Answers whether all pass; the counts
// are true whether they do or not.
fn pass_slots(
    flow: &Flow,
    state: &state::Words,
    t: u32,
    n: u32,
    from: u32,
    count: u32,
    counts: &mut Counts,
) -> bool
    requires n_value { n ≡ stands_at (thread (state_of state.now) t) }
    requires from_value { from ≡ types_of flow.now (thread (state_of state.now) t) }
    requires count_value { count ≡ own_room flow.now (thread (state_of state.now) t) }
    requires fresh { Fresh t counts.old.stamps }
    ensures value { result ≡ every (slot_sound flow.now (state_of state.now) (thread (state_of state.now) t)) count }
    ensures held_after { counts.new.held ≡ row_added flow.now (thread (state_of state.now) t) 1 counts.old.held }
    ensures waiting_after { counts.new.waiting ≡ row_added flow.now (thread (state_of state.now) t) (bit (is_waiting (thread (state_of state.now) t))) counts.old.waiting }
    ensures fresh_after { Fresh (t + 1) counts.new.stamps }
{
    let w = holding::weight(state, t);
    let mut passed = true;
    for k in 0..count {
        passed &= slot_sound(flow, state, t, n, from, k);
        recount::count_slot(flow.table(), state, t, from, k, w, counts);
    }
    passed
}

// What stands in slot k of thread t, which has `count` slots of its own, if it is a spare one; 0 of its own.
#[tactic(auto, unfolding(crate::specs::SoundRows::spare_of))]
fn spare_at(state: &state::Words, t: u32, count: u32, k: u32) -> u32
    ensures { result ≡ spare_of (thread (state_of state.now) t) count k }
{
    if k < count {
        0
    } else {
        program::slot(state, t, k)
    }
}

// Whether the spare slots of thread t, which has `count` of its own, are 0: so is then every bit that one of them has. (All are joined, with no way out of the loop:
// that takes four at a time.)
fn spare_zero(state: &state::Words, t: u32, count: u32) -> bool
    ensures { result ≡ every (spare_zero_at (thread (state_of state.now) t) count) row_slots }
{
    let mut all: u32 = 0;
    for k in 0..state::SLOTS {
        all |= spare_at(state, t, count, k);
    }
    all == 0
}

// Whether all of thread t's row is 0, told in the same way.
fn row_is_zero(state: &state::Words, t: u32) -> bool
    ensures { result ≡ every (word_zero (thread (state_of state.now) t)) thread_words }
{
    let mut all: u32 = 0;
    for k in 0..state::THREAD_WORDS {
        all |= state::thread_word(state, t as usize, k);
    }
    all == 0
}

// Whether the status and the node of a thread are in range.
fn in_range(table: &Table, status: u32, n: u32) -> bool
    ensures { result ≡ (leb status waiting_status && ltb n (nodes table.now)) }
{
    status <= state::WAITING && n < table.node_total()
}

// Thread t's row is put to all its tests, and is counted at the channels that it holds. Answers whether it passes.
fn pass_row(flow: &Flow, state: &state::Words, t: u32, counts: &mut Counts) -> bool
    requires fresh { Fresh t counts.old.stamps }
    ensures value { result ≡ row_sound flow.now (state_of state.now) (thread (state_of state.now) t) }
    ensures held_after { counts.new.held ≡ row_added flow.now (thread (state_of state.now) t) 1 counts.old.held }
    ensures waiting_after { counts.new.waiting ≡ row_added flow.now (thread (state_of state.now) t) (bit (is_waiting (thread (state_of state.now) t))) counts.old.waiting }
    ensures fresh_after { Fresh (t + 1) counts.new.stamps }
{
    let status = state::status(state, t);
    if status == state::FREE {
        return row_is_zero(state, t);
    }
    let n = state::stands_at(state, t);
    let table = flow.table();
    let slots = holding::slots_of(table, state, t);
    let count = slots.count;
    let typed = pass_slots(flow, state, t, n, slots.from, count, counts);
    typed & spare_zero(state, t, count) & in_range(table, status, n)
}

// One pass over the thread rows: each is put to its tests, and is counted at the channels that it holds. Answers whether all pass. Nothing ends the pass early, so
// that the counts, of which none has been made, are true whether the rows pass or not.
fn pass_rows(flow: &Flow, state: &state::Words, counts: &mut Counts) -> bool
    requires stamps_value { counts.old.stamps ≡ replicate max_channels 0 }
    requires held_value { counts.old.held ≡ replicate max_channels 0 }
    requires waiting_value { counts.old.waiting ≡ replicate max_channels 0 }
    ensures value { result ≡ rows_sound flow.now (state_of state.now) }
    ensures held_after { counts.new.held ≡ tabulate max_channels (holders flow.now (state_of state.now).threads) }
    ensures waiting_after { counts.new.waiting ≡ tabulate max_channels (waiters flow.now (state_of state.now).threads) }
{
    let mut passed = true;
    for t in 0..state::THREADS {
        passed &= pass_row(flow, state, t, counts);
    }
    passed
}

// The count that channel c ought to have: its holders, and the bench if it is a port.
#[tactic(auto, using(crate::proofs::Ways::due_port, crate::proofs::Ways::due_other))]
fn count_due(table: &Table, state: &state::Words, counts: &Counts, c: u32) -> u32
    requires held_value { counts.now.held ≡ tabulate max_channels (holders table.now (state_of state.now).threads) }
    requires c_lt_max_channels { c < max_channels }
    ensures { result ≡ count_of table.now (state_of state.now).threads c }
{
    let n = recount::byte_at(&counts.held, c) as u32;
    if c < table.ports() { 1 + n } else { n }
}

// Whether the counts of channel c are true, and it is in use exactly when its count is above 0.
#[tactic(auto, using(crate::proofs::Ways::count_false, crate::proofs::Ways::waiting_false))]
fn channel_sound(table: &Table, state: &state::Words, counts: &Counts, c: u32) -> bool
    requires held_value { counts.now.held ≡ tabulate max_channels (holders table.now (state_of state.now).threads) }
    requires waiting_value { counts.now.waiting ≡ tabulate max_channels (waiters table.now (state_of state.now).threads) }
    requires c_lt_max_channels { c < max_channels }
    ensures { result ≡ count_true table.now (state_of state.now) c }
{
    let count = state::channel_word(state, c as usize, state::COUNT);
    count == count_due(table, state, counts, c)
        && state::channel_word(state, c as usize, state::WAITERS)
            == recount::byte_at(&counts.waiting, c) as u32
        && (state::channel_word(state, c as usize, state::TYPE) == 0) == (count == 0)
}

// Whether the counts of all channels are true, given the numbers of their holders and of the waiting ones.
fn counts_sound(table: &Table, state: &state::Words, counts: &Counts) -> bool
    requires held_value { counts.now.held ≡ tabulate max_channels (holders table.now (state_of state.now).threads) }
    requires waiting_value { counts.now.waiting ≡ tabulate max_channels (waiters table.now (state_of state.now).threads) }
    ensures { result ≡ every (count_true table.now (state_of state.now)) max_channels }
{
    (0..state::CHANNELS).all(|c| channel_sound(table, state, counts, c))
}

// Whether the ports are in use, of type 1.
fn ports_sound(table: &Table, state: &state::Words) -> bool
    ensures { result ≡ every (port_typed table.now (state_of state.now)) (ports table.now) }
{
    let n = table.ports();
    (0..n).all(|c| state::channel_word(state, c as usize, state::TYPE) == PORT_TYPE)
}

// Whether a state is sound for a table, which comes with the gaps of its flow: ground 10.
#[tactic(auto, using(crate::proofs::Ways::marks_unsound, crate::proofs::Ways::threads_unsound, crate::proofs::Ways::counts_unsound, crate::proofs::Ways::ports_unsound, crate::proofs::Ways::waits_tested))]
pub fn is_sound(flow: &Flow, state: &state::Words) -> bool
    ensures { result ≡ sound flow.now (state_of state.now) }
{
    let mut counts = Counts::none();
    let table = flow.table();
    marks_in_range(state)
        && pass_rows(flow, state, &mut counts)
        && counts_sound(table, state, &counts)
        && ports_sound(table, state)
        && waits::waits_rightly(table, state)
}
