// What a layer above the engine asks of one thread of a state, by its words: its status, its offers on channels that are marked, the channels that it
// holds; and its release.
#![tactic(auto)]

ghost use Rattle.std.specs.Prelude.{◌≡◌, true, ◌<◌};
ghost use Rattle.table.specs.Table.{ports};
ghost use Rattle.state.specs.State.{max_threads, state_of, thread, status, with_thread};
ghost use Rattle.rules.specs.Holding.{settled};
ghost use Rattle.rules.specs.Start.{free_row};
ghost use Rattle.threads.specs.Threads.{offers_marked, with_held};
ghost use Rattle.threads.specs.Looking.{reaches_by};

use table::{Table, field};

// How many ports the bench holds.
pub fn port_count(table: &Table) -> u32
    ensures { result ≡ ports table.now }
{
    table.ports()
}

// The status of thread t: 0 free, 1 ready, 2 waiting.
pub fn status_of(words: &state::Words, t: u32) -> u32
    ensures { result ≡ status (thread (state_of words.now) t) }
{
    state::status(words, t)
}

// Whether the branch in a row, of thread t, offers on the channel that it names, and that channel is marked.
#[tactic(auto, using(crate::proofs::Ways::reaches_is_offer), unfolding(crate::specs::Looking::is_marked))]
fn reaches_by(
    table: &Table,
    row: usize,
    words: &state::Words,
    t: u32,
    marks: &[bool; state::CHANNELS as usize],
) -> bool
    ensures { result ≡ reaches_by table.now (thread (state_of words.now) t) marks.now row }
{
    let c = program::slot(words, t, table.cell(row, field::A));
    c < state::CHANNELS && marks[c as usize] && offers::offer_on(table, row, words, t, c).is_some()
}

// Whether thread t offers, in one direction or the other, on a channel that is marked.
pub fn offers_marked(
    table: &Table,
    words: &state::Words,
    t: u32,
    marks: &[bool; state::CHANNELS as usize],
) -> bool
    ensures { result ≡ offers_marked table.now (thread (state_of words.now) t) marks.now }
{
    if status_of(words, t) != state::WAITING {
        return false;
    }
    let node = state::stands_at(words, t);
    let n = table.branch_count(node);
    let first = table.first_branch(node);
    (0..n).any(|i| reaches_by(table, first + i as usize, words, t, marks))
}

// The channels that thread t holds are marked too.
#[tactic(auto, unfolding(crate::specs::Looking::raised_to))]
pub fn mark_held(
    table: &Table,
    words: &state::Words,
    t: u32,
    marks: &mut [bool; state::CHANNELS as usize],
)
    ensures { marks.new ≡ with_held table.now (thread (state_of words.now) t) marks.old }
{
    let own = holding::own_channels(table, words, t);
    for c in &own.list {
        // An entry that is no channel marks nothing.
        numbers::put_item(marks, *c as usize, true);
    }
}

// The row of thread t is freed, and the channel rows are settled again.
#[tactic(auto, using(crate::proofs::Ways::released_settled))]
pub fn release(table: &Table, words: &mut state::Words, t: u32)
    requires t_lt_max_threads { t < max_threads }
    requires words_value { settled table.now (state_of words.old) ≡ state_of words.old }
    ensures words_after { state_of words.new ≡ settled table.now (with_thread (state_of words.old) t free_row) }
    ensures stays_settled { settled table.now (state_of words.new) ≡ state_of words.new }
{
    let noted = upkeep::note_held(table, words, t);
    thread_rows::write_free(words, t);
    upkeep::settle_one(table, words, t, &noted);
}
