// How many threads hold each channel, and how many of those wait, by one pass over the thread rows. A channel keeps the stamp of the thread that was counted at it
// last, so that one look tells whether a thread which holds it by several slots has been counted.
#![tactic(auto)]

ghost use Rattle.std.specs.Prelude.{◌≡◌, ◌+◌, ◌<◌, get_or, replicate};
ghost use Rattle.numbers.specs.Count.{bit};
ghost use Rattle.numbers.specs.Search.{tabulate};
ghost use Rattle.state.specs.State.{state_of, max_channels, thread, is_waiting};
ghost use Rattle.rules.specs.Holding.{holders, waiters};
ghost use Rattle.holding.specs.Own.{own_of, own_room, types_of};
ghost use Rattle.recount.specs.Tally.{added, added_unless, stamped_at, row_added, Fresh, Passed};

use table::Table;

// An entry for each channel.
pub const CHANNELS: usize = state::CHANNELS as usize;

// What a pass over the thread rows counts at each channel: how many threads hold it and how many of these wait, with the stamp of the thread that was counted last.
#[derive(Drop)]
pub struct Counts {
    pub stamps: [u8; CHANNELS],
    pub held: [u8; CHANNELS],
    pub waiting: [u8; CHANNELS],
}

impl Counts {
    // The counts before a pass.
    pub fn none() -> Self
        ensures stamps { result.stamps ≡ replicate max_channels 0 }
        ensures held { result.held ≡ replicate max_channels 0 }
        ensures waiting { result.waiting ≡ replicate max_channels 0 }
    {
        Counts {
            stamps: [0; CHANNELS],
            held: [0; CHANNELS],
            waiting: [0; CHANNELS],
        }
    }
}

// Entry i of a list of bytes; 0 outside.
pub fn byte_at(list: &[u8], i: u32) -> u8
    ensures { result ≡ get_or list.now i 0 }
{
    numbers::item_at(list, i as usize, 0)
}

// Entry c grows by w; there is no entry 128.
#[tactic(auto, unfolding(crate::specs::Tally::added))]
fn add(counts: &mut [u8], c: u8, w: u8)
    ensures { counts.new ≡ added counts.old c w }
{
    let at = c as usize;
    let count = numbers::item_at(counts, at, 0);
    numbers::put_item(counts, at, count.wrapping_add(w));
}

// A thread with this stamp is counted at channel c, and w times among the waiting ones, unless the channel has the stamp already. There is no channel 128.
#[tactic(auto, unfolding(crate::specs::Tally::added_unless, crate::specs::Tally::stamped_at))]
fn count_once(c: u8, stamp: u8, w: u8, counts: &mut Counts)
    ensures held_after { counts.new.held ≡ added_unless counts.old.stamps stamp c 1 counts.old.held }
    ensures waiting_after { counts.new.waiting ≡ added_unless counts.old.stamps stamp c w counts.old.waiting }
    ensures stamps_after { counts.new.stamps ≡ stamped_at counts.old.stamps stamp c }
{
    let at = c as usize;
    if at < CHANNELS && counts.stamps[at] != stamp {
        counts.stamps[at] = stamp;
        add(&mut counts.held, c, 1);
        add(&mut counts.waiting, c, w);
    }
}

// Thread t is counted at the channel in its slot k, and w times among the waiting ones, if no slot before has that channel. The types of its slots stand from a row of
// the table on.
#[tactic(auto, using(crate::specs::Tally::Stamps::passed_more, holding::specs::Own::Laws::room_le))]
pub fn count_slot(
    table: &Table,
    state: &state::Words,
    t: u32,
    from: u32,
    k: u32,
    w: u8,
    counts: &mut Counts,
)
    requires from_value { from ≡ types_of table.now (thread (state_of state.now) t) }
    requires k_bound { k < own_room table.now (thread (state_of state.now) t) }
    requires passed { Passed table.now (thread (state_of state.now) t) t k counts.old.stamps }
    ensures held_after { counts.new.held ≡ added counts.old.held (own_of table.now (thread (state_of state.now) t) k) 1 }
    ensures waiting_after { counts.new.waiting ≡ added counts.old.waiting (own_of table.now (thread (state_of state.now) t) k) w }
    ensures passed_after { Passed table.now (thread (state_of state.now) t) t (k + 1) counts.new.stamps }
{
    let c = holding::channel_at(table, from, state, t, k);
    count_once(c, t as u8 + 1, w, counts);
}

// Thread t is counted at each channel that it holds.
fn tally_row(table: &Table, state: &state::Words, t: u32, counts: &mut Counts)
    requires fresh { Fresh t counts.old.stamps }
    ensures held_after { counts.new.held ≡ row_added table.now (thread (state_of state.now) t) 1 counts.old.held }
    ensures waiting_after { counts.new.waiting
        ≡ row_added table.now (thread (state_of state.now) t) (bit (is_waiting (thread (state_of state.now) t))) counts.old.waiting }
    ensures fresh_after { Fresh (t + 1) counts.new.stamps }
{
    let slots = holding::slots_of(table, state, t);
    let from = slots.from;
    let n = slots.count;
    let w = holding::weight(state, t);
    for k in 0..n {
        count_slot(table, state, t, from, k, w, counts);
    }
}

// How many threads hold each of the 128 channels, and how many waiting ones do.
pub fn tally(table: &Table, state: &state::Words) -> Counts
    ensures held { result.held ≡ tabulate max_channels (holders table.now (state_of state.now).threads) }
    ensures waiting { result.waiting ≡ tabulate max_channels (waiters table.now (state_of state.now).threads) }
{
    let mut counts = Counts::none();
    for t in 0..state::THREADS {
        tally_row(table, state, t, &mut counts);
    }
    counts
}
