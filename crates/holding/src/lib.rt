// The channels that a thread's row holds, each once, and what the row adds to their counts of waiting holders.
#![tactic(auto)]

ghost use Rattle.std.specs.Prelude.{◌≡◌, true, ◌≤◌, replicate};
ghost use Rattle.numbers.specs.Count.{bit};
ghost use Rattle.state.specs.State.{row_slots, max_channels, state_of, thread, in_use, is_waiting};
ghost use Rattle.holding.specs.Own.{room, own_list, own_room, types_of};
ghost use Rattle.holding.specs.Own.Listing.{listed, channel_by, own_by, listed_to};

use table::{Table, field};

// The entries of a list of channels, one for each slot of a row.
pub const LIST: usize = state::SLOTS as usize;

// Whether one of the first n entries of a list is c.
fn is_listed(list: &[u8; LIST], n: u32, c: u8) -> bool
    ensures { result ≡ listed list.now n c }
{
    (0..n).any(|i| numbers::item_at(list, i as usize, 0) == c)
}

// The channel in slot k of thread t; 128 where the slot has a number or no channel. The types of the slots stand from a row of the table on.
#[tactic(auto, unfolding(crate::specs::Own::Listing::channel_by))]
pub fn channel_at(table: &Table, from: u32, state: &state::Words, t: u32, k: u32) -> u8
    ensures { result ≡ channel_by table.now from (thread (state_of state.now) t) k }
{
    let c = program::slot(state, t, k);
    if c < state::CHANNELS && table.cell(from as usize + k as usize, field::TYPE) != 0 {
        c as u8
    } else {
        state::NO_CHANNEL
    }
}

// The channel that slot k of thread t is the first to hold; 128 where there is none. The list has the channels of the slots before.
#[tactic(auto, unfolding(crate::specs::Own::Listing::own_by))]
fn own_at(table: &Table, from: u32, state: &state::Words, t: u32, list: &[u8; LIST], k: u32) -> u8
    ensures { result ≡ own_by table.now from (thread (state_of state.now) t) list.now k }
{
    let c = channel_at(table, from, state, t, k);
    if c != state::NO_CHANNEL && is_listed(list, k, c) {
        state::NO_CHANNEL
    } else {
        c
    }
}

// The list of the channels of thread t's first n slots, each once; 128 for a slot that adds none, and behind them.
fn list_own(table: &Table, from: u32, state: &state::Words, t: u32, n: u32) -> [u8; LIST]
    requires { n ≤ row_slots }
    ensures { result ≡ listed_to table.now from (thread (state_of state.now) t) (replicate row_slots max_channels) n }
{
    let mut list = [state::NO_CHANNEL; LIST];
    for k in 0..n {
        let c = own_at(table, from, state, t, &list, k);
        list[k as usize] = c;
    }
    list
}

// How many slots a row of this status and definition has: none where it is free.
#[tactic(auto, unfolding(crate::specs::Own::room))]
fn own_room(table: &Table, status: u32, d: u32) -> u32
    ensures value { result ≡ room table.now status d }
    ensures upper_bound { result ≤ row_slots }
{
    if status == state::FREE {
        0
    } else {
        table.slots(d).min(state::SLOTS)
    }
}

// Where the types of a thread's slots begin in the table, and how many slots it has: none where its row is free.
#[derive(Clone, Copy)]
pub struct Slots {
    pub from: u32,
    pub count: u32,
}

// The slots of thread t.
#[tactic(auto, unfolding(crate::specs::Own::own_room, crate::specs::Own::types_of, crate::specs::Own::room))]
pub fn slots_of(table: &Table, state: &state::Words, t: u32) -> Slots
    ensures count_value { result.count ≡ own_room table.now (thread (state_of state.now) t) }
    ensures count_le_row_slots { result.count ≤ row_slots }
    ensures from_value { in_use (thread (state_of state.now) t) ≡ true → result.from ≡ types_of table.now (thread (state_of state.now) t) }
    ensures from_bound { result.from ≤ 12713792 }
{
    let status = state::status(state, t);
    if status == state::FREE {
        return Slots { from: 0, count: 0 };
    }
    let d = program::definition_of(table, state::stands_at(state, t));
    Slots {
        from: program::types_from(table, d),
        count: own_room(table, status, d),
    }
}

// The channels that a thread holds, each once at the first slot that has it, and how many entries its slots fill: past them there is no channel.
#[derive(Clone, Copy)]
pub struct Own {
    pub list: [u8; LIST],
    pub count: u32,
}

// The channels that thread t holds. Laid out in each caller: as a call it would copy the list.
#[inline(always)]
pub fn own_channels(table: &Table, state: &state::Words, t: u32) -> Own
    ensures list { result.list ≡ own_list table.now (thread (state_of state.now) t) }
    ensures count { result.count ≡ own_room table.now (thread (state_of state.now) t) }
    ensures upper_bound { result.count ≤ row_slots }
{
    let slots = slots_of(table, state, t);
    Own {
        list: list_own(table, slots.from, state, t, slots.count),
        count: slots.count,
    }
}

// What thread t adds to the count of waiting holders of each channel that it holds: 1 where it waits.
#[tactic(auto, unfolding(numbers::specs::Count::bit))]
pub fn weight(state: &state::Words, t: u32) -> u8
    ensures { result ≡ bit (is_waiting (thread (state_of state.now) t)) }
{
    u8::from(state::status(state, t) == state::WAITING)
}
