// The channel rows of a state kept in step with the thread rows that a move writes. Before the writes the channels of each row that will change are
// noted; after them every new row is entered and then every old one left, so that no channel is freed that a new row holds.
#![tactic(auto)]

ghost use Rattle.std.specs.Prelude.{◌≡◌, length};
ghost use Rattle.numbers.specs.Count.{bit};
ghost use Rattle.state.specs.State.{state_of, thread, is_waiting};
ghost use Rattle.holding.specs.Own.{own_list};
ghost use Rattle.upkeep.specs.Shift.{row_counted, channel_shifted, shifted_to, row_entered, row_left, row_weighed, settled_one, settled_two, settled_new};

use table::Table;

const CHANNELS: usize = state::CHANNELS as usize;

// What a thread's row was before it changes: the channels that it held, each once, and what it added to their counts of waiting holders.
#[derive(Clone, Copy)]
pub struct Noted {
    pub list: [u8; holding::LIST],
    pub waited: u32,
}

// Thread t's row is noted before it changes. Laid out in each caller: as a call it would copy the list.
#[inline(always)]
pub fn note_held(table: &Table, state: &state::Words, t: u32) -> Noted
    ensures list { result.list ≡ own_list table.now (thread (state_of state.now) t) }
    ensures waited { result.waited ≡ bit (is_waiting (thread (state_of state.now) t)) }
{
    let own = holding::own_channels(table, state, t);
    let list = own.list;
    Noted {
        list,
        waited: holding::weight(state, t) as u32,
    }
}

// Channel c has n holders, w of them waiting: without holders it is freed.
#[tactic(auto, using(crate::proofs::Shifts::counts_put, crate::proofs::Shifts::counts_free))]
fn put_counts(state: &mut state::Words, c: usize, n: u32, w: u32)
    ensures { state_of state.new ≡ row_counted (state_of state.old) c n w }
{
    if n == 0 {
        state::put_channel(state, c, state::TYPE, 0);
        state::put_channel(state, c, state::COUNT, 0);
        state::put_channel(state, c, state::WAITERS, 0);
    } else {
        state::put_channel(state, c, state::COUNT, n);
        state::put_channel(state, c, state::WAITERS, w);
    }
}

// Channel c's counts go up by dn and dw, around the end; at 0 it is freed. There is no channel 128, and nothing is done for it.
#[tactic(auto, using(crate::proofs::Shifts::shift_in, crate::proofs::Shifts::shift_out))]
fn shift(state: &mut state::Words, c: usize, dn: u32, dw: u32)
    ensures { state_of state.new ≡ channel_shifted (state_of state.old) c dn dw }
{
    if c < CHANNELS {
        let n = numbers::add(state::channel_word(state, c, state::COUNT), dn);
        let w = numbers::add(state::channel_word(state, c, state::WAITERS), dw);
        put_counts(state, c, n, w);
    }
}

// The counts of the channels of a list go up by dn and dw, around the end.
fn shift_listed(state: &mut state::Words, list: &[u8], dn: u32, dw: u32)
    ensures { state_of state.new ≡ shifted_to (state_of state.old) list.now dn dw (length list.now) }
{
    for c in list {
        shift(state, *c as usize, dn, dw);
    }
}

// Thread t's row has been written: it is counted at each channel that it holds.
#[tactic(auto, unfolding(crate::specs::Shift::row_entered), using(crate::proofs::Shifts::shifted_part))]
fn enter(table: &Table, state: &mut state::Words, t: u32)
    ensures { state_of state.new ≡ row_entered table.now (state_of state.old) t }
{
    let own = holding::own_channels(table, state, t);
    let w = holding::weight(state, t) as u32;
    shift_listed(state, &own.list[..own.count as usize], 1, w);
}

// A row that was noted is gone: channels that nobody holds any more are freed.
#[tactic(auto, unfolding(crate::specs::Shift::row_left))]
fn leave(state: &mut state::Words, noted: &Noted)
    ensures { state_of state.new ≡ row_left (state_of state.old) noted.now.list noted.now.waited }
{
    let dw = numbers::subtract(0, noted.waited);
    shift_listed(state, &noted.list, state::MINUS_ONE, dw);
}

// Thread t's row has been written, and the row before it was noted.
#[tactic(auto, unfolding(crate::specs::Shift::settled_one))]
pub fn settle_one(table: &Table, state: &mut state::Words, t: u32, noted: &Noted)
    ensures { state_of state.new ≡ settled_one table.now (state_of state.old) t noted.now.list noted.now.waited }
{
    enter(table, state, t);
    leave(state, noted);
}

// The rows of threads t and u have been written, and the rows before them were noted.
#[tactic(auto, unfolding(crate::specs::Shift::settled_two))]
pub fn settle_two(
    table: &Table,
    state: &mut state::Words,
    t: u32,
    u: u32,
    noted: &Noted,
    other: &Noted,
)
    ensures { state_of state.new
        ≡ settled_two table.now (state_of state.old) t u noted.now.list noted.now.waited other.now.list other.now.waited }
{
    enter(table, state, t);
    enter(table, state, u);
    leave(state, noted);
    leave(state, other);
}

// Thread t's row and the type of channel c, which was free, have been written, and the row before was noted. Where the new row does not hold c it is
// free again.
#[tactic(auto, unfolding(crate::specs::Shift::settled_new))]
pub fn settle_new(table: &Table, state: &mut state::Words, t: u32, c: u32, noted: &Noted)
    ensures { state_of state.new ≡ settled_new table.now (state_of state.old) t c noted.now.list noted.now.waited }
{
    enter(table, state, t);
    shift(state, c as usize, 0, 0);
    leave(state, noted);
}

// Thread t holds what it held, and has begun to wait or ceased to: the counts of waiting holders of its channels go up by dw, around the end.
#[tactic(auto, unfolding(crate::specs::Shift::row_weighed), using(crate::proofs::Shifts::shifted_part))]
pub fn shift_waiting(table: &Table, state: &mut state::Words, t: u32, dw: u32)
    ensures { state_of state.new ≡ row_weighed table.now (state_of state.old) t dw }
{
    let own = holding::own_channels(table, state, t);
    shift_listed(state, &own.list[..own.count as usize], 0, dw);
}
