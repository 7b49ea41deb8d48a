// The collector: it frees the rows of the threads that are not enabled.
#![tactic(auto)]

ghost use Rattle.std.specs.Prelude.{◌≡◌, ◌<◌};
ghost use Rattle.numbers.specs.Count.{bit};
ghost use Rattle.state.specs.State.{state_of};
ghost use Rattle.rules.specs.Holding.{settled};
ghost use Rattle.rules.specs.Calls.{outcome};
ghost use Rattle.marking.specs.Enabled.{nobody, enabled_set};
ghost use Rattle.collector.specs.Collect.{collected, taken_count, seated_collect};
ghost use Rattle.collector.specs.Freeing.{leaves, freed_by};

use rules::{Refusal, Right};
use table::Table;

// Thread t is freed if its row is in use and it is not marked. Answers how many were freed.
#[tactic(auto, unfolding(crate::specs::Freeing::leaves, crate::specs::Freeing::freed_by, numbers::specs::Count::bit))]
fn take_thread(
    table: &Table,
    state: &mut state::Words,
    t: u32,
    marks: &[bool; state::THREADS as usize],
) -> u32
    requires { settled table.now (state_of state.old) ≡ state_of state.old }
    ensures value { result ≡ bit (leaves (state_of state.old) marks.now t) }
    ensures state_after { state_of state.new ≡ freed_by table.now (state_of state.old) marks.now t }
    ensures stays_settled { settled table.now (state_of state.new) ≡ state_of state.new }
{
    if engine::status_of(state, t) == state::FREE || marking::mark_at(marks, t as usize) {
        0
    } else {
        engine::release(table, state, t);
        1
    }
}

// Every thread that is not marked is freed. Answers how many were.
fn take_unmarked(
    table: &Table,
    state: &mut state::Words,
    marks: &[bool; state::THREADS as usize],
) -> u32
    requires state_value { settled table.now (state_of state.old) ≡ state_of state.old }
    requires marks_value { marks.now ≡ enabled_set table.now (state_of state.old) nobody }
    ensures value { result ≡ taken_count table.now (state_of state.old) }
    ensures state_after { state_of state.new ≡ collected table.now (state_of state.old) }
{
    let mut count = 0u32;
    for t in 0..state::THREADS {
        count += take_thread(table, state, t, marks);
    }
    count
}

// A collection on the words of a state. Answers how many threads it took.
pub fn collect_in(table: &Table, state: &mut state::Words) -> u32
    requires state_value { settled table.now (state_of state.old) ≡ state_of state.old }
    ensures value { result ≡ taken_count table.now (state_of state.old) }
    ensures state_after { state_of state.new ≡ collected table.now (state_of state.old) }
{
    let marks = marking::mark_enabled(table, state);
    take_unmarked(table, state, &marks)
}

// A collection, made at a seat.
#[tactic(auto, unfolding(crate::specs::Collect::seated_collect, crate::specs::Collect::collect_call, crate::specs::Collect::collect_on, rules::specs::Seats::at_seat, rules::specs::Seats::by_seat, rules::specs::Calls::on_buffers, rules::specs::Calls::by_admission), using(engine::specs::Admitted::judged_length, engine::specs::Admitted::judged_admission))]
pub fn collect(table: &[u8], state: &mut [u8], rights: &[u8], seat: u32) -> Result<u32, Refusal>
    ensures { outcome result state.new ≡ seated_collect table.now state.old rights.now seat }
{
    let mut index = [0u32; table::INDEX];
    let mut gaps = [0u32; engine::GAPS];
    let flow = engine::admit_seat(
        table,
        state,
        rights,
        seat,
        Right::Collect,
        &mut index,
        &mut gaps,
    )?;
    let mut words = [0u32; state::WORDS];
    engine::admit_state(&flow, state, &mut words)?;
    let table = flow.into_table();
    let count = collect_in(&table, &mut words);
    engine::write(&words, state);
    Ok(count)
}
