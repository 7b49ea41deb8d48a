// Marks the enabled threads of a state, in rounds over all threads. Which threads are enabled stands in specs/Enabled.antt.
#![tactic(auto)]

ghost use Rattle.std.specs.Prelude.{◌≡◌, false, ◌+◌, ◌≤◌, get_or};
ghost use Rattle.numbers.specs.Count.{bit};
ghost use Rattle.table.specs.Table.{ports};
ghost use Rattle.state.specs.State.{max_threads, state_of, thread};
ghost use Rattle.marking.specs.Enabled.{nobody, enabled_set};
ghost use Rattle.marking.specs.Marking.{ports_to, comes, marked_if, known_if, Marking, Still, unmarked};

use table::Table;

// Mark i of a list of marks; false outside.
pub fn mark_at(list: &[bool], i: usize) -> bool
    ensures { result ≡ get_or list.now i false }
{
    numbers::item_at(list, i, false)
}

// Whether thread t is to be marked now: it is not marked, and it is ready or has an offer on a channel that is known.
#[tactic(auto, unfolding(crate::specs::Marking::comes))]
fn joins_now(
    table: &Table,
    state: &state::Words,
    t: u32,
    marks: &[bool; state::THREADS as usize],
    known: &[bool; state::CHANNELS as usize],
) -> bool
    ensures { result ≡ comes table.now (state_of state.now) marks.now known.now t }
{
    !mark_at(marks, t as usize)
        && (engine::status_of(state, t) == state::READY
            || engine::offers_marked(table, state, t, known))
}

// Thread t is marked if it is to be, and the channels that it holds become known. Answers whether it was.
#[tactic(auto, unfolding(crate::specs::Marking::marked_if, crate::specs::Marking::known_if))]
fn visit(
    table: &Table,
    state: &state::Words,
    t: u32,
    marks: &mut [bool; state::THREADS as usize],
    known: &mut [bool; state::CHANNELS as usize],
) -> bool
    ensures value { result ≡ comes table.now (state_of state.now) marks.old known.old t }
    ensures marks_after { marks.new ≡ marked_if result marks.old t }
    ensures known_after { known.new ≡ known_if result table.now (thread (state_of state.now) t) known.old }
{
    let joins = joins_now(table, state, t, marks, known);
    if joins {
        numbers::put_item(marks, t as usize, true);
        engine::mark_held(table, state, t, known);
    }
    joins
}

// One round over the threads. Answers whether it marked one; where it did not, none is left to be marked.
fn round(
    table: &Table,
    state: &state::Words,
    marks: &mut [bool; state::THREADS as usize],
    known: &mut [bool; state::CHANNELS as usize],
) -> bool
    requires marking { Marking table.now (state_of state.now) marks.old known.old }
    ensures marking_after { Marking table.now (state_of state.now) marks.new known.new }
    ensures result_bound { unmarked marks.new + bit result ≤ unmarked marks.old }
    ensures still { result ≡ false → Still table.now (state_of state.now) marks.new known.new max_threads }
{
    let mut changed = false;
    for t in 0..state::THREADS {
        changed |= visit(table, state, t, marks, known);
    }
    changed
}

// The channels that are known from the first, the ports: the bench holds them, whoever else does.
fn known_ports(table: &Table) -> [bool; state::CHANNELS as usize]
    ensures { result ≡ ports_to (ports table.now) }
{
    let mut known = [false; state::CHANNELS as usize];
    let n = engine::port_count(table);
    for c in 0..n {
        numbers::put_item(&mut known, c as usize, true);
    }
    known
}

// The marks of the enabled threads: rounds, until one marks nobody.
pub fn mark_enabled(table: &Table, state: &state::Words) -> [bool; state::THREADS as usize]
    ensures { result ≡ enabled_set table.now (state_of state.now) nobody }
{
    let mut marks = [false; state::THREADS as usize];
    let mut known = known_ports(table);
    while round(table, state, &mut marks, &mut known) {}
    marks
}
