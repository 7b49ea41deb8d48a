// The listing of a procedure file, made in a buffer: the file is loaded, run and collected, and what came of it is printed in columns of six characters.
#![tactic(auto)]

ghost use Rattle.std.specs.Prelude.{◌≡◌, true, ◌+◌, ◌*◌, ◌<◌, ◌≤◌, length, take, drop};
ghost use Rattle.std.proofs.lemmas.List.Edits.{sets};
ghost use Rattle.table.specs.Table.{table_of};
ghost use Rattle.loader.specs.Load.{accepted};
ghost use Rattle.state.specs.State.{state_of};
ghost use Rattle.rules.specs.Holding.{settled};
ghost use Rattle.rules.specs.Calls.{turned, take_turn, course_of};
ghost use Rattle.rules_laws.specs.Granted.{Granted};
ghost use Rattle.rules_laws.specs.Soundness.{Sound};
ghost use Rattle.listing_text.specs.Listing.{max_steps, step_lines, run_lines, listing};
ghost use Rattle.listing_text.specs.Laying.{past, shown_turn, ended, end_of};

use loader::LoadRefusal;
use rules::Reason;
use std::ops::ControlFlow;
use table::Table;

const STEPS: u32 = 1000;

// The characters of a step's line, and of the heading.
const STEP: usize = 37;

// The characters of the longest listing: the heading and 1,000 steps, the closing line, and 64 threads collected.
pub const LONGEST: usize = 37900;

// How a run ended: its steps, and why.
#[derive(Clone, Copy)]
struct Run {
    steps: u32,
    reason: Reason,
}

// One turn of a run that has made i steps: the next ready thread makes its step, and the turn moves past it. The line of the step is laid behind those before.
fn list_turn(
    table: &Table,
    state: &mut state::Words,
    out: &mut [u8; LONGEST],
    i: u32,
) -> ControlFlow<Reason>
    requires granted { Granted table.now }
    requires sound { Sound table.now (state_of state.old) }
    requires i_lt_max_steps { i < max_steps }
    ensures state_after { turned result (state_of state.new) ≡ take_turn table.now (state_of state.old) }
    ensures sound_after { Sound table.now (state_of state.new) }
    ensures out_after { out.new ≡ sets out.old (past i) (shown_turn result table.now i (state_of state.old)) }
{
    let t = next_rows::next_ready(state, state::THREADS);
    if t < state::THREADS {
        let node = state::stands_at(state, t);
        let round = turns::turn_of(table, state, t, state::THREADS);
        turns::settle_waiting(table, state);
        let m = round.decided;
        listing_lines::put_step(
            out,
            STEP + i as usize * STEP,
            i + 1,
            t,
            turns::step_answer(node, m),
        );
        round.turn
    } else {
        ControlFlow::Break(Reason::NoneReady)
    }
}

// At most 1,000 turns, and the lines of their steps behind the heading.
fn list_steps(table: &Table, state: &mut state::Words, out: &mut [u8; LONGEST]) -> Run
    requires granted { Granted table.now }
    requires sound { Sound table.now (state_of state.old) }
    ensures state_after { ended result (state_of state.new) ≡ course_of table.now max_steps (state_of state.old) }
    ensures sound_after { Sound table.now (state_of state.new) }
    ensures steps_value { result.steps * 37 ≡ length (step_lines table.now (state_of state.old)) }
    ensures out_after { out.new ≡ sets out.old 37 (step_lines table.now (state_of state.old)) }
{
    for i in 0..STEPS {
        if let ControlFlow::Break(reason) = list_turn(table, state, out, i) {
            return Run { steps: i, reason };
        }
    }
    Run {
        steps: STEPS,
        reason: Reason::AllDone,
    }
}

// A collection after a run: the closing line, and the lines of the threads that it takes. Answers the place behind them.
fn list_end(table: &Table, state: &mut state::Words, out: &mut [u8; LONGEST], run: Run) -> usize
    requires state_value { settled table.now (state_of state.old) ≡ state_of state.old }
    requires steps_le_max_steps { run.steps ≤ max_steps }
    ensures value { result ≡ past run.steps + length (end_of table.now run (state_of state.old)) }
    ensures out_after { out.new ≡ sets out.old (past run.steps) (end_of table.now run (state_of state.old)) }
{
    let before = *state;
    let count = collector::collect_in(table, state);
    let why = run.reason;
    let reason = interface::reason_number(why);
    let held_up = interface::held_up_number(why);
    let used = listing_lines::channels_in_use(state);
    let row = [run.steps, reason, held_up, count, used];
    let end = listing_lines::put_line(out, STEP + run.steps as usize * STEP, &row);
    listing_lines::list_gone(out, end, &before, state)
}

// The listing of an accepted table: the heading, the run from the state with which the table starts, and what follows it. Answers its length.
fn list_table(table: &[u8], out: &mut [u8; LONGEST]) -> usize
    requires { accepted table.now ≡ true }
    ensures value { result ≡ length (run_lines (table_of table.now)) }
    ensures out_after { out.new ≡ sets out.old 0 (run_lines (table_of table.now)) }
{
    let mut index = [0u32; table::INDEX];
    let mut gaps = [0u32; loader::GAPS];
    let Some(accepted) = loader::accept(table, &mut index, &mut gaps) else {
        return 0;
    };
    let table = accepted.table();
    let mut state = [0u32; state::WORDS];
    starts::write_started(table, &mut state);
    listing_lines::put_heading(out);
    let run = list_steps(table, &mut state, out);
    list_end(table, &mut state, out, run)
}

// The listing of a file, at the front of a buffer. Answers how many characters it has; what stands behind them in the buffer stays.
pub fn list(file: &[u8], out: &mut [u8; LONGEST]) -> usize
    ensures value { result ≡ length (listing file.now) }
    ensures out_after { take result out.new ≡ listing file.now }
    ensures out_unchanged { drop result out.new ≡ drop result out.old }
{
    let mut table = [0u8; table::BYTES];
    match loader::load(file, &mut table) {
        Err(LoadRefusal::FileRefused(ground, fault)) => listing_lines::list_refusal(
            out, ground, fault,
        ),
        Ok(()) => list_table(&table, out),
        Err(LoadRefusal::WrongLength) => 0,
    }
}
