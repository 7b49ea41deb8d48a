// The calls of the engine: start, and at a seat step, give, take, run. Each judges its buffers first, and a call that is refused writes nothing. A layer above,
// which works on the words of an admitted state, has the two parts of the admission, what it may ask of a thread, the release of a thread and the
// writing of the words from here.
#![tactic(auto)]

ghost use Rattle.std.specs.Prelude.{◌≡◌, cond, length, replicate, Err, Ok, IfOk};
ghost use Rattle.numbers.specs.Bytes.{words as words_of};
ghost use Rattle.table.specs.Table.{max_nodes};
ghost use Rattle.table.specs.Index.{index_length};
ghost use Rattle.state.specs.State.{state_length, state_of, view};
ghost use Rattle.rules.specs.Sound.{sound};
ghost use Rattle.rules.specs.Calls.{outcome, lengths_right, start_admission, start_call};
ghost use Rattle.rules.specs.Seats.{seat_admission, seated_step, seated_give, seated_take, seated_run};
ghost use Rattle.rules_laws.specs.Soundness.{Sound};
ghost use Rattle.engine.specs.Admitted.{Seen, admission_by};

use flow::Flow;
pub use loader::GAPS;
use rules::{Deed, Reason, Refusal, Right};
pub use state::{WORDS, write};
pub use threads::{mark_held, offers_marked, port_count, release, status_of};

// Ground 8.
#[tactic(auto, unfolding(rules::specs::Calls::lengths_right))]
fn lengths_right(table: &[u8], state: &[u8]) -> bool
    ensures { result ≡ lengths_right table.now state.now }
{
    table.len() == table::BYTES && state.len() == state::BYTES
}

// Grounds 8 and 9. The table that is admitted comes with its index and the gaps of its flow, which are laid into `index` and `gaps`; both come as zeros.
#[tactic(auto, unfolding(rules::specs::Calls::start_admission, crate::specs::Admitted::Judged), using(crate::specs::Admitted::judged_granted))]
fn admit_start<'a, 'b>(
    table: &'a [u8],
    state: &[u8],
    index: &'a mut [u32],
    gaps: &'b mut [u32],
) -> Result<Flow<'a, 'b>, Refusal>
    requires index_value { index.old ≡ replicate index_length 0 }
    requires gaps_value { gaps.old ≡ replicate max_nodes 0 }
    ensures value { admission_by result ≡ start_admission table.now state.now }
    ensures admitted { IfOk result (λ seen. Seen table.now state.now seen) }
{
    if lengths_right(table, state) {
        loader::accept(table, index, gaps).ok_or(Refusal::Table)
    } else {
        Err(Refusal::Length)
    }
}

// Grounds 8, 9, 18 and 19, of a call that asks its seat for a right. Of the state its length is looked at and nothing else. The table that is admitted comes with
// its index and the gaps of its flow, which are laid into `index` and `gaps`; both come as zeros.
#[tactic(auto, unfolding(rules::specs::Seats::seat_admission, rules::specs::Calls::and_then))]
pub fn admit_seat<'a, 'b>(
    table: &'a [u8],
    state: &[u8],
    rights: &[u8],
    seat: u32,
    right: Right,
    index: &'a mut [u32],
    gaps: &'b mut [u32],
) -> Result<Flow<'a, 'b>, Refusal>
    requires index_value { index.old ≡ replicate index_length 0 }
    requires gaps_value { gaps.old ≡ replicate max_nodes 0 }
    ensures value { admission_by result ≡ seat_admission table.now state.now rights.now seat right }
    ensures admitted { IfOk result (λ seen. Seen table.now state.now seen) }
{
    if rights.len() != seats::BYTES {
        return Err(Refusal::Length);
    }
    let flow = admit_start(table, state, index, gaps)?;
    seats::admit(rights, seat, right)?;
    Ok(flow)
}

// Ground 10, where grounds 8 and 9 do not refuse. Of a sound state the words are left in `words`.
pub fn admit_state(flow: &Flow, state: &[u8], words: &mut state::Words) -> Result<(), Refusal>
    requires { length state.now ≡ state_length }
    ensures value { result ≡ cond (sound flow.now (view state.now)) (Ok tt) (Err Refusal.State) }
    ensures words_after { result ≡ Ok tt → words.new ≡ words_of state.now }
    ensures sound { result ≡ Ok tt → Sound flow.now (state_of words.new) }
{
    // The length is asked once more for the compiler, which then tests it at no look-up.
    if state.len() != state::BYTES {
        return Err(Refusal::Length);
    }
    state::read(state, words);
    if sound::is_sound(flow, words) {
        Ok(())
    } else {
        Err(Refusal::State)
    }
}

// Writes the state with which a table starts.
#[tactic(auto, unfolding(rules::specs::Calls::start_call, rules::specs::Calls::start_admission, rules::specs::Calls::start_on, rules::specs::Calls::by_admission), using(crate::specs::Admitted::judged_length))]
pub fn start(table: &[u8], state: &mut [u8]) -> Result<(), Refusal>
    ensures { outcome result state.new ≡ start_call table.now state.old }
{
    let mut index = [0u32; table::INDEX];
    let mut gaps = [0u32; GAPS];
    let flow = admit_start(table, state, &mut index, &mut gaps)?;
    let mut words = [0u32; state::WORDS];
    starts::write_started(flow.table(), &mut words);
    state::write(&words, state);
    Ok(())
}

// The calls at a seat, `step` to `run`, declare the words of the state behind the seat's admission: to declare them clears 6,156 bytes, which a call that its
// seat may not make does not pay for.

// A step of thread t, made at a seat.
#[tactic(auto, unfolding(rules::specs::Seats::seated_step, rules::specs::Calls::step_call, rules::specs::Seats::at_seat, rules::specs::Seats::by_seat, rules::specs::Calls::on_buffers, rules::specs::Calls::by_admission), using(crate::specs::Admitted::judged_length, crate::specs::Admitted::judged_back, crate::specs::Admitted::judged_admission, rules::specs::Calls::Laws::step_unchanged))]
pub fn step(
    table: &[u8],
    state: &mut [u8],
    rights: &[u8],
    seat: u32,
    t: u32,
) -> Result<(u32, Deed), Refusal>
    ensures { outcome result state.new ≡ seated_step table.now state.old rights.now seat t }
{
    let mut index = [0u32; table::INDEX];
    let mut gaps = [0u32; GAPS];
    let flow = admit_seat(
        table,
        state,
        rights,
        seat,
        Right::StepAndRun,
        &mut index,
        &mut gaps,
    )?;
    let mut words = [0u32; state::WORDS];
    admit_state(&flow, state, &mut words)?;
    let table = flow.into_table();
    let step = calls::step(&table, &mut words, t)?;
    state::write(&words, state);
    Ok(step)
}

// A give on port p of the number of pattern v, made at a seat.
#[tactic(auto, unfolding(rules::specs::Seats::seated_give, rules::specs::Calls::give_call, rules::specs::Seats::at_seat, rules::specs::Seats::by_seat, rules::specs::Calls::on_buffers, rules::specs::Calls::by_admission), using(crate::specs::Admitted::judged_length, crate::specs::Admitted::judged_back, crate::specs::Admitted::judged_admission, crate::proofs::Laws::given_refused, crate::proofs::Laws::given_nobody))]
pub fn give(
    table: &[u8],
    state: &mut [u8],
    rights: &[u8],
    seat: u32,
    p: u32,
    v: u32,
) -> Result<Option<u32>, Refusal>
    ensures { outcome result state.new ≡ seated_give table.now state.old rights.now seat p v }
{
    let mut index = [0u32; table::INDEX];
    let mut gaps = [0u32; GAPS];
    let flow = admit_seat(
        table,
        state,
        rights,
        seat,
        Right::Give(p),
        &mut index,
        &mut gaps,
    )?;
    let mut words = [0u32; state::WORDS];
    admit_state(&flow, state, &mut words)?;
    let table = flow.into_table();
    let met = calls::give(&table, &mut words, p, v)?;
    if met.is_some() {
        state::write(&words, state);
    }
    Ok(met)
}

// A take from port p, made at a seat.
#[tactic(auto, unfolding(rules::specs::Seats::seated_take, rules::specs::Calls::take_call, rules::specs::Seats::at_seat, rules::specs::Seats::by_seat, rules::specs::Calls::on_buffers, rules::specs::Calls::by_admission), using(crate::specs::Admitted::judged_length, crate::specs::Admitted::judged_back, crate::specs::Admitted::judged_admission, crate::proofs::Laws::taken_refused, crate::proofs::Laws::taken_nobody))]
pub fn take(
    table: &[u8],
    state: &mut [u8],
    rights: &[u8],
    seat: u32,
    p: u32,
) -> Result<Option<(u32, u32)>, Refusal>
    ensures { outcome result state.new ≡ seated_take table.now state.old rights.now seat p }
{
    let mut index = [0u32; table::INDEX];
    let mut gaps = [0u32; GAPS];
    let flow = admit_seat(
        table,
        state,
        rights,
        seat,
        Right::Take(p),
        &mut index,
        &mut gaps,
    )?;
    let mut words = [0u32; state::WORDS];
    admit_state(&flow, state, &mut words)?;
    let table = flow.into_table();
    let met = calls::take(&table, &mut words, p)?;
    if met.is_some() {
        state::write(&words, state);
    }
    Ok(met)
}

// A run of at most n steps, made at a seat.
#[tactic(auto, unfolding(rules::specs::Seats::seated_run, rules::specs::Calls::run_call, rules::specs::Seats::at_seat, rules::specs::Seats::by_seat, rules::specs::Calls::on_buffers, rules::specs::Calls::by_admission), using(crate::specs::Admitted::judged_length, crate::specs::Admitted::judged_back, crate::specs::Admitted::judged_admission))]
pub fn run(
    table: &[u8],
    state: &mut [u8],
    rights: &[u8],
    seat: u32,
    n: u16,
) -> Result<(u32, Reason), Refusal>
    ensures { outcome result state.new ≡ seated_run table.now state.old rights.now seat n }
{
    let mut index = [0u32; table::INDEX];
    let mut gaps = [0u32; GAPS];
    let flow = admit_seat(
        table,
        state,
        rights,
        seat,
        Right::StepAndRun,
        &mut index,
        &mut gaps,
    )?;
    let mut words = [0u32; state::WORDS];
    admit_state(&flow, state, &mut words)?;
    let table = flow.into_table();
    let answer = calls::run(&table, &mut words, n);
    state::write(&words, state);
    answer
}
