// The calls that C makes, by way of the crate `pithread_c`. Numbers and byte buffers go in, numbers come back. Each call makes that of the layer below, and gives
// its answer in the numbers of document 01.
#![tactic(auto)]

ghost use Rattle.std.specs.Prelude.{◌≡◌};
ghost use Rattle.interface.specs.Interface.{loaded_to, load_result, written_to, write_result, profile_result, result as answered};
ghost use Rattle.interface.specs.Interface.{start_result, step_result, give_result, take_result, run_result, collect_result};

use interface::{
    CollectAnswer, GiveAnswer, LoadAnswer, ProfileAnswer, RunAnswer, StartAnswer, StepAnswer,
    TakeAnswer, WriteAnswer,
};

pub fn pithread_load(file: &[u8], table: &mut [u8]) -> LoadAnswer
    ensures { loaded_to result table.new ≡ load_result file.now table.old }
{
    let answer = loader::load(file, table);
    let refusal = interface::refusal_number(answer);
    let line = interface::line_number(answer);
    LoadAnswer {
        refusal: refusal as i32,
        line: line as i32,
    }
}

pub fn pithread_write(table: &[u8], file: &mut [u8]) -> WriteAnswer
    ensures { written_to result file.new ≡ write_result table.now file.old }
{
    let answer = writer::write(table, file);
    let refusal = interface::write_refusal(answer);
    let bytes = interface::bytes_number(answer);
    WriteAnswer {
        refusal: refusal as i32,
        bytes: bytes as i32,
    }
}

#[tactic(auto, unfolding(interface::specs::Interface::profile_result))]
pub fn pithread_profile(table: &[u8]) -> ProfileAnswer
    ensures { result ≡ profile_result table.now }
{
    interface::profile_numbers(profile::profile(table))
}

pub fn pithread_start(table: &[u8], state: &mut [u8]) -> StartAnswer
    ensures { answered result state.new ≡ start_result table.now state.old }
{
    interface::start_numbers(engine::start(table, state))
}

pub fn pithread_step(
    table: &[u8],
    state: &mut [u8],
    rights: &[u8],
    seat: u32,
    thread: u32,
) -> StepAnswer
    ensures { answered result state.new ≡ step_result table.now state.old rights.now seat thread }
{
    interface::step_numbers(engine::step(table, state, rights, seat, thread))
}

pub fn pithread_give(
    table: &[u8],
    state: &mut [u8],
    rights: &[u8],
    seat: u32,
    port: u32,
    number: i32,
) -> GiveAnswer
    ensures { answered result state.new ≡ give_result table.now state.old rights.now seat port number }
{
    let given = numbers::pattern(number);
    interface::give_numbers(engine::give(table, state, rights, seat, port, given))
}

pub fn pithread_take(
    table: &[u8],
    state: &mut [u8],
    rights: &[u8],
    seat: u32,
    port: u32,
) -> TakeAnswer
    ensures { answered result state.new ≡ take_result table.now state.old rights.now seat port }
{
    interface::take_numbers(engine::take(table, state, rights, seat, port))
}

pub fn pithread_run(table: &[u8], state: &mut [u8], rights: &[u8], seat: u32, n: u16) -> RunAnswer
    ensures { answered result state.new ≡ run_result table.now state.old rights.now seat n }
{
    interface::run_numbers(engine::run(table, state, rights, seat, n))
}

pub fn pithread_collect(table: &[u8], state: &mut [u8], rights: &[u8], seat: u32) -> CollectAnswer
    ensures { answered result state.new ≡ collect_result table.now state.old rights.now seat }
{
    interface::collect_numbers(collector::collect(table, state, rights, seat))
}
