// What C calls: each function hands its arguments to the one of the same name in the crate `pithread`, whose clauses it has. `rt lib` makes the archive of this crate.
#![tactic(auto)]

ghost use Rattle.std.specs.Prelude.{◌≡◌};
ghost use Rattle.interface.specs.Interface.{loaded_to, load_result, written_to, write_result, profile_result, result as answered};
ghost use Rattle.interface.specs.Interface.{start_result, step_result, give_result, take_result, run_result, collect_result};

use interface::{
    CollectAnswer, GiveAnswer, LoadAnswer, ProfileAnswer, RunAnswer, StartAnswer, StepAnswer,
    TakeAnswer, WriteAnswer,
};

#[unsafe(no_mangle)]
pub extern "C" fn pithread_load(file: &[u8], table: &mut [u8]) -> LoadAnswer
    ensures { loaded_to result table.new ≡ load_result file.now table.old }
{
    pithread::pithread_load(file, table)
}

#[unsafe(no_mangle)]
pub extern "C" fn pithread_write(table: &[u8], file: &mut [u8]) -> WriteAnswer
    ensures { written_to result file.new ≡ write_result table.now file.old }
{
    pithread::pithread_write(table, file)
}

#[unsafe(no_mangle)]
pub extern "C" fn pithread_profile(table: &[u8]) -> ProfileAnswer
    ensures { result ≡ profile_result table.now }
{
    pithread::pithread_profile(table)
}

#[unsafe(no_mangle)]
pub extern "C" fn pithread_start(table: &[u8], state: &mut [u8]) -> StartAnswer
    ensures { answered result state.new ≡ start_result table.now state.old }
{
    pithread::pithread_start(table, state)
}

#[unsafe(no_mangle)]
pub extern "C" fn pithread_step(
    table: &[u8],
    state: &mut [u8],
    rights: &[u8],
    seat: u32,
    thread: u32,
) -> StepAnswer
    ensures { answered result state.new ≡ step_result table.now state.old rights.now seat thread }
{
    pithread::pithread_step(table, state, rights, seat, thread)
}

#[unsafe(no_mangle)]
pub extern "C" fn pithread_give(
    table: &[u8],
    state: &mut [u8],
    rights: &[u8],
    seat: u32,
    port: u32,
    number: i32,
) -> GiveAnswer
    ensures { answered result state.new ≡ give_result table.now state.old rights.now seat port number }
{
    pithread::pithread_give(table, state, rights, seat, port, number)
}

#[unsafe(no_mangle)]
pub extern "C" fn pithread_take(
    table: &[u8],
    state: &mut [u8],
    rights: &[u8],
    seat: u32,
    port: u32,
) -> TakeAnswer
    ensures { answered result state.new ≡ take_result table.now state.old rights.now seat port }
{
    pithread::pithread_take(table, state, rights, seat, port)
}

#[unsafe(no_mangle)]
pub extern "C" fn pithread_run(
    table: &[u8],
    state: &mut [u8],
    rights: &[u8],
    seat: u32,
    n: u16,
) -> RunAnswer
    ensures { answered result state.new ≡ run_result table.now state.old rights.now seat n }
{
    pithread::pithread_run(table, state, rights, seat, n)
}

#[unsafe(no_mangle)]
pub extern "C" fn pithread_collect(
    table: &[u8],
    state: &mut [u8],
    rights: &[u8],
    seat: u32,
) -> CollectAnswer
    ensures { answered result state.new ≡ collect_result table.now state.old rights.now seat }
{
    pithread::pithread_collect(table, state, rights, seat)
}
