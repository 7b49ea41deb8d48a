// What programs beside Rattle call of the driver: each function hands its arguments to the one of the same name in the crate `driver`, whose clauses it has. `rt lib`
// makes the archive of this crate.
#![tactic(auto)]

ghost use Rattle.std.specs.Prelude.{◌≡◌};
ghost use Rattle.numbers.specs.Bytes.{words};
ghost use Rattle.guarantee.specs.SeatedClaim.{after_seats};
ghost use Rattle.driver.specs.WorkedFile.{worked_to, worked_file};
ghost use Rattle.driver.specs.Restore.{restored_to, restored};
ghost use Rattle.driver.specs.ProfiledStart.{begun_to, begun};
ghost use Rattle.driver.specs.Encoding.{calls_of, answers_to, written_from};

use driver::Opening;

#[unsafe(no_mangle)]
pub extern "C" fn driver_work_list(
    table: &[u8],
    state: &mut [u8],
    lists: &[u8],
    calls: &[u8],
    answers: &mut [u8],
)
    ensures state_after { state.new ≡ after_seats table.now state.old (calls_of lists.now calls.now) }
    ensures answers_after { words answers.new ≡ written_from (words answers.old) 0
        (answers_to table.now state.old (calls_of lists.now calls.now)) }
{
    driver::driver_work_list(table, state, lists, calls, answers)
}

#[unsafe(no_mangle)]
pub extern "C" fn driver_work_file(
    file: &[u8],
    table: &mut [u8],
    state: &mut [u8],
    lists: &[u8],
    calls: &[u8],
    answers: &mut [u8],
) -> Opening
    ensures { worked_to result table.new state.new (words answers.new)
        ≡ worked_file file.now table.old state.old lists.now calls.now (words answers.old) }
{
    driver::driver_work_file(file, table, state, lists, calls, answers)
}

#[unsafe(no_mangle)]
pub extern "C" fn driver_restore(table: &[u8], file: &mut [u8], other: &mut [u8]) -> i32
    ensures { restored_to result file.new other.new ≡ restored table.now file.old other.old }
{
    driver::driver_restore(table, file, other)
}

#[unsafe(no_mangle)]
pub extern "C" fn driver_start_profiled(table: &[u8], state: &mut [u8]) -> i32
    ensures { begun_to result state.new ≡ begun table.now state.old }
{
    driver::driver_start_profiled(table, state)
}
