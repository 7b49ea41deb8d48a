// Works a whole list of calls, which lies in a buffer, by the functions that C calls, and lays their answers into another buffer, from a state or from a
// procedure file that it loads and starts; writes a table and loads it again; and starts a table that keeps to the rental-shop profile. What this ensures
// follows from the contracts of those functions alone: a contract that says less, or something else, leaves it unproved.
#![tactic(auto)]

ghost use Rattle.std.specs.Prelude.{◌≡◌, ◌<◌, set};
ghost use Rattle.std.specs.Int.{w32};
ghost use Rattle.std.proofs.Common.{of_z};
ghost use Rattle.numbers.specs.Bytes.{words};
ghost use Rattle.engine_laws.specs.Lists.{step as Step, give as Give, take as Take, run as Run};
ghost use Rattle.guarantee.specs.Claim.{on, collect as Collect};
ghost use Rattle.guarantee.specs.SeatedClaim.{after_by, after_seat, after_seats};
ghost use Rattle.interface.specs.Interface.{load_result, start_result, written_to, write_result, profile_result};
ghost use Rattle.driver.specs.WorkedFile.{load_opening, start_opening, worked_to, worked_file};
ghost use Rattle.driver.specs.Restore.{restored_to, restored};
ghost use Rattle.driver.specs.ProfiledStart.{begun_to, begun};
ghost use Rattle.driver.specs.Encoding.{pattern, pattern_small, call_by, part_of, record_at, calls_of, answer_to, answer_at, answers_to, words_of, written_from};

use interface::{ProfileAnswer, WriteAnswer};

// The numbers of an answer in their order: the refusal, then those that the call has, then 0.
#[derive(Clone, Copy)]
pub struct Answer {
    pub refusal: i32,
    pub second: i32,
    pub third: i32,
    pub fourth: i32,
    pub fifth: i32,
}

// How a file or a table began: the refusal, and the line at fault or 0.
#[repr(C)]
#[derive(Clone, Copy)]
pub struct Opening {
    pub refusal: i32,
    pub line: i32,
}

// The functions `load`, `start`, `write` and `profile` each make one call by the exported function: a contract that strays is refused there.
#[tactic(auto, unfolding(crate::specs::WorkedFile::load_opening), using(crate::proofs::Numbers::number_back))]
fn load(file: &[u8], table: &mut [u8]) -> Opening
    ensures table_after { table.new ≡ (load_result file.now table.old).table }
    ensures value { result ≡ load_opening (load_result file.now table.old).answer }
{
    let answer = pithread::pithread_load(file, table);
    Opening {
        refusal: answer.refusal,
        line: answer.line,
    }
}

#[tactic(auto, unfolding(crate::specs::WorkedFile::start_opening), using(crate::proofs::Numbers::number_back))]
fn start(table: &[u8], state: &mut [u8]) -> Opening
    ensures state_after { state.new ≡ (start_result table.now state.old).state }
    ensures value { result ≡ start_opening (start_result table.now state.old).answer }
{
    let answer = pithread::pithread_start(table, state);
    Opening {
        refusal: answer.refusal,
        line: 0,
    }
}

fn write(table: &[u8], file: &mut [u8]) -> WriteAnswer
    ensures { written_to result file.new ≡ write_result table.now file.old }
{
    pithread::pithread_write(table, file)
}

fn profile(table: &[u8]) -> ProfileAnswer
    ensures { result ≡ profile_result table.now }
{
    pithread::pithread_profile(table)
}

// The functions `step`, `give`, `take`, `run` and `collect` each make one call at a seat by the exported function, and put its numbers in their order.
#[tactic(auto, unfolding(crate::specs::Encoding::answer_to, crate::specs::Encoding::stepped, guarantee::specs::SeatedClaim::after_by, interface::specs::Interface::step_result, interface::specs::Interface::in_numbers), using(crate::proofs::Numbers::number_back))]
fn step(table: &[u8], state: &mut [u8], rights: &[u8], seat: u32, thread: u32) -> Answer
    ensures state_after { state.new ≡ after_by table.now state.old rights.now seat (on (Step thread)) }
    ensures value { result ≡ answer_to table.now state.old rights.now seat (on (Step thread)) }
{
    let answer = pithread::pithread_step(table, state, rights, seat, thread);
    Answer {
        refusal: answer.refusal,
        second: answer.node,
        third: answer.act,
        fourth: answer.branch,
        fifth: answer.partner,
    }
}

#[tactic(auto, unfolding(crate::specs::Encoding::answer_to, crate::specs::Encoding::given, guarantee::specs::SeatedClaim::after_by, interface::specs::Interface::give_result, interface::specs::Interface::in_numbers), using(crate::proofs::Numbers::number_back))]
fn give(table: &[u8], state: &mut [u8], rights: &[u8], seat: u32, port: u32, number: u32) -> Answer
    ensures state_after { state.new ≡ after_by table.now state.old rights.now seat (on (Give port (pattern number) (pattern_small number))) }
    ensures value { result ≡ answer_to table.now state.old rights.now seat (on (Give port (pattern number) (pattern_small number))) }
{
    let answer = pithread::pithread_give(table, state, rights, seat, port, numbers::signed(number));
    Answer {
        refusal: answer.refusal,
        second: answer.thread,
        third: 0,
        fourth: 0,
        fifth: 0,
    }
}

#[tactic(auto, unfolding(crate::specs::Encoding::answer_to, crate::specs::Encoding::taken, guarantee::specs::SeatedClaim::after_by, interface::specs::Interface::take_result, interface::specs::Interface::in_numbers), using(crate::proofs::Numbers::number_back))]
fn take(table: &[u8], state: &mut [u8], rights: &[u8], seat: u32, port: u32) -> Answer
    ensures state_after { state.new ≡ after_by table.now state.old rights.now seat (on (Take port)) }
    ensures value { result ≡ answer_to table.now state.old rights.now seat (on (Take port)) }
{
    let answer = pithread::pithread_take(table, state, rights, seat, port);
    Answer {
        refusal: answer.refusal,
        second: answer.thread,
        third: answer.number,
        fourth: 0,
        fifth: 0,
    }
}

#[tactic(auto, unfolding(crate::specs::Encoding::answer_to, crate::specs::Encoding::ran, guarantee::specs::SeatedClaim::after_by, interface::specs::Interface::run_result, interface::specs::Interface::in_numbers), using(crate::proofs::Numbers::number_back))]
fn run(table: &[u8], state: &mut [u8], rights: &[u8], seat: u32, n: u16) -> Answer
    ensures state_after { state.new ≡ after_by table.now state.old rights.now seat (on (Run n)) }
    ensures value { result ≡ answer_to table.now state.old rights.now seat (on (Run n)) }
{
    let answer = pithread::pithread_run(table, state, rights, seat, n);
    Answer {
        refusal: answer.refusal,
        second: answer.steps,
        third: answer.reason,
        fourth: answer.thread,
        fifth: 0,
    }
}

#[tactic(auto, unfolding(crate::specs::Encoding::answer_to, crate::specs::Encoding::collected, guarantee::specs::SeatedClaim::after_by, interface::specs::Interface::collect_result, interface::specs::Interface::in_numbers), using(crate::proofs::Numbers::number_back))]
fn collect(table: &[u8], state: &mut [u8], rights: &[u8], seat: u32) -> Answer
    ensures state_after { state.new ≡ after_by table.now state.old rights.now seat Collect }
    ensures value { result ≡ answer_to table.now state.old rights.now seat Collect }
{
    let answer = pithread::pithread_collect(table, state, rights, seat);
    Answer {
        refusal: answer.refusal,
        second: answer.threads,
        third: 0,
        fourth: 0,
        fifth: 0,
    }
}

// The call of three words, at a seat.
#[tactic(auto, using(crate::specs::Encoding::Laws::arms))]
fn work_call(
    table: &[u8],
    state: &mut [u8],
    rights: &[u8],
    seat: u32,
    code: u32,
    argument: u32,
    number: u32,
) -> Answer
    ensures state_after { state.new ≡ after_by table.now state.old rights.now seat (call_by code argument number) }
    ensures value { result ≡ answer_to table.now state.old rights.now seat (call_by code argument number) }
{
    match code {
        0 => step(table, state, rights, seat, argument),
        1 => give(table, state, rights, seat, argument, number),
        2 => take(table, state, rights, seat, argument),
        3 => run(table, state, rights, seat, (argument % 65536) as u16),
        _ => collect(table, state, rights, seat),
    }
}

// The n bytes of `lists` from a place on, or as many of them as there are.
#[tactic(auto, using(crate::specs::Encoding::Laws::part_is))]
fn part_of(lists: &[u8], from: u32, n: u32) -> &[u8]
    ensures { result.now ≡ part_of lists.now from n }
{
    let at = lists.len().min(from as usize);
    let end = lists.len().min(at + n as usize);
    &lists[at..end]
}

// The call of record i.
#[tactic(auto, using(crate::specs::Encoding::Laws::record_left, crate::specs::Encoding::Laws::record_answer))]
fn work_record(table: &[u8], state: &mut [u8], lists: &[u8], calls: &[u8], i: usize) -> Answer
    requires { i < 768614336404564650 }
    ensures state_after { state.new ≡ after_seat table.now state.old (record_at lists.now (words calls.now) i) }
    ensures value { result ≡ answer_at table.now state.old (record_at lists.now (words calls.now) i) }
{
    let code = numbers::word_at(calls, i * 6);
    let argument = numbers::word_at(calls, i * 6 + 1);
    let number = numbers::word_at(calls, i * 6 + 2);
    let seat = numbers::word_at(calls, i * 6 + 3);
    let from = numbers::word_at(calls, i * 6 + 4);
    let bytes = numbers::word_at(calls, i * 6 + 5);
    let rights = part_of(lists, from, bytes);
    work_call(table, state, rights, seat, code, argument, number)
}

// The word at place i becomes the pattern of z.
#[tactic(auto, using(crate::specs::Encoding::Laws::number_put))]
fn put_number(answers: &mut [u8], i: usize, z: i32)
    ensures { words answers.new ≡ set (words answers.old) i (of_z w32 z) }
{
    numbers::put_word(answers, i, numbers::pattern(z));
}

// Lays the five words of an answer from place i on.
#[tactic(auto, unfolding(crate::specs::Encoding::written_from, crate::specs::Encoding::words_of), using(crate::proofs::Numbers::number_back))]
fn put_answer(answers: &mut [u8], i: usize, answer: Answer)
    requires { i < 4611686018427387904 }
    ensures { words answers.new ≡ written_from (words answers.old) i (words_of answer) }
{
    put_number(answers, i, answer.refusal);
    put_number(answers, i + 1, answer.second);
    put_number(answers, i + 2, answer.third);
    put_number(answers, i + 3, answer.fourth);
    put_number(answers, i + 4, answer.fifth);
}

// Works the calls in `calls`, in turn, and lays their answers into `answers`, as far as it goes. A call is a record of 24 bytes, six words with the lowest
// byte first: which call, its thread, port or number of steps, the number given, the seat, and where in `lists` its list of rights begins and how many
// bytes it has; an answer is a record of twenty.
pub fn driver_work_list(
    table: &[u8],
    state: &mut [u8],
    lists: &[u8],
    calls: &[u8],
    answers: &mut [u8],
)
    ensures state_after { state.new ≡ after_seats table.now state.old (calls_of lists.now calls.now) }
    ensures answers_after { words answers.new ≡ written_from (words answers.old) 0
        (answers_to table.now state.old (calls_of lists.now calls.now)) }
{
    for i in 0..calls.len() / 24 {
        let answer = work_record(table, state, lists, calls, i);
        put_answer(answers, i * 5, answer);
    }
}

// Loads a file, starts it and works the calls in `calls`, as `driver_work_list` does. Answers the refusal and the line of the load or else those of the start.
pub fn driver_work_file(
    file: &[u8],
    table: &mut [u8],
    state: &mut [u8],
    lists: &[u8],
    calls: &[u8],
    answers: &mut [u8],
) -> Opening
    ensures { worked_to result table.new state.new (words answers.new)
        ≡ worked_file file.now table.old state.old lists.now calls.now (words answers.old) }
{
    let loaded = load(file, table);
    if loaded.refusal != 0 {
        return loaded;
    }
    let started = start(table, state);
    if started.refusal == 0 {
        driver_work_list(table, state, lists, calls, answers);
    }
    started
}

// Writes the file of a table, and loads what was written as the other table. Answers the refusal of the write or else that of the load.
#[tactic(auto, unfolding(crate::specs::Restore::restored), using(crate::proofs::Numbers::number_back, crate::proofs::Numbers::zero_back, crate::specs::Restore::Laws::bytes_inside))]
pub fn driver_restore(table: &[u8], file: &mut [u8], other: &mut [u8]) -> i32
    ensures { restored_to result file.new other.new ≡ restored table.now file.old other.old }
{
    let written = write(table, file);
    if written.refusal != 0 {
        return written.refusal;
    }
    let bytes = numbers::pattern(written.bytes) as usize;
    let loaded = load(&file[0..bytes], other);
    loaded.refusal
}

// Starts a table that keeps to the profile, and no other. Answers the refusal of the check or else that of the start.
#[tactic(auto, unfolding(crate::specs::ProfiledStart::begun, crate::specs::WorkedFile::start_opening), using(crate::proofs::Numbers::number_back, crate::proofs::Numbers::zero_back))]
pub fn driver_start_profiled(table: &[u8], state: &mut [u8]) -> i32
    ensures { begun_to result state.new ≡ begun table.now state.old }
{
    let profiled = profile(table);
    if profiled.refusal != 0 {
        return profiled.refusal;
    }
    let started = start(table, state);
    started.refusal
}
