// The answers of the exported calls, in the numbers that C sees: the numbers of document 01 for what is answered, a record for each call, and the functions
// that fill it. An unsigned number stands for the signed one of which it is the 32-bit pattern.
#![tactic(auto)]

ghost use Rattle.std.specs.Prelude.{◌≡◌, ◌≤◌};
ghost use Rattle.loader.specs.Verdict.{ground_number};
ghost use Rattle.loader.specs.Load.{refusal_number, line_number};
ghost use Rattle.writer.specs.Write as Write;
ghost use Rattle.profile.specs.Profile as Profile;
ghost use Rattle.engine.specs.Numbers as Numbers;
ghost use Rattle.interface.specs.Interface.{profile_fields, profile_numbers};
ghost use Rattle.interface.specs.Interface.{start_fields, start_numbers, step_fields, step_numbers, give_fields, give_numbers};
ghost use Rattle.interface.specs.Interface.{take_fields, take_numbers, run_fields, run_numbers, collect_fields, collect_numbers};

use loader::{Ground, LoadRefusal};
use profile::ProfileRefusal;
use rules::{Deed, Reason, Refusal};
use writer::WriteRefusal;

// The number of a ground on which a file is refused: 1 to 7.
#[tactic(auto, unfolding(loader::specs::Verdict::ground_number))]
pub fn ground_number(ground: Ground) -> u32
    ensures value { result ≡ ground_number ground }
    ensures upper_bound { result ≤ 8 }
{
    match ground {
        Ground::Lines => 1,
        Ground::Field => 2,
        Ground::Header | Ground::Total | Ground::Kind | Ground::Sums => 3,
        Ground::Range => 4,
        Ground::Types => 5,
        Ground::Unwritten => 6,
        Ground::Unreachable => 7,
    }
}

// The number of a ground on which a call is refused: 8 to 14, 18 or 19.
#[tactic(auto, unfolding(engine::specs::Numbers::refusal_number))]
pub fn refusal_of(refusal: Refusal) -> u32
    ensures { result ≡ Numbers.refusal_number refusal }
{
    match refusal {
        Refusal::Length => 8,
        Refusal::Table => 9,
        Refusal::Rights => 18,
        Refusal::Seat => 19,
        Refusal::State => 10,
        Refusal::Thread => 11,
        Refusal::Port => 12,
        Refusal::ThreadRow => 13,
        Refusal::ChannelRow => 14,
    }
}

// The number of what a step did: 0 ended, 1 called, 2 waited, 3 took a branch.
#[tactic(auto, unfolding(engine::specs::Numbers::act_number))]
pub fn act_number(deed: Deed) -> u32
    ensures { result ≡ Numbers.act_number deed }
{
    match deed {
        Deed::Ended => 0,
        Deed::Called => 1,
        Deed::Waited => 2,
        Deed::Took(_) | Deed::TookWith(_, _) => 3,
    }
}

// The branch that a step took, and 0 where it took none.
#[tactic(auto, unfolding(engine::specs::Numbers::branch_number))]
pub fn branch_number(deed: Deed) -> u32
    ensures { result ≡ Numbers.branch_number deed }
{
    match deed {
        Deed::Took(i) | Deed::TookWith(i, _) => i,
        Deed::Ended | Deed::Called | Deed::Waited => 0,
    }
}

// The partner or child of a step, and -1 where it has none.
#[tactic(auto, unfolding(engine::specs::Numbers::partner_number))]
pub fn partner_number(deed: Deed) -> u32
    ensures { result ≡ Numbers.partner_number deed }
{
    match deed {
        Deed::TookWith(_, u) => u,
        _ => state::MINUS_ONE,
    }
}

// The number of the reason for which a run ended.
#[tactic(auto, unfolding(engine::specs::Numbers::reason_number))]
pub fn reason_number(reason: Reason) -> u32
    ensures { result ≡ Numbers.reason_number reason }
{
    match reason {
        Reason::AllDone => 0,
        Reason::NoneReady => 1,
        Reason::LackedThread(_) => 2,
        Reason::LackedChannel(_) => 3,
    }
}

// The thread that lacked a row when a run ended, and -1 where none did.
#[tactic(auto, unfolding(engine::specs::Numbers::held_up_number))]
pub fn held_up_number(reason: Reason) -> u32
    ensures { result ≡ Numbers.held_up_number reason }
{
    match reason {
        Reason::LackedThread(t) | Reason::LackedChannel(t) => t,
        Reason::AllDone | Reason::NoneReady => state::MINUS_ONE,
    }
}

// The answer of a load: the refusal, 0 for none, and the line at fault, 0 for none.
#[repr(C)]
#[derive(Clone, Copy)]
pub struct LoadAnswer {
    pub refusal: i32,
    pub line: i32,
}

// The refusal of a load, 0 for none.
#[tactic(auto, unfolding(loader::specs::Load::refusal_number))]
pub fn refusal_number(answer: Result<(), LoadRefusal>) -> u32
    ensures value { result ≡ refusal_number answer }
    ensures upper_bound { result ≤ 8 }
{
    match answer {
        Ok(()) => 0,
        Err(LoadRefusal::FileRefused(ground, _)) => ground_number(ground),
        Err(LoadRefusal::WrongLength) => 8,
    }
}

// The line at fault that a load names, 0 for none.
#[tactic(auto, unfolding(loader::specs::Load::line_number))]
pub fn line_number(answer: Result<(), LoadRefusal>) -> usize
    ensures { result ≡ line_number answer }
{
    match answer {
        Err(LoadRefusal::FileRefused(_, line)) => line,
        _ => 0,
    }
}

// The answer of a write: the refusal, 0 for none, and the bytes of the file, 0 where the call was refused.
#[repr(C)]
#[derive(Clone, Copy)]
pub struct WriteAnswer {
    pub refusal: i32,
    pub bytes: i32,
}

// The refusal of a write, 0 for none.
#[tactic(auto, unfolding(writer::specs::Write::refusal_number))]
pub fn write_refusal(answer: Result<usize, WriteRefusal>) -> u32
    ensures value { result ≡ Write.refusal_number answer }
    ensures upper_bound { result ≤ 15 }
{
    match answer {
        Ok(_) => 0,
        Err(WriteRefusal::WrongLength) => 8,
        Err(WriteRefusal::WrongTable) => 9,
        Err(WriteRefusal::ShortBuffer) => 15,
    }
}

// The bytes of the file that a write made, 0 for none.
#[tactic(auto, using(crate::proofs::Arms::bytes_is))]
pub fn bytes_number(answer: Result<usize, WriteRefusal>) -> usize
    ensures { result ≡ Write.bytes_number answer }
{
    answer.unwrap_or(0)
}

// The answer of the check of a table: the refusal, 0 for none, and the threads, 0 where the call was refused.
#[repr(C)]
#[derive(Clone, Copy)]
pub struct ProfileAnswer {
    pub refusal: i32,
    pub threads: i32,
}

// The refusal of the check of a table, 0 for none.
#[tactic(auto, unfolding(profile::specs::Profile::refusal_number))]
pub fn profile_refusal(answer: Result<u32, ProfileRefusal>) -> u32
    ensures { result ≡ Profile.refusal_number answer }
{
    match answer {
        Ok(_) => 0,
        Err(ProfileRefusal::WrongLength) => 8,
        Err(ProfileRefusal::WrongTable) => 9,
        Err(ProfileRefusal::ForbiddenCall) => 16,
        Err(ProfileRefusal::ManyThreads) => 17,
    }
}

// The threads that the procedure of a table can come to have, 0 where it does not pass.
#[tactic(auto, using(crate::proofs::Arms::threads_is))]
pub fn threads_number(answer: Result<u32, ProfileRefusal>) -> u32
    ensures { result ≡ Profile.threads_number answer }
{
    answer.unwrap_or(0)
}

// The answers of the calls on a state. Each has the refusal, 0 for none, and then what was done, 0 where the call was refused.
#[repr(C)]
#[derive(Clone, Copy)]
pub struct StartAnswer {
    pub refusal: i32,
}

#[repr(C)]
#[derive(Clone, Copy)]
pub struct StepAnswer {
    pub refusal: i32,
    pub node: i32,
    pub act: i32,
    pub branch: i32,
    pub partner: i32,
}

#[repr(C)]
#[derive(Clone, Copy)]
pub struct GiveAnswer {
    pub refusal: i32,
    pub thread: i32,
}

#[repr(C)]
#[derive(Clone, Copy)]
pub struct TakeAnswer {
    pub refusal: i32,
    pub thread: i32,
    pub number: i32,
}

#[repr(C)]
#[derive(Clone, Copy)]
pub struct RunAnswer {
    pub refusal: i32,
    pub steps: i32,
    pub reason: i32,
    pub thread: i32,
}

#[repr(C)]
#[derive(Clone, Copy)]
pub struct CollectAnswer {
    pub refusal: i32,
    pub threads: i32,
}

// The functions `profile_fields` to `collect_fields` make an answer of the patterns of its numbers.
#[tactic(auto, unfolding(crate::specs::Interface::profile_fields), using(crate::proofs::Arms::signed_back))]
fn profile_fields(refusal: u32, threads: u32) -> ProfileAnswer
    ensures { result ≡ profile_fields refusal threads }
{
    ProfileAnswer {
        refusal: numbers::signed(refusal),
        threads: numbers::signed(threads),
    }
}

#[tactic(auto, unfolding(crate::specs::Interface::start_fields), using(crate::proofs::Arms::signed_back))]
fn start_fields(refusal: u32) -> StartAnswer
    ensures { result ≡ start_fields refusal }
{
    StartAnswer {
        refusal: numbers::signed(refusal),
    }
}

#[tactic(auto, unfolding(crate::specs::Interface::step_fields), using(crate::proofs::Arms::signed_back))]
fn step_fields(refusal: u32, node: u32, act: u32, branch: u32, partner: u32) -> StepAnswer
    ensures { result ≡ step_fields refusal node act branch partner }
{
    StepAnswer {
        refusal: numbers::signed(refusal),
        node: numbers::signed(node),
        act: numbers::signed(act),
        branch: numbers::signed(branch),
        partner: numbers::signed(partner),
    }
}

#[tactic(auto, unfolding(crate::specs::Interface::give_fields), using(crate::proofs::Arms::signed_back))]
fn give_fields(refusal: u32, thread: u32) -> GiveAnswer
    ensures { result ≡ give_fields refusal thread }
{
    GiveAnswer {
        refusal: numbers::signed(refusal),
        thread: numbers::signed(thread),
    }
}

#[tactic(auto, unfolding(crate::specs::Interface::take_fields), using(crate::proofs::Arms::signed_back))]
fn take_fields(refusal: u32, thread: u32, number: u32) -> TakeAnswer
    ensures { result ≡ take_fields refusal thread number }
{
    TakeAnswer {
        refusal: numbers::signed(refusal),
        thread: numbers::signed(thread),
        number: numbers::signed(number),
    }
}

#[tactic(auto, unfolding(crate::specs::Interface::run_fields), using(crate::proofs::Arms::signed_back))]
fn run_fields(refusal: u32, steps: u32, reason: u32, thread: u32) -> RunAnswer
    ensures { result ≡ run_fields refusal steps reason thread }
{
    RunAnswer {
        refusal: numbers::signed(refusal),
        steps: numbers::signed(steps),
        reason: numbers::signed(reason),
        thread: numbers::signed(thread),
    }
}

#[tactic(auto, unfolding(crate::specs::Interface::collect_fields), using(crate::proofs::Arms::signed_back))]
fn collect_fields(refusal: u32, threads: u32) -> CollectAnswer
    ensures { result ≡ collect_fields refusal threads }
{
    CollectAnswer {
        refusal: numbers::signed(refusal),
        threads: numbers::signed(threads),
    }
}

// The functions `profile_numbers` to `collect_numbers` give the answer of a call in the numbers of documents 01 and 02.
#[tactic(auto, unfolding(crate::specs::Interface::profile_numbers))]
pub fn profile_numbers(answer: Result<u32, ProfileRefusal>) -> ProfileAnswer
    ensures { result ≡ profile_numbers answer }
{
    profile_fields(profile_refusal(answer), threads_number(answer))
}

#[tactic(auto, unfolding(crate::specs::Interface::start_numbers))]
pub fn start_numbers(answer: Result<(), Refusal>) -> StartAnswer
    ensures { result ≡ start_numbers answer }
{
    match answer {
        Ok(()) => start_fields(0),
        Err(ground) => start_fields(refusal_of(ground)),
    }
}

#[tactic(auto, unfolding(crate::specs::Interface::step_numbers))]
pub fn step_numbers(answer: Result<(u32, Deed), Refusal>) -> StepAnswer
    ensures { result ≡ step_numbers answer }
{
    match answer {
        Ok((node, deed)) => {
            step_fields(
                0,
                node,
                act_number(deed),
                branch_number(deed),
                partner_number(deed),
            )
        }
        Err(ground) => step_fields(refusal_of(ground), 0, 0, 0, 0),
    }
}

#[tactic(auto, unfolding(crate::specs::Interface::give_numbers))]
pub fn give_numbers(answer: Result<Option<u32>, Refusal>) -> GiveAnswer
    ensures { result ≡ give_numbers answer }
{
    match answer {
        Ok(Some(thread)) => give_fields(0, thread),
        Ok(None) => give_fields(0, state::MINUS_ONE),
        Err(ground) => give_fields(refusal_of(ground), 0),
    }
}

#[tactic(auto, unfolding(crate::specs::Interface::take_numbers))]
pub fn take_numbers(answer: Result<Option<(u32, u32)>, Refusal>) -> TakeAnswer
    ensures { result ≡ take_numbers answer }
{
    match answer {
        Ok(Some((thread, number))) => take_fields(0, thread, number),
        Ok(None) => take_fields(0, state::MINUS_ONE, 0),
        Err(ground) => take_fields(refusal_of(ground), 0, 0),
    }
}

#[tactic(auto, unfolding(crate::specs::Interface::run_numbers))]
pub fn run_numbers(answer: Result<(u32, Reason), Refusal>) -> RunAnswer
    ensures { result ≡ run_numbers answer }
{
    match answer {
        Ok((steps, reason)) => {
            run_fields(0, steps, reason_number(reason), held_up_number(reason))
        }
        Err(ground) => run_fields(refusal_of(ground), 0, 0, 0),
    }
}

#[tactic(auto, unfolding(crate::specs::Interface::collect_numbers))]
pub fn collect_numbers(answer: Result<u32, Refusal>) -> CollectAnswer
    ensures { result ≡ collect_numbers answer }
{
    match answer {
        Ok(threads) => collect_fields(0, threads),
        Err(ground) => collect_fields(refusal_of(ground), 0),
    }
}
