// The names of the moves and of the answers. What they mean is in specs/; this crate has no code besides.
#![tactic(auto)]

// The two sides of a meeting.
#[derive(Clone, Copy, PartialEq, Eq)]
pub enum Direction {
    Out,
    In,
}

// What a branch does. A meeting is a send (`Out`) or a receive (`In`); an assignment sets a slot to a constant, a sum or a difference.
#[derive(Clone, Copy, PartialEq, Eq)]
pub enum Act {
    Tau,
    Meeting(Direction),
    New,
    Spawn,
    Assignment,
}

// What a ready thread does. Each branch that is taken comes with its number.
#[derive(Clone, Copy, PartialEq, Eq)]
pub enum Move {
    Ends,
    Calls,
    Waits,
    Goes(u32),
    Creates(u32, u32),
    Spawns(u32, u32),
    Meets(u32, u32, u32),
    LacksThread,
    LacksChannel,
}

// Why a call of the engine is refused.
#[derive(Clone, Copy, PartialEq, Eq)]
pub enum Refusal {
    Length,
    Table,
    Rights,
    Seat,
    State,
    Thread,
    Port,
    ThreadRow,
    ChannelRow,
}

// What a call asks of the seat at which it is made: a take and a give with their port, a step or a run, a collection.
#[derive(Clone, Copy, PartialEq, Eq)]
pub enum Right {
    Take(u32),
    Give(u32),
    StepAndRun,
    Collect,
}

// What a step did: a branch alone, or a branch with the thread that it met or made.
#[derive(Clone, Copy, PartialEq, Eq)]
pub enum Deed {
    Ended,
    Called,
    Waited,
    Took(u32),
    TookWith(u32, u32),
}

// Why a run ended; where a row was lacking, with the thread held up.
#[derive(Clone, Copy, PartialEq, Eq)]
pub enum Reason {
    AllDone,
    NoneReady,
    LackedThread(u32),
    LackedChannel(u32),
}
