// The words of a state, and the buffers that hold them. Each look-up answers for every place: a read outside gives 0, a write outside does nothing.
#![tactic(auto)]

ghost use Rattle.std.specs.Prelude.{◌≡◌, length, get_or, set};
ghost use Rattle.numbers.specs.Bytes.{words};
ghost use Rattle.numbers.specs.Rows.{at};
ghost use Rattle.state.specs.State.{state_of, state_bytes, state_words, state_length, thread, status, stands_at, channel, with_mark, with_thread, with_channel};

// The words of a state, and the bytes of its buffer.
pub const WORDS: usize = 1539;

pub const BYTES: usize = 6156;

// Threads and channels are numbered from 0 to below these. No channel is told by the number past the last, and an empty channel slot has the pattern of -1.
pub const THREADS: u32 = 64;

pub const CHANNELS: u32 = 128;

pub const NO_CHANNEL: u8 = CHANNELS as u8;

pub const MINUS_ONE: u32 = 4294967295;

// The slots of a thread's row.
pub const SLOTS: u32 = 16;

// The words of a thread's row: its status, its node, then its slots.
pub const THREAD_WORDS: usize = 18;

pub const STATUS: usize = 0;

pub const NODE: usize = 1;

pub const FIRST_SLOT: usize = 2;

// The statuses of a thread.
pub const FREE: u32 = 0;

pub const READY: u32 = 1;

pub const WAITING: u32 = 2;

// The words of a channel's row: its type, which is 0 where the channel is free, its count and its count of waiting holders.
pub const CHANNEL_WORDS: usize = 3;

pub const TYPE: usize = 0;

pub const COUNT: usize = 1;

pub const WAITERS: usize = 2;

// The marks: of the threads, of the channels, and the turn.
pub const THREAD_MARK: usize = 0;

pub const CHANNEL_MARK: usize = 1;

pub const TURN: usize = 2;

// The number of marks, of thread rows and of channel rows, and the word at which the channel rows begin.
const MARKS: usize = 3;

const THREAD_ROWS: usize = THREADS as usize;

const CHANNEL_ROWS: usize = CHANNELS as usize;

const CHANNELS_FROM: usize = MARKS + THREAD_ROWS * THREAD_WORDS;

// The words of a state, in their order.
pub type Words = [u32; WORDS];

// Mark i; 0 where there is none.
#[tactic(auto, unfolding(crate::specs::State::state_of))]
pub fn mark(state: &Words, i: usize) -> u32
    ensures { result ≡ get_or (state_of state.now).marks i 0 }
{
    state[..MARKS].get(i).copied().unwrap_or(0)
}

// Mark i becomes v.
#[tactic(auto, using(crate::specs::State::Laws::places))]
pub fn put_mark(state: &mut Words, i: usize, v: u32)
    ensures { state_of state.new ≡ with_mark (state_of state.old) i v }
{
    if i < MARKS {
        state[i] = v;
    }
}

// Word k of thread t's row; 0 where there is none.
#[tactic(auto, using(crate::specs::State::Laws::places))]
pub fn thread_word(state: &Words, t: usize, k: usize) -> u32
    ensures { result ≡ at (state_of state.now).threads t k }
{
    if t < THREAD_ROWS && k < THREAD_WORDS {
        let at = MARKS + t * THREAD_WORDS + k;
        state[at]
    } else {
        0
    }
}

// The status of thread t; that of a free row where there is no such thread.
pub fn status(state: &Words, t: u32) -> u32
    ensures { result ≡ status (thread (state_of state.now) t) }
{
    thread_word(state, t as usize, STATUS)
}

// The node at which thread t stands.
pub fn stands_at(state: &Words, t: u32) -> u32
    ensures { result ≡ stands_at (thread (state_of state.now) t) }
{
    thread_word(state, t as usize, NODE)
}

// Word k of thread t's row becomes v.
#[tactic(auto, using(crate::specs::State::Laws::places))]
pub fn put_thread(state: &mut Words, t: usize, k: usize, v: u32)
    ensures { state_of state.new ≡ with_thread (state_of state.old) t (set (thread (state_of state.old) t) k v) }
{
    if t < THREAD_ROWS && k < THREAD_WORDS {
        state[MARKS + t * THREAD_WORDS + k] = v;
    }
}

// Word k of channel c's row; 0 where there is none.
#[tactic(auto, using(crate::specs::State::Laws::places))]
pub fn channel_word(state: &Words, c: usize, k: usize) -> u32
    ensures { result ≡ at (state_of state.now).channels c k }
{
    if c < CHANNEL_ROWS && k < CHANNEL_WORDS {
        let at = CHANNELS_FROM + c * CHANNEL_WORDS + k;
        state[at]
    } else {
        0
    }
}

// Word k of channel c's row becomes v.
#[tactic(auto, using(crate::specs::State::Laws::places))]
pub fn put_channel(state: &mut Words, c: usize, k: usize, v: u32)
    ensures { state_of state.new ≡ with_channel (state_of state.old) c (set (channel (state_of state.old) c) k v) }
{
    if c < CHANNEL_ROWS && k < CHANNEL_WORDS {
        state[CHANNELS_FROM + c * CHANNEL_WORDS + k] = v;
    }
}

// The words of a state out of its buffer.
#[tactic(auto, using(crate::proofs::Filling::words_read))]
pub fn read(buffer: &[u8], state: &mut [u32])
    requires buffer_len { length buffer.now ≡ state_length }
    requires state_len { length state.old ≡ state_words }
    ensures { state.new ≡ words buffer.now }
{
    for i in 0..WORDS {
        state[i] = numbers::word_at(buffer, i);
    }
}

// The words of a state into its buffer.
#[tactic(auto, using(crate::proofs::Filling::words_written))]
pub fn write(state: &Words, buffer: &mut [u8])
    requires { length buffer.old ≡ state_length }
    ensures { buffer.new ≡ state_bytes (state_of state.now) }
{
    // The length is asked once more for the compiler, which then writes sixteen bytes at a time.
    if buffer.len() == BYTES {
        for i in 0..WORDS {
            numbers::put_word(buffer, i, state[i]);
        }
    }
}
