// Which row comes next, going up from a mark and around the end: a free row of the threads or of the channels, and the thread whose turn it is.
#![tactic(auto)]

ghost use Rattle.std.specs.Prelude.{◌≡◌, ℕ, Bool, ◌≤◌, ◌<◌};
ghost use Rattle.state.specs.State.{max_threads, max_channels, state_of};
ghost use Rattle.rules.specs.Moves.{first_from, around, one_up, is_free_thread, is_free_channel, free_thread, free_channel};
ghost use Rattle.rules.specs.Calls.{is_ready_thread, next_ready};
ghost use Rattle.next_rows.specs.UsedBelow.{UsedBelow};

// Whether row u of the threads is free.
#[tactic(auto, unfolding(rules::specs::Moves::is_free_thread))]
fn is_free_thread(state: &state::Words, u: u32) -> bool
    ensures { result ≡ is_free_thread (state_of state.now) u }
{
    state::status(state, u) == state::FREE
}

// Whether row c of the channels is free.
#[tactic(auto, unfolding(rules::specs::Moves::is_free_channel))]
fn is_free_channel(state: &state::Words, c: u32) -> bool
    ensures { result ≡ is_free_channel (state_of state.now) c }
{
    state::channel_word(state, c as usize, state::TYPE) == 0
}

// Whether thread u is ready.
#[tactic(auto, unfolding(rules::specs::Calls::is_ready_thread))]
fn is_ready_thread(state: &state::Words, u: u32) -> bool
    ensures { result ≡ is_ready_thread (state_of state.now) u }
{
    state::status(state, u) == state::READY
}

// One past the last row of the threads that is in use.
#[tactic(auto, using(crate::specs::UsedBelow::used_all, crate::specs::UsedBelow::used_less))]
pub fn rows_used(state: &state::Words) -> u32
    ensures { UsedBelow (state_of state.now) result }
{
    for u in (0..state::THREADS).rev() {
        if !is_free_thread(state, u) {
            return u + 1;
        }
    }
    0
}

// The first number below n with a test, from a number upward; n where there is none.
pub fn first_from<F: Fn(u32) -> bool>(n: u32, from: u32, test: F) -> u32
    requires { F.IsAlwaysCallable test }
    ensures value { (p : ℕ → Bool) → ((i : ℕ) (b : Bool) → i < n → F.post test i b → b ≡ p i) → result ≡ first_from n from p }
    ensures upper_bound { result ≤ n }
{
    (from..n).find(|i| test(*i)).unwrap_or(n)
}

// The same, from a mark on and around the end.
fn first_around<F: Fn(u32) -> bool>(n: u32, mark: u32, test: F) -> u32
    requires { F.IsAlwaysCallable test }
    ensures value { (p : ℕ → Bool) → ((i : ℕ) (b : Bool) → i < n → F.post test i b → b ≡ p i) → result ≡ around n mark p }
    ensures upper_bound { result ≤ n }
{
    let i = first_from(n, mark, &test);
    if i < n { i } else { first_from(n, 0, &test) }
}

// The first free row of the threads from their mark on and around the end; 64 where there is none.
#[tactic(auto, unfolding(rules::specs::Moves::free_thread))]
pub fn free_thread(state: &state::Words) -> u32
    ensures value { result ≡ free_thread (state_of state.now) }
    ensures upper_bound { result ≤ max_threads }
{
    let mark = state::mark(state, state::THREAD_MARK);
    first_around(state::THREADS, mark, |u| is_free_thread(state, u))
}

// The first free row of the channels from their mark on and around the end; 128 where there is none.
#[tactic(auto, unfolding(rules::specs::Moves::free_channel))]
pub fn free_channel(state: &state::Words) -> u32
    ensures value { result ≡ free_channel (state_of state.now) }
    ensures upper_bound { result ≤ max_channels }
{
    let mark = state::mark(state, state::CHANNEL_MARK);
    first_around(state::CHANNELS, mark, |c| is_free_channel(state, c))
}

// The first ready thread from the turn on and around the end, where no row from top on is in use; 64 where there is none.
pub fn next_ready(state: &state::Words, top: u32) -> u32
    requires { UsedBelow (state_of state.now) top }
    ensures value { result ≡ next_ready (state_of state.now) }
    ensures upper_bound { result ≤ max_threads }
{
    let turn = state::mark(state, state::TURN);
    let u = first_around(top, turn, |u| is_ready_thread(state, u));
    if u < top { u } else { state::THREADS }
}

// One past number i of n; past the last comes 0.
#[tactic(auto, unfolding(rules::specs::Moves::one_up))]
pub fn one_up(n: u32, i: u32) -> u32
    requires { i < n }
    ensures value { result ≡ one_up n i }
    ensures upper_bound { result < n }
{
    let next = i + 1;
    if next == n { 0 } else { next }
}
