// The lines of a listing, laid into a buffer: numbers stand in columns of six characters, and a line ends in a newline.
#![tactic(auto)]

ghost use Rattle.std.specs.Prelude.{◌≡◌, not, [], ◌∷◌, ◌+◌, ◌*◌, ◌≤◌, length};
ghost use Rattle.std.proofs.lemmas.List.Edits.{sets};
ghost use Rattle.numbers.specs.Count.{bit};
ghost use Rattle.loader.specs.Verdict.{ground_number};
ghost use Rattle.state.specs.State.{max_threads, state_of};
ghost use Rattle.rules.specs.Moves.{is_free_channel};
ghost use Rattle.listing_lines.specs.Lines.{line, heading, step_line, channels_in_use};
ghost use Rattle.listing_lines.specs.Laid.{gone_line, gone_lines};

use loader::Ground;
use rules::{Deed, Refusal};

const HEADING: [u8; 37] = *b"  STEPTHREAD  NODE   ACTBRANCH  WITH\n";

// Bytes, laid into a buffer from a place on.
fn put_bytes(out: &mut [u8], at: usize, bytes: &[u8])
    requires { at + length bytes.now ≤ length out.old }
    ensures { out.new ≡ sets out.old at bytes.now }
{
    out[at..at + bytes.len()].copy_from_slice(bytes);
}

// The heading, at the front of a buffer.
#[tactic(auto, unfolding(crate::specs::Lines::heading, crate::specs::Lines::characters))]
pub fn put_heading(out: &mut [u8])
    requires { 37 ≤ length out.old }
    ensures { out.new ≡ sets out.old 0 heading }
{
    put_bytes(out, 0, &HEADING);
}

// A line of numbers, laid into a buffer from a place on. Answers the place behind it.
pub fn put_line(out: &mut [u8], at: usize, row: &[u32]) -> usize
    requires { at + length row.now * 6 + 1 ≤ length out.old }
    ensures value { result ≡ at + length row.now * 6 + 1 }
    ensures out_after { out.new ≡ sets out.old at (line row.now) }
{
    for (i, n) in row.iter().enumerate() {
        text::put_field(out, at + i * text::FIELD, (*n % 65536) as u16);
    }
    let end = at + row.len() * text::FIELD;
    out[end] = b'\n';
    end + 1
}

// The one line of a refused file. Answers its length.
#[tactic(auto, using(crate::specs::Laid::Laws::refusal_long, crate::specs::Laid::Laws::refusal_laid))]
pub fn list_refusal(out: &mut [u8], ground: Ground, fault: usize) -> usize
    requires { 13 ≤ length out.old }
    ensures value { result ≡ length (line (ground_number ground ∷ fault ∷ [])) }
    ensures out_after { out.new ≡ sets out.old 0 (line (ground_number ground ∷ fault ∷ [])) }
{
    let row = [interface::ground_number(ground), (fault % 65536) as u32];
    put_line(out, 0, &row)
}

// The line of step k, of thread t, laid into a buffer from a place on; a step that is refused has none.
#[tactic(auto, unfolding(crate::specs::Lines::step_line))]
pub fn put_step(out: &mut [u8], at: usize, k: u32, t: u32, answer: Result<(u32, Deed), Refusal>)
    requires { at + 37 ≤ length out.old }
    ensures { out.new ≡ sets out.old at (step_line k t answer) }
{
    if let Ok((node, deed)) = answer {
        let act = interface::act_number(deed);
        let branch = interface::branch_number(deed);
        let partner = interface::partner_number(deed);
        put_line(out, at, &[k, t, node, act, branch, partner]);
    }
}

// Whether channel c is in use, as a number to count with.
#[tactic(auto, unfolding(rules::specs::Moves::is_free_channel, numbers::specs::Count::bit))]
fn in_use(state: &state::Words, c: u32) -> u32
    ensures { result ≡ bit (not (is_free_channel (state_of state.now) c)) }
{
    u32::from(state::channel_word(state, c as usize, state::TYPE) != 0)
}

// How many channels are in use, the ports among them.
pub fn channels_in_use(state: &state::Words) -> u32
    ensures { result ≡ channels_in_use (state_of state.now) }
{
    let mut n = 0;
    for c in 0..state::CHANNELS {
        n += in_use(state, c);
    }
    n
}

// The line of thread t, if its row was in use and is free now. Answers the place behind it.
#[tactic(auto, using(crate::specs::Laid::Laws::length_line), unfolding(crate::specs::Laid::gone_line))]
fn put_gone(out: &mut [u8], at: usize, before: &state::Words, after: &state::Words, t: u32) -> usize
    requires { at + 13 ≤ length out.old }
    ensures value { result ≡ at + length (gone_line (state_of before.now) (state_of after.now) t) }
    ensures out_after { out.new ≡ sets out.old at (gone_line (state_of before.now) (state_of after.now) t) }
{
    if state::status(before, t) == state::FREE || state::status(after, t) != state::FREE {
        at
    } else {
        let node = state::stands_at(before, t);
        put_line(out, at, &[t, node])
    }
}

// The lines of all threads whose rows were in use and are free now, lowest first. Answers the place behind them.
pub fn list_gone(out: &mut [u8], at: usize, before: &state::Words, after: &state::Words) -> usize
    requires { at + 832 ≤ length out.old }
    ensures value { result ≡ at + length (gone_lines (state_of before.now) (state_of after.now) max_threads) }
    ensures out_after { out.new ≡ sets out.old at (gone_lines (state_of before.now) (state_of after.now) max_threads) }
{
    let mut end = at;
    for t in 0..state::THREADS {
        end = put_gone(out, end, before, after, t);
    }
    end
}
