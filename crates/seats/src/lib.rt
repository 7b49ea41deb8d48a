// What a seat may do by a list of rights: grounds 18 and 19. It reads the list and nothing else.
#![tactic(auto)]

ghost use Rattle.std.specs.Prelude.{◌≡◌};
ghost use Rattle.rules.specs.Seats.{right_at, rights_in_range, grants_first, grants_second, grants, has_right, rights_admission};

use rules::{Refusal, Right};

// The bytes of a list of rights.
pub const BYTES: usize = 288;

// Its numbers, the seats, and the numbers of each seat; the last of these is for the bench as a whole.
const NUMBERS: usize = 72;

const SEATS: u32 = 8;

const SEAT_NUMBERS: usize = 9;

const NINTH: u32 = 8;

// Whether every number of the list is from 0 to 3.
fn rights_in_range(rights: &[u8]) -> bool
    ensures { result ≡ rights_in_range rights.now }
{
    (0..NUMBERS).all(|i| numbers::word_at(rights, i) <= 3)
}

// The number at place k of those of a seat.
#[tactic(auto, unfolding(rules::specs::Seats::right_at))]
fn right_at(rights: &[u8], seat: u32, k: u32) -> u32
    ensures { result ≡ right_at rights.now seat k }
{
    numbers::word_at(rights, seat as usize * SEAT_NUMBERS + k as usize)
}

// Whether a number grants the first of its two things.
#[tactic(auto, unfolding(rules::specs::Seats::grants_first))]
fn grants_first(number: u32) -> bool
    ensures { result ≡ grants_first number }
{
    matches!(number, 1 | 3)
}

// Whether a number grants the second of its two things.
#[tactic(auto, unfolding(rules::specs::Seats::grants_second))]
fn grants_second(number: u32) -> bool
    ensures { result ≡ grants_second number }
{
    matches!(number, 2 | 3)
}

// Whether the numbers of a seat grant a right. The number behind those of the ports is no port's.
#[tactic(auto, unfolding(rules::specs::Seats::grants))]
fn grants(rights: &[u8], seat: u32, right: Right) -> bool
    ensures { result ≡ grants rights.now seat right }
{
    match right {
        Right::Take(port) => {
            port < table::MAX_PORTS && grants_first(right_at(rights, seat, port))
        }
        Right::Give(port) => {
            port < table::MAX_PORTS && grants_second(right_at(rights, seat, port))
        }
        Right::StepAndRun => grants_first(right_at(rights, seat, NINTH)),
        Right::Collect => grants_second(right_at(rights, seat, NINTH)),
    }
}

// Whether a seat has a right.
#[tactic(auto, unfolding(rules::specs::Seats::has_right))]
fn has_right(rights: &[u8], seat: u32, right: Right) -> bool
    ensures { result ≡ has_right rights.now seat right }
{
    seat < SEATS && grants(rights, seat, right)
}

// Grounds 18 and 19.
#[tactic(auto, unfolding(rules::specs::Seats::rights_admission))]
pub fn admit(rights: &[u8], seat: u32, right: Right) -> Result<(), Refusal>
    ensures { result ≡ rights_admission rights.now seat right }
{
    if !rights_in_range(rights) {
        Err(Refusal::Rights)
    } else if has_right(rights, seat, right) {
        Ok(())
    } else {
        Err(Refusal::Seat)
    }
}
