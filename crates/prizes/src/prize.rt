// The prize of a way.
ghost use Rattle.std.specs.Prelude.{◌≡◌};
ghost use Rattle.prizes.specs.Prize.{is_major, dollars, prize};

use crate::schedule::PrizeTable;
use sale::terms::{Kind, Schedule};

// The most that a way wins, in cents, but for jackpot tickets (rule 12.2).
pub const PRIZE_LIMIT: u64 = 5_000_000;

// The least major prize, in cents. No cut goes below it.
pub const MAJOR_FLOOR: u64 = 20_000;

// What a way wins for a stake of one dollar, jackpot shares aside.
#[tactic(auto, unfolding(crate::specs::Prize::dollars))]
pub fn dollars_of(kind: Kind, selection: u32, matched: u32, table: &PrizeTable) -> u16
    ensures { result ≡ dollars kind selection matched }
{
    match kind {
        Kind::Jackpot if matched == selection => 0,
        Kind::Standard | Kind::Jackpot => table.standard(selection, matched),
        Kind::Special(Schedule::One) => table.special_one(selection, matched),
        Kind::Special(Schedule::Two) => table.special_two(selection, matched),
    }
}

// The prize of a way, in cents and before any cut: at most $50,000, but for jackpot tickets.
#[tactic(auto, unfolding(crate::specs::Prize::prize))]
pub fn prize_of(kind: Kind, stake: u32, selection: u32, matched: u32, table: &PrizeTable) -> u64
    ensures { result ≡ prize kind stake selection matched }
{
    let cents = dollars_of(kind, selection, matched, table) as u64 * stake as u64;
    if kind.is_jackpot() {
        cents
    } else {
        cents.min(PRIZE_LIMIT)
    }
}

// Whether a prize is a major one.
pub fn is_major(cents: u64) -> bool
    ensures { result ≡ is_major cents }
{
    cents >= MAJOR_FLOOR
}
