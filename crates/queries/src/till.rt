// What can be read off the house: the nine figures of the till, and the jackpots' pools.
ghost use Rattle.std.specs.Prelude.{◌≡◌, List, [], ℕ, ◌^◌, ◌<◌, max};
ghost use Rattle.prizes.specs.Jackpots.{pooled};
ghost use Rattle.house.specs.Till.{till_of};
ghost use Rattle.queries.specs.Shown.{shown_till, pools_of};
ghost use Rattle.house.specs.Tickets.{held_for};
ghost use Rattle.house.specs.View.{row_at, ticket_in, IsRow, PaidWithin, view};
ghost use Rattle.house.specs.Parts.{ComesWith};

use house::rows::read_row;
use house::state::House;
use prizes::jackpot::Jackpot;

// The nine figures in document 01's order. Retained is its size, and `negative` says whether it is below zero: a flag beside a size, since the
// struct goes to C as it stands.
#[repr(C)]
#[derive(Clone, Copy)]
pub struct Till {
    pub taken: u64,
    pub seeds: u64,
    pub paid: u64,
    pub refunded: u64,
    pub owed: u64,
    pub held: u64,
    pub unclaimed: u64,
    pub pooled: u64,
    pub retained: u64,
    pub negative: bool,
}

// The pools and the debt of each jackpot.
#[repr(C)]
#[derive(Clone, Copy)]
pub struct Pools {
    pub six: Jackpot,
    pub eight: Jackpot,
}

// The pools and the debts as the house keeps them.
#[tactic(auto, unfolding(house::specs::View::view))]
pub fn pools_of(house: House) -> Pools
    ensures { (words marks : List ℕ) → result ≡ pools_of (view house words marks) }
{
    Pools {
        six: house.six,
        eight: house.eight,
    }
}

// The three pools of a jackpot together.
fn pooled_in(jackpot: Jackpot) -> u64
    requires { pooled jackpot < 2 ^ 62 }
    ensures { result ≡ pooled jackpot }
{
    jackpot.primary + jackpot.secondary + jackpot.reimbursement
}

// What is held for all live tickets. That the house comes from commands with its rows is a clause, here and below: a host lends the two apart, so that it
// is a fact of neither.
fn held_of(house: &House, rows: &[u64; 3200]) -> u64
    requires { ComesWith house.now rows.now }
    ensures { (marks : List ℕ) → result ≡ (till_of (view house.now rows.now marks)).held }
{
    let game = house.game;
    (0..house.live as usize)
        .map(
            |i|
                requires { IsRow i × PaidWithin (max (row_at rows.now i).first game) (row_at rows.now i).stop (row_at rows.now i) }
                ensures { result ≡ held_for game (ticket_in rows.entry.now [] i) }
            { read_row(rows, i).held_for(game) },
        )
        .sum()
}

// What is owed to all live tickets.
fn owed_of(house: &House, rows: &[u64; 3200]) -> u64
    requires { ComesWith house.now rows.now }
    ensures { (marks : List ℕ) → result ≡ (till_of (view house.now rows.now marks)).owed }
{
    (0..house.live as usize)
        .map(
            |i|
                requires { IsRow i }
                ensures { result ≡ (row_at rows.entry.now i).due }
            { read_row(rows, i).due },
        )
        .sum()
}

// The nine figures of the till. Held and owed are counted from the rows.
pub fn till_of(house: House, rows: &[u64; 3200]) -> Till
    requires { ComesWith house rows.now }
    ensures { (marks : List ℕ) → result ≡ shown_till (till_of (view house rows.now marks)) }
{
    let counters = house.counters;
    Till {
        taken: counters.taken,
        seeds: counters.seeds,
        paid: counters.paid,
        refunded: counters.refunded,
        owed: owed_of(&house, rows),
        held: held_of(&house, rows),
        unclaimed: counters.unclaimed,
        pooled: pooled_in(house.six) + pooled_in(house.eight),
        retained: counters.gained.abs_diff(counters.lost),
        negative: counters.gained < counters.lost,
    }
}
