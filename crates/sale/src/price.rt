// What a ticket costs: paid games, stakes, charge and refund.
ghost use Rattle.std.specs.Prelude.{◌≡◌};
ghost use Rattle.sale.specs.Price.{paid_games, minimum_stake, stake_fits, game_price, charge};
ghost use Rattle.sale.specs.Bounds.{Counted};

use crate::terms::Kind;

// The most that a ticket costs, in cents.
pub const CHARGE_LIMIT: u64 = 999_900;

// The games that are paid for: of 50 and more the last one is free, of 100 the last two.
#[tactic(auto, using(std::proofs::lemmas::Bool::Decides::nat_tests), unfolding(crate::specs::Price::paid_games))]
pub fn paid_games(games: u8) -> u8
    ensures { result ≡ paid_games games }
{
    if games < 50 {
        games
    } else if games < 100 {
        games - 1
    } else {
        games - 2
    }
}

// The least stake for a way and a game.
#[tactic(auto, using(std::proofs::lemmas::Bool::Decides::nat_tests), unfolding(crate::specs::Price::minimum_stake))]
pub fn minimum_stake(kind: Kind, count: u32) -> u32
    ensures { result ≡ minimum_stake kind count }
{
    if kind.is_jackpot() {
        return 100;
    }
    match count {
        0..=3 => 100,
        4..=19 => 50,
        20..=49 => 20,
        _ => 10,
    }
}

// Whether a stake is at least the minimum and in the steps that its size allows.
#[tactic(auto, using(std::proofs::lemmas::Bool::Decides::nat_tests), unfolding(crate::specs::Price::stake_fits, crate::specs::Price::minimum_stake))]
pub fn stake_fits(kind: Kind, count: u32, stake: u32) -> bool
    ensures { result ≡ stake_fits kind count stake }
{
    if stake < minimum_stake(kind, count) {
        return false;
    }
    if stake <= 100 {
        stake % 10 == 0
    } else {
        stake % 100 == 0
    }
}

// The price of so many paid games: the stakes of the ways and the feature stake, for each of them. Sums and places here widen by `as`: that is the number
// itself to the check, where a `From` is a call whose result each proof has to follow.
#[tactic(auto, unfolding(crate::specs::Price::game_price, crate::specs::Price::charge))]
pub fn charge_of(stake: u32, count: u32, feature: u32, paid: u8) -> u64
    requires { Counted count }
    ensures { result ≡ charge (game_price stake count feature) paid }
{
    (stake as u64 * count as u64 + feature as u64) * paid as u64
}
