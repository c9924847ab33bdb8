// One jackpot's part of a drawn game: contributions, shares, seed and what is paid back.
ghost use Rattle.std.specs.Prelude.{◌≡◌, ℕ, ◌<◌, ◌^◌, length, get_or};
ghost use Rattle.sale.specs.Kinds.{number_of};
ghost use Rattle.settlement.specs.Passing.{full_of};
ghost use Rattle.settlement.specs.Sharing.{stakes_of};
ghost use Rattle.settlement.specs.Settling.{guarantee_of};
ghost use Rattle.settlement.specs.Drawn.{Matched, PoolsFit, SharedOut};

use crate::drawn_game::DrawnGame;
use crate::figures::Stakes;
use crate::primary::Primary;
use crate::ways::TicketWays;
use house::state::House;
use prizes::jackpot::Jackpot;
use sale::terms::JackpotKind;

// The jackpot after the game, the shares together, and the totals that the till takes in.
#[derive(Clone, Copy)]
pub struct Part {
    pub after: Jackpot,
    pub shares: u64,
    pub contributions: u64,
    pub seed: u64,
    pub repaid: u64,
}

// What a jackpot is brought up to when it is won. No method of the enum: the house's constants stand in a crate above it.
fn guarantee_of(jackpot: JackpotKind) -> u64
    ensures { result ≡ guarantee_of (number_of jackpot) }
{
    match jackpot {
        JackpotKind::Six => House::GUARANTEE_OF_SIX,
        JackpotKind::Eight => House::GUARANTEE_OF_EIGHT,
    }
}

// The game's part of a jackpot, from its stakes. Its shares join what each ticket is paid.
pub(crate) fn settle_jackpot(
    game: &DrawnGame,
    ways: &[TicketWays],
    stakes: Stakes,
    before: Jackpot,
    paid: &mut [u64],
) -> Part
    requires matches { Matched game.now ways.now }
    requires stakes { stakes ≡ stakes_of game.now.rows.now (full_of ways.now) game.now.game stakes.jackpot game.now.live }
    requires pools { PoolsFit before }
    requires places { length paid.old ≡ game.now.live }
    requires room { (i : ℕ) → i < game.now.live → get_or paid.old i 0 < 2 ^ 63 }
    ensures { SharedOut game.now (number_of stakes.jackpot) before paid.old paid.new result }
{
    let grown = before.contributed(stakes.paid);
    let primary = Primary {
        rows: game.rows,
        ways,
        jackpot: stakes.jackpot,
        cents: grown.primary,
        stakes: stakes.winning,
    };
    let shares = primary.share_out(paid);
    let won = 0 < stakes.winning;
    let guarantee = guarantee_of(stakes.jackpot);
    let next = grown.reseeded(won, guarantee);
    Part {
        after: next.repaid(),
        shares,
        contributions: 25 * (stakes.paid / 100),
        seed: grown.seed(won, guarantee),
        repaid: next.repayment(),
    }
}
