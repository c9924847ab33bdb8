// What is told of a drawn game once its prizes are found: the prizes together, and, in one pass over the live rows, the paid stakes and those of each
// jackpot.
ghost use Rattle.std.specs.Prelude.{◌≡◌, cond, ◌+◌, ◌*◌, ◌<◌, ◌^◌, eqb, sum};
ghost use Rattle.prizes.specs.Jackpots.{winning_stake};
ghost use Rattle.settlement.specs.Passing.{full_of};
ghost use Rattle.sale.specs.Kinds.{number_of};
ghost use Rattle.settlement.specs.Sharing.{winner_from, figures_of};
ghost use Rattle.settlement.specs.Drawn.{Matched};

use crate::drawn_game::DrawnGame;
use crate::ways::TicketWays;
use house::rows::Row;
use sale::terms::JackpotKind;

// Of the tickets that play for a jackpot: what they paid for the game, and the stakes of their ways that match in full.
#[derive(Clone, Copy)]
pub struct Stakes {
    pub jackpot: JackpotKind,
    pub paid: u64,
    pub winning: u64,
}

impl Stakes {
    // Of no ticket.
    fn none(jackpot: JackpotKind) -> Stakes
        ensures { result ≡ record { jackpot = jackpot; paid = 0; winning = 0 } }
    {
        Stakes {
            jackpot,
            paid: 0,
            winning: 0,
        }
    }

    // With those of a ticket, which paid so much for the game and has so many full matches: the same where it does not play for the jackpot.
    fn with_ticket(self, row: Row, paid: u64, full: u64) -> Stakes
        requires paid { self.paid + paid < 2 ^ 64 }
        requires winning { self.winning + full * row.stake < 2 ^ 64 }
        ensures same { result.jackpot ≡ self.jackpot }
        ensures paid { result.paid ≡ self.paid + cond (eqb row.jackpot (number_of self.jackpot)) paid 0 }
        ensures winning { result.winning ≡ self.winning + winning_stake (winner_from row full (number_of self.jackpot)) }
    {
        if row.jackpot != u64::from(self.jackpot) {
            return self;
        }
        Stakes {
            jackpot: self.jackpot,
            paid: self.paid + paid,
            winning: self.winning + full * row.stake,
        }
    }
}

// The prizes of all tickets, what they paid for the game, and the part of those that play for a jackpot.
#[derive(Clone, Copy)]
pub struct GameFigures {
    pub prizes: u64,
    pub stakes: u64,
    pub six: Stakes,
    pub eight: Stakes,
}

// From what the ways of each live ticket win and what it is paid.
pub(crate) fn find_figures(game: &DrawnGame, ways: &[TicketWays], paid: &[u64]) -> GameFigures
    requires matches { Matched game.now ways.now }
    requires prizes { sum paid.now < 2 ^ 64 }
    ensures { result ≡ figures_of game.now.rows.now paid.now (full_of ways.now) game.now.game game.now.live }
{
    let prizes = paid.iter().sum();
    let mut stakes = 0;
    let mut six = Stakes::none(JackpotKind::Six);
    let mut eight = Stakes::none(JackpotKind::Eight);
    for (i, ways) in ways.iter().enumerate() {
        let row = game.row(i);
        let own = row.paid_for(game.game);
        stakes += own;
        six = six.with_ticket(row, own, ways.found.full);
        eight = eight.with_ticket(row, own, ways.found.full);
    }
    GameFigures {
        prizes,
        stakes,
        six,
        eight,
    }
}
