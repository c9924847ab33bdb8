// All prizes of a drawn game: those of the ways, as cut, and then Lucky Last's, which no cut touches.
ghost use Rattle.std.specs.Prelude.{◌≡◌, ℕ, ◌+◌, ◌<◌, ◌^◌, length, get_or, map};
ghost use mathlib.Core.List.{zip_with};
ghost use Rattle.house.specs.View.{ticket_in};
ghost use Rattle.sale.specs.Lists.{sum};
ghost use Rattle.settlement.specs.Settling.{feature_at, prizes_in};
ghost use Rattle.settlement.specs.Drawn.{drawn_tickets, Prized};

use crate::drawn_game::DrawnGame;
use crate::payouts::find_payouts;
use crate::ways::TicketWays;
use prizes::lucky_last::feature_prize;

// The feature prize of the ticket at a place: nothing where it has no feature or does not run in the game. Most have none, so that is asked first.
// A ticket as it was sold keeps the feature stake within 32 bits, so that `as` loses nothing: `try_from` would add an error that cannot be.
#[tactic(auto, using(crate::proofs::FeatureLaws::no_feature_at))]
fn feature_at(game: &DrawnGame, i: usize) -> u64
    requires { i < game.now.live }
    ensures { result ≡ feature_at game.now.game game.now.draw (ticket_in game.now.rows.now game.now.marks.now i) }
{
    let row = game.row(i);
    if row.feature == 0 {
        return 0;
    }
    if !row.runs_in(game.game) {
        return 0;
    }
    feature_prize(game.draw, game.marks_of(i), row.sizes, row.feature as u32)
}

// Each ticket's feature prize joined to what it is paid.
fn add_features(game: &DrawnGame, paid: &mut [u64])
    requires places { length paid.old ≡ game.now.live }
    requires room { (i : ℕ) → i < game.now.live → get_or paid.old i 0 < 2 ^ 63 }
    ensures { paid.new ≡ zip_with ◌+◌ paid.old (map (feature_at game.now.game game.now.draw) (drawn_tickets game.now)) }
{
    for (i, paid) in paid.iter_mut().enumerate() {
        *paid += feature_at(game, i);
    }
}

// Fills both tables, which have a place for each live ticket.
pub(crate) fn find_prizes(game: &DrawnGame, ways: &mut [TicketWays], paid: &mut [u64])
    requires ways { length ways.old ≡ game.now.live }
    requires paid { length paid.old ≡ game.now.live }
    requires room { sum (prizes_in game.now.game game.now.draw (drawn_tickets game.now)) < 2 ^ 62 }
    ensures { Prized game.now ways.new paid.new }
{
    find_payouts(game, ways, paid);
    add_features(game, paid);
}
