// The twentieth ball: the game is settled by its draw, its awards end it, and the till and the pools take the rest in.
ghost use Rattle.std.specs.Prelude.{◌≡◌, ℕ};
ghost use Rattle.house.specs.Commands.{ball};
ghost use Rattle.house.specs.View.{view};
ghost use Rattle.house.specs.Parts.{Carried, host_answer};
ghost use Rattle.draw.specs.Closing.{house_settled, RoomyCounters, CompletesDraw, CompletedDraw};

use crate::game_end::end_game;
use house::answer::Receipt;
use house::state::{Counters, House};
use prizes::draw::Draw;
use settlement::settle::{Settlement, settle};

// The house with the pools and the counters of a settled game.
fn with_settlement(house: House, settlement: Settlement) -> House
    requires { RoomyCounters (house_settled house settlement).counters }
    ensures { result ≡ house_settled house settlement }
{
    let six = settlement.six;
    let eight = settlement.eight;
    let counters = house.counters;
    House {
        six: six.after,
        eight: eight.after,
        counters: Counters {
            seeds: counters.seeds + (six.seed + eight.seed),
            gained: counters.gained + settlement.stakes + (six.repaid + eight.repaid),
            lost: counters.lost + (six.contributions + eight.contributions) + settlement.prizes,
            ..counters
        },
        ..house
    }
}

// Settles the current game by the draw that its twentieth ball completes.
pub(crate) fn settle_game(
    house: &mut House,
    rows: &mut [u64; 3200],
    marks: &mut [u8; 16000],
    draw: Draw,
) -> Receipt
    requires { CompletedDraw (view house.old rows.old marks.old) draw }
    ensures { (number : ℕ) → CompletesDraw (view house.old rows.old marks.old) number draw → Carried house.old rows.old marks.old (ball number) house.new rows.new marks.new (host_answer (Ok result)) }
{
    let mut awards = [0u64; 200];
    let settlement = settle(*house, rows, marks, draw, &mut awards);
    let cents = settlement.prizes + (settlement.six.shares + settlement.eight.shares);
    let ended = end_game(*house, rows, marks, &awards);
    *house = with_settlement(ended, settlement);
    Receipt { number: 20, cents }
}
