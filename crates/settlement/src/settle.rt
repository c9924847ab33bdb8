// The settlement of a game by its draw: prizes with their cut and feature prizes, both jackpots, and what each live ticket is awarded.
ghost use Rattle.std.specs.Prelude.{◌+◌, ◌<◌, ◌^◌};
ghost use Rattle.house.specs.View.{view};
ghost use Rattle.settlement.specs.Settling.{Settleable, SettledAs};
ghost use Rattle.settlement.specs.Drawn.{PoolsFit, settled_game, SettledGame};

use crate::drawn_game::DrawnGame;
use crate::features::find_prizes;
use crate::figures::find_figures;
use crate::shares::{Part, settle_jackpot};
use crate::ways::TicketWays;
use house::state::House;
use prizes::draw::Draw;
use prizes::jackpot::Jackpot;

// The prizes as cut, the paid stakes of the game, and the two jackpots' parts of it.
#[derive(Clone, Copy)]
pub struct Settlement {
    pub prizes: u64,
    pub stakes: u64,
    pub six: Part,
    pub eight: Part,
}

// Of a game with the jackpots before it, which are two parameters as they are two fields of the house, which C lays out. Fills the first places of both
// tables, one for each live ticket. The functions that they are lent to each ask for the slices' lengths and for room in what is paid: a slice carries its length but no
// fact about it, the host lends any words, and a struct of the two `&mut` would have to say of each that it is the one handed in.
fn settle_drawn(
    game: &DrawnGame,
    before_six: Jackpot,
    before_eight: Jackpot,
    ways: &mut [TicketWays; 200],
    awards: &mut [u64; 200],
) -> Settlement
    requires six { PoolsFit before_six }
    requires eight { PoolsFit before_eight }
    requires room { (settled_game game.now before_six before_eight).prizes + (settled_game game.now before_six before_eight).shares < 2 ^ 62 }
    ensures { SettledGame game.now before_six before_eight awards.new result }
{
    let ways = &mut ways[..game.live];
    let awards = &mut awards[..game.live];
    find_prizes(game, ways, awards);
    let figures = find_figures(game, ways, awards);
    let six = settle_jackpot(game, ways, figures.six, before_six, awards);
    let eight = settle_jackpot(game, ways, figures.eight, before_eight, awards);
    Settlement {
        prizes: figures.prizes,
        stakes: figures.stakes,
        six,
        eight,
    }
}

// Fills the first places of `awards`, one for each live ticket. Nothing of the house changes.
pub fn settle(
    house: House,
    rows: &[u64; 3200],
    marks: &[u8; 16000],
    draw: Draw,
    awards: &mut [u64; 200],
) -> Settlement
    requires { Settleable (view house rows.now marks.now) draw }
    ensures { SettledAs (view house rows.now marks.now) draw awards.new result }
{
    let game = DrawnGame {
        rows,
        marks,
        live: house.live as usize,
        game: house.game,
        draw,
    };
    let mut ways = [TicketWays::NONE; 200];
    settle_drawn(&game, house.six, house.eight, &mut ways, awards)
}
