// The house as its caller keeps it: a small struct. The live tickets stand beside it, in rows and marks that the caller lends. The layout is
// that of the struct in C, so the balls are an array with their number beside it, and before the first Open the day is 0. Whether a day is open and whether a
// game is being drawn are one comparison each, which a method would only rename.
ghost use Rattle.std.specs.Prelude.{◌≡◌, List, ℕ};
ghost use Rattle.house.specs.Model.{fresh, next_game};
ghost use Rattle.house.specs.View.{view, InGames};

use prizes::jackpot::Jackpot;

// The figures of the till that no ticket or pool tells. Retained is gained less lost.
#[repr(C)]
#[derive(Clone, Copy)]
pub struct Counters {
    pub taken: u64,
    pub seeds: u64,
    pub paid: u64,
    pub refunded: u64,
    pub unclaimed: u64,
    pub gained: u64,
    pub lost: u64,
}

// Day, current game and its balls, tickets issued, live tickets, the jackpots and the counters.
#[repr(C)]
#[derive(Clone, Copy)]
pub struct House {
    pub day: u64,
    pub game: u64,
    pub balls: [u8; 20],
    pub drawn: u64,
    pub issued: u64,
    pub live: u64,
    pub six: Jackpot,
    pub eight: Jackpot,
    pub counters: Counters,
}

impl House {
    // The guarantee of the jackpot for 6 numbers, in cents.
    pub const GUARANTEE_OF_SIX: u64 = 100_000;

    // The guarantee of the jackpot for 8 numbers, in cents.
    pub const GUARANTEE_OF_EIGHT: u64 = 1_250_000;

    // The seeds that a fresh house has put into the primaries, in cents.
    pub const FRESH_SEEDS: u64 = House::GUARANTEE_OF_SIX + House::GUARANTEE_OF_EIGHT;

    // The most live tickets.
    pub const LIVE_LIMIT: u64 = 200;

    // The most tickets ever issued.
    pub const TICKET_LIMIT: u64 = 9_999_999;

    // The last game.
    pub const GAME_LIMIT: u64 = 9_999_999;

    // A house in which nothing has happened, whatever the lent buffers hold.
    #[tactic(auto, unfolding(crate::specs::View::view, sale::specs::Lists::below))]
    pub fn fresh() -> House
        ensures { (rows marks : List ℕ) → view result rows marks ≡ fresh }
    {
        let six = Jackpot::fresh(House::GUARANTEE_OF_SIX);
        let eight = Jackpot::fresh(House::GUARANTEE_OF_EIGHT);
        House {
            day: 0,
            game: 1,
            balls: [0u8; 20],
            drawn: 0,
            issued: 0,
            live: 0,
            six,
            eight,
            counters: Counters {
                taken: 0,
                seeds: House::FRESH_SEEDS,
                paid: 0,
                refunded: 0,
                unclaimed: 0,
                gained: 0,
                lost: 0,
            },
        }
    }

    // The first game that is not being drawn: where a new ticket begins, and what Cancel can still take off. That the game is in range is a clause, here
    // and in a sale: a fact that the type kept would be asked of a host in C that no contract tells of it.
    #[tactic(auto, using(crate::proofs::ViewLaws::next_waiting, crate::proofs::ViewLaws::next_drawing))]
    pub fn first_game(self) -> u64
        requires { InGames self }
        ensures { (words marks : List ℕ) → result ≡ next_game (view self words marks) }
    {
        if self.drawn == 0 {
            self.game
        } else {
            self.game + 1
        }
    }
}
