// Questions about one ticket, asked of its row: its games, its dues, its days and its stakes. None of them reads a mark.
ghost use Rattle.std.specs.Prelude.{◌≡◌, cond, not, List, ℕ, ◌+◌, max};
ghost use Rattle.calendar.specs.Bounds.{ExpiryBound};
ghost use Rattle.house.specs.Tickets.{runs_in, is_finished, is_live, ticket_price, paid_stakes, held_for, keno_to_go_begun};
ghost use Rattle.house.specs.Model.{Model};
ghost use Rattle.house.specs.Commands.{finished_on, is_expired};
ghost use Rattle.house.specs.View.{ticket_from, Affordable, PaidWithin, DayTells};

use crate::rows::Row;

impl Row {
    // Whether the ticket runs in a game.
    #[tactic(auto, unfolding(crate::specs::Tickets::runs_in))]
    pub fn runs_in(self, game: u64) -> bool
        ensures { (marks : List ℕ) → result ≡ runs_in game (ticket_from self marks) }
    {
        (self.first..self.stop).contains(&game)
    }

    // Whether no game is left to draw where the given one is the current one.
    #[tactic(auto, unfolding(crate::specs::Tickets::games_left))]
    pub fn is_finished(self, game: u64) -> bool
        ensures { (marks : List ℕ) → result ≡ is_finished game (ticket_from self marks) }
    {
        self.stop <= self.first.max(game)
    }

    // Whether the ticket is finished with nothing due.
    pub fn is_closed(self, game: u64) -> bool
        ensures { (marks : List ℕ) → result ≡ not (is_live game (ticket_from self marks)) }
    {
        self.due == 0 && self.is_finished(game)
    }

    // Whether the ticket has expired, by the day's bound. One that is not finished has no finishing day.
    #[tactic(auto, using(crate::proofs::ViewLaws::stands_unfinished, crate::proofs::ViewLaws::expires_by_bound))]
    pub fn is_expired(self, bound: u64) -> bool
        ensures { (m : Model) (marks : List ℕ)
            → DayTells m.game (ticket_from self marks)
            → ExpiryBound m.day bound
            → result ≡ is_expired m (ticket_from self marks) }
    {
        self.finished != 0 && self.finished < bound
    }

    // Whether the ticket is one of 50 games or more and has begun.
    #[tactic(auto, unfolding(crate::specs::Tickets::keno_to_go_begun))]
    pub fn keno_to_go_begun(self, game: u64, drawing: bool) -> bool
        ensures { (marks : List ℕ) → result ≡ keno_to_go_begun game drawing (ticket_from self marks) }
    {
        self.games >= 50 && (self.first < game || self.first == game && drawing)
    }

    // The ticket, with the day as its finishing day where it is finished and has none.
    pub fn finished_on(mut self, day: u64, game: u64) -> Row
        ensures { (marks : List ℕ) → ticket_from result marks ≡ finished_on day game (ticket_from self marks) }
    {
        if self.finished == 0 && self.is_finished(game) {
            self.finished = day;
        }
        self
    }

    // What the ticket pays for a game: the stakes of its ways and its feature stake. Its bound is a clause, here and below, and no fact of the row: any
    // 16 words that a host lends are read as a row.
    #[tactic(auto, using(crate::proofs::RowLaws::row_feature), unfolding(sale::specs::Price::game_price))]
    fn game_price(self) -> u64
        requires { Affordable self }
        ensures { (marks : List ℕ) → result ≡ ticket_price (ticket_from self marks) }
    {
        self.stake * self.ways + self.feature
    }

    // The paid stakes of the games from one up to another: those before the first free one.
    #[tactic(auto, using(crate::proofs::SpanLaws::stakes_by_games))]
    pub fn paid_stakes(self, from: u64, upto: u64) -> u64
        requires { PaidWithin from upto self }
        ensures { (marks : List ℕ) → result ≡ paid_stakes from upto (ticket_from self marks) }
    {
        let games = upto.min(self.free).saturating_sub(from);
        if games == 0 {
            return 0;
        }
        self.game_price() * games
    }

    // The paid stakes of the games that are left.
    pub fn held_for(self, game: u64) -> u64
        requires { PaidWithin (max self.first game) self.stop self }
        ensures { (marks : List ℕ) → result ≡ held_for game (ticket_from self marks) }
    {
        self.paid_stakes(self.first.max(game), self.stop)
    }

    // What the ticket paid for a game: nothing where it does not run in it, or plays it free.
    #[tactic(auto, using(crate::proofs::SpanLaws::stakes_by_games))]
    pub fn paid_for(self, game: u64) -> u64
        requires { Affordable self }
        ensures { (marks : List ℕ) → result ≡ cond (runs_in game (ticket_from self marks)) (paid_stakes game (game + 1) (ticket_from self marks)) 0 }
    {
        if game < self.free && self.runs_in(game) {
            self.game_price()
        } else {
            0
        }
    }
}
