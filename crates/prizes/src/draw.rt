// The draw of a game.
ghost use Rattle.std.specs.Prelude.{◌≡◌};
ghost use Rattle.prizes.specs.Hits.{draw_of};

// The numbers drawn in a game, in the order of the draw, and the one of them that came last.
#[derive(Clone, Copy)]
pub struct Draw {
    pub balls: [u8; 20],
    pub last: u8,
}

impl Draw {
    // The draw that twenty balls make.
    #[tactic(auto, using(crate::proofs::LuckyLastLaws::last_at))]
    pub fn of(balls: [u8; 20]) -> Draw
        ensures { result ≡ draw_of balls }
    {
        let last = balls[19];
        Draw { balls, last }
    }
}
