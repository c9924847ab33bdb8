// One round of the cut of a game's major prizes (rules 12.3 to 12.5).
ghost use Rattle.std.specs.Prelude.{◌≡◌, ◌+◌, ◌*◌, ◌-◌, ◌/◌, ◌%◌};
ghost use Rattle.prizes.specs.Prize.{major_floor};
ghost use Rattle.prizes.specs.Bounds.{Payable, Cuttable, Divided};
ghost use Rattle.prizes.specs.Rounds.{first_cut, uncut, pay_under, next_below};

use crate::prize::MAJOR_FLOOR;

// The most that a game pays in major prizes together, in cents (rule 12.3).
pub const MAJORS_LIMIT: u64 = 5_000_000;

// So many floors make the most for a game: from as many major prizes on, each is paid the floor.
pub const FLOORS_IN_LIMIT: u64 = 250;

// A round of the cut: the floored prizes are those below `below`, `count` of them, and the others make `base` cents. The same figures say
// that none is floored before the first round, so that no flag does. They keep no fact: `first` takes any base, and each part asks for what it needs.
#[derive(Clone, Copy)]
pub struct Cut {
    pub below: u64,
    pub count: u64,
    pub base: u64,
}

impl Cut {
    // The state before the first round, where the major prizes make `base` cents.
    pub fn first(base: u64) -> Cut
        ensures { result ≡ first_cut base }
    {
        Cut {
            below: 0,
            count: 0,
            base,
        }
    }

    // The state under which no prize is cut: each is its own part of the most for a game. No `Option<Cut>`: by the same formula each prize is paid its own
    // amount under this state, so that callers know one case.
    pub fn none() -> Cut
        ensures { result ≡ uncut }
    {
        Cut::first(MAJORS_LIMIT)
    }

    // What the prizes outside the floored share of the most for a game, 0 where the floored take it all.
    fn shareable(self) -> u64
        ensures { result ≡ Rattle.prizes.specs.Rounds.shareable self }
    {
        FLOORS_IN_LIMIT.saturating_sub(self.count) * MAJOR_FLOOR
    }

    // What a prize pays under this state.
    #[tactic(auto, unfolding(crate::specs::Rounds::pay_under))]
    pub fn payout(self, prize: u64) -> u64
        requires { Payable prize }
        ensures { result ≡ pay_under self prize }
    {
        if prize < MAJOR_FLOOR {
            return prize;
        }
        if prize < self.below {
            return MAJOR_FLOOR;
        }
        let part = self.shareable();
        if self.base < prize {
            return part;
        }
        prize * part / self.base
    }

    // The bound of the floored prizes after one more round.
    #[tactic(auto, unfolding(crate::specs::Rounds::next_below))]
    pub fn next_below(self) -> u64
        requires { Cuttable self }
        ensures { result ≡ next_below self }
    {
        let part = self.shareable();
        if part == 0 {
            return self.below.max(self.base + 1);
        }
        self.below.max(rounded_up(self.base, part))
    }
}

// The floor × base / part, rounded up, with no product that could overflow.
fn rounded_up(base: u64, part: u64) -> u64
    requires { Divided base part }
    ensures { result ≡ major_floor * (base / part) + (major_floor * (base % part) + (part - 1)) / part }
{
    MAJOR_FLOOR * (base / part) + (MAJOR_FLOOR * (base % part)).div_ceil(part)
}
