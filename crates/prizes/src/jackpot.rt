// The pools of one jackpot: its contributions, its shares, its seed and what is paid back.
ghost use Rattle.std.specs.Prelude.{◌≡◌, ◌+◌, ◌*◌, min};
ghost use Rattle.prizes.specs.Bounds.{Contributing, Seeding, Sharing, Winning};
ghost use Rattle.prizes.specs.Jackpots.{fresh_jackpot, contributed, share_of, seed_of, reseeded, repaid_of, repaid};

// Three pools and the seed debt, in cents.
#[repr(C)]
#[derive(Clone, Copy)]
pub struct Jackpot {
    pub primary: u64,
    pub secondary: u64,
    pub reimbursement: u64,
    pub debt: u64,
}

impl Jackpot {
    // The primary at its guarantee, and the same owed for it.
    pub fn fresh(guarantee: u64) -> Jackpot
        ensures { result ≡ fresh_jackpot guarantee }
    {
        Jackpot {
            primary: guarantee,
            secondary: 0,
            reimbursement: 0,
            debt: guarantee,
        }
    }

    // With the contributions of so many cents of paid stakes.
    #[tactic(auto, unfolding(crate::specs::Jackpots::contributed))]
    pub fn contributed(self, paid: u64) -> Jackpot
        requires { Contributing self paid }
        ensures { result ≡ contributed paid self }
    {
        let dollars = paid / 100;
        Jackpot {
            primary: self.primary + 15 * dollars,
            secondary: self.secondary + 5 * dollars,
            reimbursement: self.reimbursement + 5 * dollars,
            ..self
        }
    }

    // The seed that is needed after the primary was won. `won` stands beside the guarantee: that is the jackpot's own whether or not it was won, and `won` is
    // the rule's condition, so that an Option of the guarantee would be made for the call alone.
    #[tactic(auto, unfolding(crate::specs::Jackpots::seed_of))]
    pub fn seed(self, won: bool, guarantee: u64) -> u64
        ensures { result ≡ seed_of won guarantee self }
    {
        if won {
            guarantee.saturating_sub(self.secondary)
        } else {
            0
        }
    }

    // The secondary and the seed as the next primary, where the last one was won.
    #[tactic(auto, unfolding(crate::specs::Jackpots::seed_of, crate::specs::Jackpots::reseeded))]
    pub fn reseeded(self, won: bool, guarantee: u64) -> Jackpot
        requires { Seeding self guarantee }
        ensures { result ≡ reseeded won guarantee self }
    {
        if !won {
            return self;
        }
        let seed = self.seed(won, guarantee);
        Jackpot {
            primary: self.secondary + seed,
            secondary: 0,
            debt: self.debt + seed,
            ..self
        }
    }

    // What the reimbursement pool can pay of the debt.
    pub fn repayment(self) -> u64
        ensures { result ≡ repaid_of self }
    {
        self.reimbursement.min(self.debt)
    }

    // After that payment.
    #[tactic(auto, unfolding(crate::specs::Jackpots::repaid))]
    pub fn repaid(self) -> Jackpot
        ensures { result ≡ repaid self }
    {
        let paid = self.repayment();
        Jackpot {
            reimbursement: self.reimbursement - paid,
            debt: self.debt - paid,
            ..self
        }
    }
}

// A winning way's share, rounded down. The quotient is taken first: primary × stake can pass 64 bits. The primary and the stakes are two numbers here: what has
// both, with the tickets that share, stands in a crate above (`Primary` of `settlement`).
#[tactic(auto, using(crate::proofs::ShareLaws::share_by_parts))]
pub fn share_of(primary: u64, stakes: u64, stake: u32) -> u64
    requires { Sharing primary stakes 1 stake }
    ensures { result ≡ share_of primary stakes stake }
{
    let whole = primary / stakes;
    let left = primary % stakes;
    whole * stake as u64 + left * stake as u64 / stakes
}

// The shares of a ticket's winning ways with their odd cents.
pub fn ticket_share(odd: u64, primary: u64, stakes: u64, count: u64, stake: u32) -> u64
    requires { Winning primary stakes count stake }
    ensures { result ≡ count * share_of primary stakes stake + min odd count }
{
    count * share_of(primary, stakes, stake) + odd.min(count)
}
