// The primary of a jackpot, shared out in a drawn game. Rows are passed only where a way won.
ghost use Rattle.std.specs.Prelude.{◌≡◌, ℕ, ◌+◌, ◌*◌, ◌-◌, ◌<◌, ◌^◌, cond, min, length, get_or};
ghost use mathlib.Core.List.{zip_with};
ghost use Rattle.sale.specs.Lists.{sum};
ghost use Rattle.sale.specs.Kinds.{number_of};
ghost use Rattle.prizes.specs.Jackpots.{ranks_before, odd_cents, shares_from, jackpot_shares};
ghost use Rattle.settlement.specs.Passing.{full_of};
ghost use Rattle.settlement.specs.Sharing.{ways_ahead, Shareable};

use crate::ways::TicketWays;
use house::rows::read_row;
use prizes::jackpot::ticket_share;
use sale::terms::JackpotKind;

// A ticket's winning ways, and the stake of each.
#[derive(Clone, Copy)]
pub(crate) struct WinningWays {
    pub(crate) count: u64,
    pub(crate) stake: u64,
}

// What a jackpot has to share, and the live tickets that share it by the stakes of their winning ways, if any won.
#[derive(Clone, Copy)]
pub(crate) struct Primary<'a> {
    pub(crate) rows: &'a [u64; 3200],
    pub(crate) ways: &'a [TicketWays],
    pub(crate) jackpot: JackpotKind,
    pub(crate) cents: u64,
    pub(crate) stakes: u64,
    ghost shared: { Shareable rows.now (full_of ways.now) (number_of jackpot) (length ways.now) cents stakes },
}

impl Primary<'_> {
    ghost use Rattle.settlement.specs.Sharers.{sharer_at, way_at, sharers, share_given};

    // The winning ways of the ticket at a place: its full matches, where it plays for the jackpot.
    fn winning_ways(&self, i: usize) -> WinningWays
        requires { i < length self.now.ways.now }
        ensures count { result.count ≡ (sharer_at self.now i).count }
        ensures stake { result.stake ≡ (sharer_at self.now i).stake }
    {
        let row = read_row(self.rows, i);
        let count = if row.jackpot == u64::from(self.jackpot) {
            self.ways[i].found.full
        } else {
            0
        };
        WinningWays {
            count,
            stake: row.stake,
        }
    }

    // The winning ways of the ticket at one place, if they rank before those of the ticket at another, which have the given stake: by the larger stake, and of
    // equal stakes by the earlier place. Rows stand in rising ticket number, so that an earlier place is a smaller number.
    fn ranking_before(&self, i: usize, place: usize, stake: u64) -> u64
        requires { i < length self.now.ways.now }
        ensures { result ≡ cond (ranks_before (way_at self.now i) (record { place = place; stake = stake })) (sharer_at self.now i).count 0 }
    {
        let ways = self.winning_ways(i);
        if ways.stake > stake || (ways.stake == stake && i < place) {
            ways.count
        } else {
            0
        }
    }

    // How many winning ways are given an odd cent before those of the ticket at a place are.
    fn ways_ahead(&self, place: usize, stake: u64) -> u64
        ensures { result ≡ ways_ahead (sharers self.now) place stake }
    {
        (0..self.ways.len())
            .map(|i| self.ranking_before(i, place, stake))
            .sum()
    }

    // What the winning ways of the ticket at a place get, where there are so many odd cents to give. Without a winning way, or without an odd cent, nothing is
    // ranked. The primary's stakes bound this one, so that `as` loses nothing: `try_from` would add an error that cannot be.
    fn share_at(&self, i: usize, odd: u64) -> u64
        requires place { i < length self.now.ways.now }
        requires won { 0 < self.now.stakes }
        ensures { result ≡ share_given self.now odd i }
    {
        let ways = self.winning_ways(i);
        if ways.count == 0 {
            return 0;
        }
        let left = if odd == 0 {
            0
        } else {
            odd.saturating_sub(self.ways_ahead(i, ways.stake))
        };
        ticket_share(left, self.cents, self.stakes, ways.count, ways.stake as u32)
    }

    // The cents that rounding leaves: what there is above the shares with no odd cent.
    fn odd_cents(&self) -> u64
        requires won { 0 < self.now.stakes }
        ensures { result ≡ odd_cents self.now.cents self.now.stakes (sharers self.now) }
    {
        let shared: u64 = (0..self.ways.len()).map(|i| self.share_at(i, 0)).sum();
        self.cents - shared
    }

    // The shares joined to what each ticket is paid, with the odd cents to the ways of the larger stakes.
    fn add_shares(&self, odd: u64, paid: &mut [u64])
        requires won { 0 < self.now.stakes }
        requires places { length paid.old ≡ length self.now.ways.now }
        requires room { (i : ℕ) → i < length self.now.ways.now → get_or paid.old i 0 < 2 ^ 63 }
        ensures { paid.new ≡ zip_with ◌+◌ paid.old (shares_from odd self.now.cents self.now.stakes (sharers self.now)) }
    {
        for (i, paid) in paid.iter_mut().enumerate() {
            *paid += self.share_at(i, odd);
        }
    }

    // All of it shared out, as the odd cents are fewer than the winning ways; nothing where no way won.
    pub(crate) fn share_out(&self, paid: &mut [u64]) -> u64
        requires places { length paid.old ≡ length self.now.ways.now }
        requires room { (i : ℕ) → i < length self.now.ways.now → get_or paid.old i 0 < 2 ^ 63 }
        ensures together { result ≡ sum (jackpot_shares self.now.cents (sharers self.now)) }
        ensures each { paid.new ≡ zip_with ◌+◌ paid.old (jackpot_shares self.now.cents (sharers self.now)) }
    {
        if self.stakes == 0 {
            return 0;
        }
        self.add_shares(self.odd_cents(), paid);
        self.cents
    }
}
