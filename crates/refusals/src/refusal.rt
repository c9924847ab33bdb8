// The rules that a command or a query can break, each with the number that a host reads. Checks are made from the top of each command's rows, and the first
// rule that is broken is told (docs/PROTOCOL.md has the rows).
ghost use Rattle.std.specs.Prelude.{◌≡◌};
ghost use Rattle.refusals.specs.Refusal.{refusal_number};

#[derive(Clone, Copy, PartialEq, Eq, Debug)]
pub enum Refusal {
    // No day is open: the day is 0.
    NotOpen = 4,
    // Open: the day is not later than today.
    DayNotLater = 5,
    // Open, Transfer: a game is being drawn.
    Drawing = 6,
    // Sell: the kind is over 3.
    UnknownKind = 7,
    // Sell: the games are not 1 to 100.
    GamesOutOfRange = 8,
    // Sell: the groups are not 1 to 8.
    GroupsOutOfRange = 9,
    // Sell: not 80 marks, a mark over the groups, or an empty group.
    UnfitMarks = 10,
    // Sell: the types byte is 0 or names more groups than there are.
    UnfitTypes = 11,
    // Sell: a way's size does not suit the kind.
    UnfitWaySize = 12,
    // Sell: Special One with one way.
    SingleSpecialOne = 13,
    // Sell: the stake.
    UnfitStake = 14,
    // Sell: the charge passes the most that a ticket costs.
    ChargeOverLimit = 15,
    // Sell: 200 tickets are live.
    LiveLimit = 16,
    // Sell: 9,999,999 tickets are issued, or the last game would be past 9,999,999.
    SaleLimit = 17,
    // Cancel, Claim, Collect: ticket 0, or one that was never issued.
    NeverIssued = 18,
    // Cancel, Claim, Collect: the ticket is closed.
    TicketClosed = 19,
    // Cancel: the ticket was sold on an earlier day.
    SoldEarlier = 20,
    // Cancel: a Keno To Go that has begun.
    KenoToGoBegun = 21,
    // Cancel: there is no game to take off.
    NoGameToTakeOff = 22,
    // Claim: the ticket is not finished.
    NotFinished = 23,
    // 24 stood for a claim of a ticket with nothing due. Such a ticket is closed, and the number is not used again.
    // Ball: the number is not 1 to 80.
    BallOutOfRange = 25,
    // Ball, Call off: the current game is past 9,999,999.
    GameLimit = 26,
    // Ball: the number is in already.
    BallAlreadyIn = 27,
    // Transfer: the jackpot is not 6 or 8.
    UnknownJackpot = 28,
    // Transfer: the cents are 0 or above unclaimed.
    UnfitCents = 29,
    // Live list: the buffer has less than 4 bytes for each live ticket.
    BufferTooShort = 30,
    // Lucky Last: the kind is not 0, or there is more than one way.
    UnfitFeature = 31,
    // Lucky Last: the feature stake is 0 or no multiple of 100.
    UnfitFeatureStake = 32,
    // Collect: the ticket is finished.
    Finished = 33,
    // Collect: nothing is due.
    NothingDueYet = 34,
    // Collect: 9,999,999 tickets are issued.
    TicketLimit = 35,
}

impl From<Refusal> for u8 {
    ghost from_gives = { λ refusal number. number ≡ refusal_number refusal };

    fn from(refusal: Refusal) -> u8 {
        refusal as u8
    }
}
