// The table of what the ways of each live ticket win in a drawn game. It stands beside the table of what each ticket is paid, and not in one with it: that
// one leaves the settlement as the awards, and of this one nothing does.
use prizes::found::Found;

// What the ways of a ticket win, and how many major prizes there are in the game up to this ticket. By that number its own are a part of the game's one
// table of them: memory is fixed, so that no ticket has a list.
#[derive(Clone, Copy)]
pub(crate) struct TicketWays {
    pub(crate) found: Found,
    pub(crate) majors: u64,
}

impl TicketWays {
    pub(crate) const NONE: TicketWays = TicketWays {
        found: Found { sure: 0, full: 0 },
        majors: 0,
    };
}
