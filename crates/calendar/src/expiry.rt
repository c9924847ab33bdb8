// When a finished ticket expires: a year on by the calendar.
ghost use Rattle.std.specs.Prelude.{◌≡◌};
ghost use Rattle.calendar.specs.Bounds.{ExpiryBound, year_before};

// Days. The calendar repeats after a cycle of 400 years. Four years, a century and a cycle are counted from a 1 March on, so that a leap day ends
// them; but a century has none at its end, unless it ends the cycle.
const YEAR: u64 = 365;

const LEAP_YEAR: u64 = 366;

const FOUR_YEARS: u64 = 1461;

const CENTURY: u64 = 36_524;

const CYCLE: u64 = 146_097;

// From 1 March 1600, when a cycle began, to day 0.
const DAYS_BEFORE: u64 = 145_306;

// How many days before a day its date was a year before: 366 where a 29 February is among the 365 days before it.
fn year_before(day: u64) -> u64
    ensures { result ≡ year_before day }
{
    let in_cycle = (day % CYCLE + DAYS_BEFORE) % CYCLE;
    if in_cycle < YEAR {
        return LEAP_YEAR;
    }
    let in_century = in_cycle % CENTURY;
    if in_century < FOUR_YEARS {
        return YEAR;
    }
    if in_century % FOUR_YEARS < YEAR {
        return LEAP_YEAR;
    }
    YEAR
}

// The day before which a ticket finished if it has expired today, and 0 in the first year: worked out once, it serves for every ticket. No day is added to,
// so none is too large.
pub fn expiry_bound(today: u64) -> u64
    ensures { ExpiryBound today result }
{
    let year = year_before(today);
    today.saturating_sub(year)
}
