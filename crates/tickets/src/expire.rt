// Expire: finished tickets that nobody claimed in time are dropped, and their dues are unclaimed money.
ghost use Rattle.std.specs.Prelude.{map, ℕ, ◌^◌, ◌≤◌, ◌<◌};
ghost use Rattle.sale.specs.Lists.{sum};
ghost use Rattle.house.specs.Commands.{expire};
ghost use Rattle.house.specs.Balance.{Reached};
ghost use Rattle.house.specs.View.{view, ticket_in, DayTells};
ghost use Rattle.house.specs.Parts.{Carried, host_answer};
ghost use Rattle.tickets.specs.Steps.{Swept};

use calendar::expiry::expiry_bound;
use house::answer::Receipt;
use house::rows::{move_ticket, read_row};
use house::state::House;
use refusals::refusal::Refusal;

// How many tickets stay, and the dues of the others.
#[derive(Clone, Copy)]
struct Sweep {
    left: usize,
    cents: u64,
}

// The live tickets without those that have expired: the others move down. By places, since rows that move under the loop can be lent to no iterator.
fn drop_expired(house: &House, rows: &mut [u64; 3200], marks: &mut [u8; 16000]) -> Sweep
    requires live_bound { (house.now.live ≤ 200) × (sum (map (λ t. t.due) (view house.now rows.old marks.old).live) < 2 ^ 62) }
    requires days { (i : ℕ) → i < house.now.live → DayTells house.now.game (ticket_in rows.old marks.old i) }
    ensures { Swept (view house.now rows.old marks.old) rows.new marks.new result.left result.cents }
{
    let bound = expiry_bound(house.day);
    let live = house.live as usize;
    let mut left = 0;
    let mut cents = 0;
    for i in 0..live {
        let row = read_row(rows, i);
        if row.is_expired(bound) {
            cents += row.due;
        } else {
            move_ticket(rows, marks, i, left);
            left += 1;
        }
    }
    Sweep { left, cents }
}

// How many live tickets expire, and their dues, which go to the unclaimed fund. `as` loses nothing: at most 200 expire.
pub fn expire_tickets(
    house: &mut House,
    rows: &mut [u64; 3200],
    marks: &mut [u8; 16000],
) -> Result<Receipt, Refusal>
    requires { Reached (view house.old rows.old marks.old) }
    ensures { Carried house.old rows.old marks.old expire house.new rows.new marks.new (host_answer result) }
{
    if house.day == 0 {
        return Err(Refusal::NotOpen);
    }
    let sweep = drop_expired(house, rows, marks);
    let left = sweep.left as u64;
    let gone = house.live - left;
    house.live = left;
    house.counters.unclaimed += sweep.cents;
    Ok(Receipt {
        number: gone as u32,
        cents: sweep.cents,
    })
}
