// Cancel: every undrawn game but the one being drawn is taken off, and its paid stakes go back.
ghost use Rattle.std.specs.Prelude.{◌≡◌, not, List, ℕ, ◌≤◌, eqb, take};
ghost use Rattle.refusals.specs.Refusal.{code_in};
ghost use Rattle.sale.specs.Checks.{first_met};
ghost use Rattle.house.specs.Tickets.{with_stop};
ghost use Rattle.house.specs.Commands.{finished_on, cancel};
ghost use Rattle.house.specs.Balance.{Reached};
ghost use Rattle.house.specs.View.{marks_at, ticket_from, tickets_of, view, IsLiveRow};
ghost use Rattle.house.specs.Parts.{Carried, host_answer};
ghost use Rattle.tickets.specs.Steps.{cancel_rows, replaced};

use crate::lookup::look_up;
use house::answer::Receipt;
use house::rows::{Row, change_ticket, remove_ticket};
use house::state::House;
use refusals::refusal::Refusal;

// Whether a live ticket can be cancelled whose games from `stop` on would be taken off.
#[tactic(auto, unfolding(sale::specs::Checks::first_met))]
fn check_cancel(house: &House, row: Row, stop: u64) -> Result<(), Refusal>
    ensures { (marks : List ℕ) → code_in result ≡ first_met (cancel_rows house.now.day house.now.game (not (eqb house.now.drawn 0)) stop (ticket_from row marks)) }
{
    if row.sold < house.day {
        return Err(Refusal::SoldEarlier);
    }
    if row.keno_to_go_begun(house.game, house.drawn != 0) {
        return Err(Refusal::KenoToGoBegun);
    }
    if row.stop <= stop {
        return Err(Refusal::NoGameToTakeOff);
    }
    Ok(())
}

// The row of a ticket whose games from `stop` on are taken off: one that is now finished gets its finishing day.
fn cancelled_row(house: &House, row: Row, stop: u64) -> Row
    ensures { (marks : List ℕ) → ticket_from result marks ≡ finished_on house.now.day house.now.game (with_stop (ticket_from row marks) stop) }
{
    Row { stop, ..row }.finished_on(house.day, house.game)
}

// Another row in the place of a live ticket's, or the ticket removed where the row is a closed one; answers how many are live then.
fn replace_ticket(
    house: &House,
    rows: &mut [u64; 3200],
    marks: &mut [u8; 16000],
    place: usize,
    row: Row,
) -> u64
    requires { IsLiveRow place house.now.live }
    ensures fewer { result ≤ house.now.live }
    ensures tickets { take result (tickets_of rows.new marks.new) ≡ replaced house.now.game place (ticket_from row (marks_at marks.old place)) (take house.now.live (tickets_of rows.old marks.old)) }
{
    if row.is_closed(house.game) {
        remove_ticket(rows, marks, house.live as usize, place);
        return house.live - 1;
    }
    change_ticket(rows, place, row);
    house.live
}

// Takes off the games of a ticket that are not drawn yet, and refunds those that were paid.
pub fn cancel_ticket(
    house: &mut House,
    rows: &mut [u64; 3200],
    marks: &mut [u8; 16000],
    ticket: u32,
) -> Result<Receipt, Refusal>
    requires { Reached (view house.old rows.old marks.old) }
    ensures { Carried house.old rows.old marks.old (cancel ticket) house.new rows.new marks.new (host_answer result) }
{
    let found = look_up(house, rows, ticket)?;
    let row = found.row;
    let stop = row.first.max(house.first_game());
    check_cancel(house, row, stop)?;
    let cents = row.paid_stakes(stop, row.stop);
    let cancelled = cancelled_row(house, row, stop);
    house.live = replace_ticket(house, rows, marks, found.place, cancelled);
    house.counters.refunded += cents;
    Ok(Receipt {
        number: ticket,
        cents,
    })
}
