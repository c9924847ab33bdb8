// Collect: what a ticket won so far is paid and its number closes; its games left go on as a ticket under the next number.
ghost use Rattle.std.specs.Prelude.{◌≡◌, ◌+◌, ◌<◌, ◌++◌, [], ◌∷◌, List, ℕ, take};
ghost use Rattle.refusals.specs.Refusal.{code_in};
ghost use Rattle.sale.specs.Checks.{first_met};
ghost use Rattle.house.specs.Commands.{collect};
ghost use Rattle.house.specs.Balance.{Reached};
ghost use Rattle.house.specs.View.{marks_at, ticket_from, tickets_of, without, view, IsLiveRow};
ghost use Rattle.house.specs.Parts.{Carried, host_answer};
ghost use Rattle.tickets.specs.Steps.{collect_rows};

use crate::lookup::look_up;
use house::answer::Receipt;
use house::rows::{Row, append_ticket, read_marks, remove_ticket};
use house::state::House;
use refusals::refusal::Refusal;

// Whether a live ticket can be collected. That 200 tickets are live is no reason against it: one closes as the other opens.
#[tactic(auto, unfolding(sale::specs::Checks::first_met))]
fn check_collect(house: &House, row: Row) -> Result<(), Refusal>
    ensures { (marks : List ℕ) → code_in result ≡ first_met (collect_rows house.now.game house.now.issued (ticket_from row marks)) }
{
    if row.is_finished(house.game) {
        return Err(Refusal::Finished);
    }
    if row.due == 0 {
        return Err(Refusal::NothingDueYet);
    }
    if House::TICKET_LIMIT <= house.issued {
        return Err(Refusal::TicketLimit);
    }
    Ok(())
}

// Another row for a live ticket, which moves behind the others with its marks. It is removed first, since 200 may be live.
fn reissue_ticket(
    rows: &mut [u64; 3200],
    marks: &mut [u8; 16000],
    live: usize,
    place: usize,
    row: Row,
)
    requires { IsLiveRow place live }
    ensures { take live (tickets_of rows.new marks.new) ≡ without place (take live (tickets_of rows.old marks.old)) ++ (ticket_from row (marks_at marks.old place) ∷ []) }
{
    let from = read_marks(marks, place);
    remove_ticket(rows, marks, live, place);
    append_ticket(rows, marks, live - 1, row, &from);
}

// Pays what a ticket with games left has won, and issues those games under the next number. Never inlined: within the reader it moved the code of the other
// commands, and an Expire took a fifth longer with the same instructions. `as` loses nothing: at most 9,999,999 are issued.
#[inline(never)]
pub fn collect_ticket(
    house: &mut House,
    rows: &mut [u64; 3200],
    marks: &mut [u8; 16000],
    ticket: u32,
) -> Result<Receipt, Refusal>
    requires { Reached (view house.old rows.old marks.old) }
    ensures { Carried house.old rows.old marks.old (collect ticket) house.new rows.new marks.new (host_answer result) }
{
    let found = look_up(house, rows, ticket)?;
    let row = found.row;
    check_collect(house, row)?;
    let number = house.issued + 1;
    let reissued = Row {
        number,
        due: 0,
        ..row
    };
    reissue_ticket(rows, marks, house.live as usize, found.place, reissued);
    house.issued = number;
    house.counters.paid += row.due;
    Ok(Receipt {
        number: number as u32,
        cents: row.due,
    })
}
