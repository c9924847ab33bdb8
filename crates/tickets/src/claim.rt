// Claim: everything that a finished ticket won is paid, and the ticket closes.
ghost use Rattle.std.specs.Prelude.{◌≡◌, List, ℕ};
ghost use Rattle.refusals.specs.Refusal.{code_in};
ghost use Rattle.sale.specs.Checks.{first_met};
ghost use Rattle.house.specs.Commands.{claim};
ghost use Rattle.house.specs.Balance.{Reached};
ghost use Rattle.house.specs.View.{ticket_from, view};
ghost use Rattle.house.specs.Parts.{Carried, host_answer};
ghost use Rattle.tickets.specs.Steps.{claim_rows};

use crate::lookup::look_up;
use house::answer::Receipt;
use house::rows::{Row, remove_ticket};
use house::state::House;
use refusals::refusal::Refusal;

// Whether a live ticket can be claimed where the given game is the current one. One that is finished is due something, since it is live.
#[tactic(auto, unfolding(sale::specs::Checks::first_met))]
fn check_claim(game: u64, row: Row) -> Result<(), Refusal>
    ensures { (marks : List ℕ) → code_in result ≡ first_met (claim_rows game (ticket_from row marks)) }
{
    if !row.is_finished(game) {
        return Err(Refusal::NotFinished);
    }
    Ok(())
}

// Pays what a finished ticket is due and closes it.
pub fn claim_ticket(
    house: &mut House,
    rows: &mut [u64; 3200],
    marks: &mut [u8; 16000],
    ticket: u32,
) -> Result<Receipt, Refusal>
    requires { Reached (view house.old rows.old marks.old) }
    ensures { Carried house.old rows.old marks.old (claim ticket) house.new rows.new marks.new (host_answer result) }
{
    let found = look_up(house, rows, ticket)?;
    let row = found.row;
    check_claim(house.game, row)?;
    remove_ticket(rows, marks, house.live as usize, found.place);
    house.live -= 1;
    house.counters.paid += row.due;
    Ok(Receipt {
        number: ticket,
        cents: row.due,
    })
}
