// A ticket by its number: what Cancel, Claim and Collect check first. Here and in the commands the house, the rows and the marks are parameters of their own: hosts lend
// the rows and the marks one by one, and a contract over a struct of `&mut` would have to say of each reference that it is still the one that was handed in.
ghost use Rattle.std.specs.Prelude.{◌≡◌, List, ℕ, ◌<◌, IfOk};
ghost use Rattle.refusals.specs.Refusal.{code_in};
ghost use Rattle.house.specs.View.{marks_at, ticket_from, place_of, view};
ghost use Rattle.house.specs.Parts.{ComesWith};
ghost use Rattle.house.specs.Commands.{lookup_rows, ticket_at};
ghost use Rattle.sale.specs.Checks.{first_met};

use house::rows::{Row, place_of, read_row};
use house::state::House;
use refusals::refusal::Refusal;

// A live ticket: its place among the live ones, and its row.
#[derive(Clone, Copy)]
pub struct Found {
    pub place: usize,
    pub row: Row,
}

// The live ticket of a number, or the first refusal of the table that holds of it.
#[tactic(auto, using(crate::proofs::FoundTickets::look_up_closed, crate::proofs::FoundTickets::look_up_zero, crate::proofs::FoundTickets::look_up_unissued, crate::proofs::FoundTickets::look_up_gone))]
pub(crate) fn look_up(house: &House, rows: &[u64; 3200], ticket: u32) -> Result<Found, Refusal>
    requires { ComesWith house.now rows.now }
    ensures code { (marks : List ℕ) → code_in result ≡ first_met (lookup_rows ticket (view house.now rows.now marks)) }
    ensures place { (marks : List ℕ) → IfOk result (λ found. found.place ≡ place_of ticket (view house.now rows.now marks).live) }
    ensures row { (marks : List ℕ) → IfOk result (λ found. ticket_from found.row (marks_at marks found.place) ≡ ticket_at ticket (view house.now rows.now marks).live) }
{
    if house.day == 0 {
        return Err(Refusal::NotOpen);
    }
    let number = u64::from(ticket);
    if number == 0 || house.issued < number {
        return Err(Refusal::NeverIssued);
    }
    let live = house.live as usize;
    let place = place_of(rows, live, number).ok_or(Refusal::TicketClosed)?;
    let row = read_row(rows, place);
    Ok(Found { place, row })
}
