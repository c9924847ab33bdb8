// Sell, with a feature or without one: the checks in the order of the table, and then one ticket more behind the live ones.
ghost use Rattle.std.specs.Prelude.{◌≡◌, List, ℕ, ◌≤◌};
ghost use Rattle.refusals.specs.Refusal.{code_in};
ghost use Rattle.sale.specs.Checks.{operands_of, first_met};
ghost use Rattle.house.specs.Model.{ticket_limit};
ghost use Rattle.house.specs.Commands.{sell, sold_ticket};
ghost use Rattle.house.specs.Balance.{Reached};
ghost use Rattle.house.specs.View.{view, ticket_from, InGames};
ghost use Rattle.house.specs.Parts.{Carried, host_answer};
ghost use Rattle.tickets.specs.Steps.{Quoted, room_rows};

use house::answer::Receipt;
use house::rows::{Row, append_ticket};
use house::state::House;
use refusals::refusal::Refusal;
use sale::check::{Quote, quote_for};
use sale::terms::Sale;

// Whether there is room for one ticket more, of so many games.
#[tactic(auto, using(crate::proofs::SellLaws::room_full, crate::proofs::SellLaws::room_numbers, crate::proofs::SellLaws::room_games, crate::proofs::SellLaws::room_left))]
fn check_room(house: &House, games: u8) -> Result<(), Refusal>
    requires { InGames house.now }
    ensures { (words marks : List ℕ) → code_in result ≡ first_met (room_rows (view house.now words marks) games) }
{
    if House::LIVE_LIMIT <= house.live {
        return Err(Refusal::LiveLimit);
    }
    let end = house.first_game() + u64::from(games);
    if House::TICKET_LIMIT <= house.issued || House::GAME_LIMIT + 1 < end {
        return Err(Refusal::SaleLimit);
    }
    Ok(())
}

// The row of a new ticket, from the quote of its operands. A row keeps words, since C lays it out: one that plays for no jackpot keeps 0.
fn sold_row(house: &House, sale: Sale, quote: Quote) -> Row
    requires { InGames house.now × (house.now.issued ≤ ticket_limit) }
    ensures { (words marks from : List ℕ) → Quoted quote (operands_of sale from) → ticket_from result from ≡ sold_ticket (view house.now words marks) (operands_of sale from) }
{
    let first = house.first_game();
    Row {
        number: house.issued + 1,
        kind: u64::from(sale.kind),
        games: u64::from(sale.games),
        stake: u64::from(sale.stake),
        groups: u64::from(sale.groups),
        types: u64::from(sale.types),
        ways: u64::from(quote.ways),
        jackpot: quote.jackpot.map_or(0, u64::from),
        sold: house.day,
        first,
        stop: first + u64::from(sale.games),
        free: first + u64::from(quote.paid),
        due: 0,
        finished: 0,
        sizes: quote.sizes,
        feature: u64::from(sale.feature.unwrap_or(0)),
    }
}

// A ticket for its first game and those after it, numbered by the sales so far, for which the charge is taken. `as` loses nothing: at most 9,999,999 are issued.
pub fn sell_ticket(
    house: &mut House,
    rows: &mut [u64; 3200],
    marks: &mut [u8; 16000],
    sale: Sale,
    from: &[u8],
) -> Result<Receipt, Refusal>
    requires { Reached (view house.old rows.old marks.old) }
    ensures { Carried house.old rows.old marks.old (sell (operands_of sale from.now)) house.new rows.new marks.new (host_answer result) }
{
    if house.day == 0 {
        return Err(Refusal::NotOpen);
    }
    let quote = quote_for(sale, from)?;
    check_room(house, sale.games)?;
    let row = sold_row(house, sale, quote);
    append_ticket(rows, marks, house.live as usize, row, from);
    let cents = u64::from(quote.charge);
    house.issued += 1;
    house.live += 1;
    house.counters.taken += cents;
    Ok(Receipt {
        number: house.issued as u32,
        cents,
    })
}
