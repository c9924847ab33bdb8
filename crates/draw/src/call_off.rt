// Call off: the current game is dropped with its balls, and each ticket that runs in it is due what it paid for it.
ghost use Rattle.std.specs.Prelude.{◌≡◌, List, ℕ, map, take};
ghost use Rattle.refusals.specs.Refusal.{code_in};
ghost use Rattle.sale.specs.Lists.{below};
ghost use Rattle.house.specs.Commands.{call_off, code_of};
ghost use Rattle.house.specs.Balance.{Reached};
ghost use Rattle.house.specs.View.{view};
ghost use Rattle.house.specs.Parts.{Carried, host_answer};
ghost use Rattle.settlement.specs.Sharing.{paid_at, paid_in};
ghost use Rattle.draw.specs.Closing.{PricedRows};

use crate::game_end::end_game;
use house::answer::Receipt;
use house::rows::read_row;
use house::state::House;
use refusals::refusal::Refusal;

// The first rule of Call off that is broken, if any is.
#[tactic(auto, using(crate::proofs::CallOffLaws::call_off_code))]
fn check_call_off(house: &House) -> Result<(), Refusal>
    ensures { (words marks : List ℕ) → code_in result ≡ code_of (view house.now words marks) call_off }
{
    if house.day == 0 {
        return Err(Refusal::NotOpen);
    }
    if House::GAME_LIMIT < house.game {
        return Err(Refusal::GameLimit);
    }
    Ok(())
}

// What each live ticket paid for the current game, at its place, and all of it together.
fn find_stakes(house: &House, rows: &[u64; 3200], stakes: &mut [u64; 200]) -> u64
    requires { PricedRows house.now rows.now }
    ensures each { take house.now.live stakes.new ≡ map (paid_at rows.now house.now.game) (below house.now.live) }
    ensures total { result ≡ paid_in rows.now house.now.game house.now.live }
{
    let mut total = 0;
    for i in 0..house.live as usize {
        let paid = read_row(rows, i).paid_for(house.game);
        stakes[i] = paid;
        total += paid;
    }
    total
}

// Calls off the current game: it ends with what each ticket paid for it as its award, and neither pools nor counters move. Never inlined: within the reader it moved
// the code of the other commands, and a refused claim took up to a fifth longer with the same instructions. `as` loses nothing: no game is past 10,000,000.
#[inline(never)]
pub fn call_off_game(
    house: &mut House,
    rows: &mut [u64; 3200],
    marks: &mut [u8; 16000],
) -> Result<Receipt, Refusal>
    requires { Reached (view house.old rows.old marks.old) }
    ensures { Carried house.old rows.old marks.old call_off house.new rows.new marks.new (host_answer result) }
{
    check_call_off(house)?;
    let game = house.game as u32;
    let mut stakes = [0u64; 200];
    let cents = find_stakes(house, rows, &mut stakes);
    *house = end_game(*house, rows, marks, &stakes);
    Ok(Receipt {
        number: game,
        cents,
    })
}
