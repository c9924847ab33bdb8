// Open: a new day begins.
ghost use Rattle.std.specs.Prelude.{List, ℕ};
ghost use Rattle.house.specs.Commands.{open'};
ghost use Rattle.house.specs.Parts.{Carried, host_answer};

use house::answer::Receipt;
use house::state::House;
use refusals::refusal::Refusal;

// Opens the lounge on a later day, while no game is drawn.
pub fn open_day(house: &mut House, day: u16) -> Result<Receipt, Refusal>
    ensures { (words marks : List ℕ) → Carried house.old words marks (open' day) house.new words marks (host_answer result) }
{
    let today = u64::from(day);
    if today <= house.day {
        return Err(Refusal::DayNotLater);
    }
    if house.drawn != 0 {
        return Err(Refusal::Drawing);
    }
    house.day = today;
    Ok(Receipt {
        number: u32::from(day),
        cents: 0,
    })
}
