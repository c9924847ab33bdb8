// The house for hosts in Rust or C: plain numbers, structs, arrays and bytes. The host keeps the house, the rows and the marks from call to call, as one
// call left them, and starts from a fresh house.

#![tactic(auto)]

ghost use Rattle.std.specs.Prelude.{◌≡◌, List, ℕ};
ghost use Rattle.house.specs.Balance.{Reached};
ghost use Rattle.house.specs.Model.{fresh};
ghost use Rattle.house.specs.Parts.{ComesWith};
ghost use Rattle.house.specs.Till.{till_of};
ghost use Rattle.house.specs.View.{view};
ghost use Rattle.queries.specs.Listing.{Listing};
ghost use Rattle.queries.specs.Shown.{shown_till, pools_of};
ghost use Rattle.roll.specs.Orders.{Reported};

use house::state::House;
use queries::live_list::{Listed, live_list};
use queries::till::{Pools, Till, pools_of, till_of};
use roll::reader::{Report, read_roll};

// A house in which nothing has happened, whatever the rows and the marks hold.
#[unsafe(no_mangle)]
pub extern "C" fn wulipday_fresh() -> House
    ensures { (rows marks : List ℕ) → view result rows marks ≡ fresh }
{
    House::fresh()
}

// Runs the commands of a roll and writes their answers into the book.
#[unsafe(no_mangle)]
pub extern "C" fn wulipday_roll(
    house: House,
    rows: &mut [u64; 3200],
    marks: &mut [u8; 16000],
    roll: &[u8],
    book: &mut [u8],
) -> Report
    requires { Reached (view house rows.old marks.old) }
    ensures { Reported house rows.old marks.old roll.now book.old result rows.new marks.new book.new }
{
    read_roll(house, rows, marks, roll, book)
}

// Carries out the first command of the bytes and writes its answer. `answers` tells what was done: 1, the first command was carried out or refused and
// `read` is its bytes; 0, nothing was done, and the stop says why.
#[unsafe(no_mangle)]
pub extern "C" fn wulipday_command(
    house: House,
    rows: &mut [u64; 3200],
    marks: &mut [u8; 16000],
    command: &[u8],
    answer: &mut [u8; 14],
) -> Report
    requires { Reached (view house rows.old marks.old) }
    ensures { Reported house rows.old marks.old command.now answer.old result rows.new marks.new answer.new }
{
    read_roll(house, rows, marks, command, answer)
}

// The nine figures of the till.
#[unsafe(no_mangle)]
pub extern "C" fn wulipday_till(house: House, rows: &[u64; 3200]) -> Till
    requires { ComesWith house rows.now }
    ensures { (marks : List ℕ) → result ≡ shown_till (till_of (view house rows.now marks)) }
{
    till_of(house, rows)
}

// The pools and the debt of each jackpot.
#[unsafe(no_mangle)]
pub extern "C" fn wulipday_pools(house: House) -> Pools
    ensures { (words marks : List ℕ) → result ≡ pools_of (view house words marks) }
{
    pools_of(house)
}

// The numbers of the live tickets, rising, four bytes each, or code 30 where the buffer is too short.
#[unsafe(no_mangle)]
pub extern "C" fn wulipday_live_list(house: House, rows: &[u64; 3200], out: &mut [u8]) -> Listed
    requires { ComesWith house rows.now }
    ensures { (marks : List ℕ) → Listing (view house rows.now marks) out.old out.new result }
{
    live_list(house, rows, out)
}
