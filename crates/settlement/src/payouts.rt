// The prizes of the ways in a drawn game: each ticket's, as cut, and its full matches. One pass over the ways of all tickets finds what is sure of each
// prize, of a major one the floor, and lists the major prizes. Where they are fewer than 250, the cut goes over that list and each is raised to what
// it is paid; of 250 or more each is paid the floor.
ghost use Rattle.std.specs.Prelude.{◌≡◌, ◌<◌, List, [], ℕ, length, map};
ghost use Rattle.prizes.specs.Found.{Counting};
ghost use Rattle.house.specs.Tickets.{terms_of};
ghost use Rattle.house.specs.View.{ticket_from, ticket_in};
ghost use Rattle.settlement.specs.Passing.{Narrow, FoundAt, Cutting, CutOf, Raised};
ghost use Rattle.settlement.specs.Drawn.{FoundAll, PaidOut};

use crate::drawn_game::DrawnGame;
use crate::ways::TicketWays;
use house::rows::Row;
use prizes::cut::{Cut, FLOORS_IN_LIMIT};
use prizes::found::{Found, ticket_prizes};
use prizes::groups::GroupTable;
use prizes::majors::Majors;
use prizes::schedule::PrizeTable;
use sale::terms::{Kind, Terms};

// What a ticket plays for, from its row. No `From`, which could not ask for `Narrow`. That bounds each word, so that `as` loses nothing: `try_from` would add
// an error that cannot be.
fn row_terms(row: Row) -> Terms
    requires { Narrow row }
    ensures { result ≡ terms_of (ticket_from row []).operands }
{
    Terms {
        kind: Kind::from(row.kind as u8),
        games: row.games as u8,
        stake: row.stake as u32,
        groups: row.groups as u8,
        types: row.types as u8,
    }
}

// What the ways of the ticket at a place win: nothing where it does not run in the game.
fn find_ticket(game: &DrawnGame, i: usize, table: &PrizeTable, majors: &mut Majors) -> Found
    requires place { i < game.now.live }
    requires room { Counting majors.old.count }
    ensures { FoundAt game.now.game game.now.draw (ticket_in game.now.rows.now game.now.marks.now i) majors.old result majors.new }
{
    let row = game.row(i);
    if !row.runs_in(game.game) {
        return Found { sure: 0, full: 0 };
    }
    let groups = GroupTable::of(row.sizes, game.draw, game.marks_of(i));
    ticket_prizes(row_terms(row), &groups, table, majors)
}

// The pass: what the ways of each live ticket win, and all major prizes.
fn find_all(game: &DrawnGame, ways: &mut [TicketWays], majors: &mut Majors)
    requires places { length ways.old ≡ game.now.live }
    requires none { majors.old.count ≡ 0 }
    ensures { FoundAll game.now ways.new majors.old.prizes majors.new }
{
    let table = PrizeTable::of_the_rules();
    for (i, ways) in ways.iter_mut().enumerate() {
        let found = find_ticket(game, i, &table, majors);
        *ways = TicketWays {
            found,
            majors: majors.count,
        };
    }
}

// Each ticket paid what is sure of its prizes. No `zip` with the ways: tried, and after it nothing was known of what had been written.
fn pay_sure(ways: &[TicketWays], paid: &mut [u64])
    requires { length paid.old ≡ length ways.now }
    ensures { paid.new ≡ map (λ w. w.found.sure) ways.now }
{
    for (i, paid) in paid.iter_mut().enumerate() {
        *paid = ways[i].found.sure;
    }
}

// Each ticket paid its prizes, of which the major ones are raised from the floor to what they are paid under a state of the cut. No `zip`, as above.
fn pay_raised(ways: &[TicketWays], majors: &Majors, cut: Cut, paid: &mut [u64])
    requires places { length paid.old ≡ length ways.now }
    requires cut { CutOf ways.now majors.now.prizes cut }
    ensures { (pss : List (List ℕ)) → Cutting pss ways.now majors.now.prizes cut → Raised pss paid.new }
{
    let mut from = 0;
    for (i, paid) in paid.iter_mut().enumerate() {
        let end = ways[i].majors as usize;
        *paid = ways[i].found.sure + majors.raise(from, end - from, cut);
        from = end;
    }
}

// Fills both tables, which have a place for each live ticket. Where there is none, no other table is made.
pub(crate) fn find_payouts(game: &DrawnGame, ways: &mut [TicketWays], paid: &mut [u64])
    requires ways { length ways.old ≡ game.now.live }
    requires paid { length paid.old ≡ game.now.live }
    ensures { PaidOut game.now ways.new paid.new }
{
    if game.is_empty() {
        return;
    }
    let mut majors = Majors::none();
    find_all(game, ways, &mut majors);
    let all_floored = FLOORS_IN_LIMIT <= majors.count;
    if all_floored {
        pay_sure(ways, paid);
    } else {
        let cut = majors.cut();
        pay_raised(ways, &majors, cut, paid);
    }
}
