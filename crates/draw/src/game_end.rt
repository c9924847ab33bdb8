// The end of a game, drawn or not: each ticket that ran in it is due what the game awards it, one with no game left gets its finishing day, one with
// nothing due then closes, and the next game is current.
ghost use Rattle.std.specs.Prelude.{◌≡◌, true, not, List, [], ◌∷◌, ◌++◌, ℕ, ◌+◌, ◌≤◌, ◌<◌, ◌^◌, take, drop};
ghost use Rattle.house.specs.Tickets.{is_live};
ghost use Rattle.house.specs.Commands.{still_live, tickets_after_game, game_ended};
ghost use Rattle.house.specs.View.{row_at, ticket_from, ticket_in, tickets_of, view};
ghost use Rattle.settlement.specs.Settling.{spread};
ghost use Rattle.draw.specs.Closing.{paid_ticket, Endable};

use house::rows::{Row, change_ticket, move_ticket, read_row};
use house::state::House;

// What the end of a game brings a ticket: the cents that it is paid, the day, and the game that is current now.
#[derive(Clone, Copy)]
struct Payment {
    day: u64,
    game: u64,
    cents: u64,
}

impl Payment {
    // A ticket with what it is paid, and its finishing day where no game is left.
    fn paid(self, mut row: Row) -> Row
        requires { row.due + self.cents < 2 ^ 64 }
        ensures { (m : List ℕ) → ticket_from result m ≡ paid_ticket self.day self.game self.cents (ticket_from row m) }
    {
        row.due += self.cents;
        row.finished_on(self.day, self.game)
    }

    // Whether a ticket closes with what it is paid: one that is paid nothing closes if it is finished with nothing due, and any other stays.
    fn closes(self, row: Row) -> bool
        ensures { (m : List ℕ) → result ≡ not (is_live self.game (paid_ticket self.day self.game self.cents (ticket_from row m))) }
    {
        self.cents == 0 && row.is_closed(self.game)
    }

    // Whether the payment leaves a ticket as it is: nothing is paid, and it has a game left or its finishing day already.
    fn changes_nothing(self, row: Row) -> bool
        ensures { result ≡ true → (m : List ℕ) → paid_ticket self.day self.game self.cents (ticket_from row m) ≡ ticket_from row m }
    {
        self.cents == 0 && (row.finished != 0 || !row.is_finished(self.game))
    }
}

// The ticket at a place: it closes, or stays and stands behind the `left` tickets before it that stay. How many stay with it.
fn close_ticket(
    rows: &mut [u64; 3200],
    marks: &mut [u8; 16000],
    i: usize,
    left: usize,
    payment: Payment,
) -> usize
    requires { (left ≤ i) × (i < 200) × ((row_at rows.old i).due + payment.cents < 2 ^ 64) }
    ensures count { result ≤ left + 1 }
    ensures stay { take result (tickets_of rows.new marks.new) ≡ take left (tickets_of rows.old marks.old) ++ still_live payment.game (paid_ticket payment.day payment.game payment.cents (ticket_in rows.old marks.old i) ∷ []) }
    ensures rest { drop (i + 1) (tickets_of rows.new marks.new) ≡ drop (i + 1) (tickets_of rows.old marks.old) }
{
    let row = read_row(rows, i);
    if payment.closes(row) {
        return left;
    }
    move_ticket(rows, marks, i, left);
    let moved = read_row(rows, left);
    if payment.changes_nothing(moved) {
        return left + 1;
    }
    change_ticket(rows, left, payment.paid(moved));
    left + 1
}

// The live tickets after the game: those that stay move down. How many they are. By places, since rows that move under the loop can be lent to no
// iterator; a ticket's award is read by its place too.
fn close_tickets(
    house: &House,
    rows: &mut [u64; 3200],
    marks: &mut [u8; 16000],
    awards: &[u64; 200],
) -> usize
    requires { Endable house.now rows.old awards.now }
    ensures count { result ≤ house.now.live }
    ensures stay { (figures : List ℕ)
        → take house.now.live awards.now ≡ spread house.now.game figures (view house.now rows.old marks.old).live
        → take result (tickets_of rows.new marks.new) ≡ tickets_after_game house.now.day house.now.game figures (view house.now rows.old marks.old).live }
{
    let day = house.day;
    let game = house.game + 1;
    let mut left = 0;
    for i in 0..house.live as usize {
        let payment = Payment {
            day,
            game,
            cents: awards[i],
        };
        left = close_ticket(rows, marks, i, left, payment);
    }
    left
}

// The house once the game is over, whatever it awards: one award at the place of each live ticket. Pools and counters are not touched. The house goes in and comes
// out by value, here and where the settlement joins it: a struct update says of all its other fields that they stay.
pub(crate) fn end_game(
    house: House,
    rows: &mut [u64; 3200],
    marks: &mut [u8; 16000],
    awards: &[u64; 200],
) -> House
    requires { Endable house rows.old awards.now }
    ensures { (figures : List ℕ)
        → take house.live awards.now ≡ spread house.game figures (view house rows.old marks.old).live
        → view result rows.new marks.new ≡ game_ended figures (view house rows.old marks.old) }
{
    let left = close_tickets(&house, rows, marks, awards);
    House {
        game: house.game + 1,
        drawn: 0,
        live: left as u64,
        ..house
    }
}
