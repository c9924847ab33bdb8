// What a ticket's ways win in a drawn game: one walk over them, for every ticket of the game. The walk carries in one word the numbers that a way selects and
// those of them that are drawn, and notes each way in what is lent to it behind one reference, so that all its parameters go in registers.
ghost use Rattle.std.specs.Prelude.{◌≡◌, ◌+◌, ◌<◌, ◌^◌, cond, eqb};
ghost use Rattle.sale.specs.Bounds.{Sound};
ghost use Rattle.prizes.specs.Found.{size_in, hits_in, group_sizes, group_hits, Counting, FoundWith};

use crate::groups::GroupTable;
use crate::majors::Majors;
use crate::prize::{MAJOR_FLOOR, is_major, prize_of};
use crate::schedule::PrizeTable;
use sale::terms::Terms;
use sale::walk::{Noting, Walk, note_ways};

// Of a ticket's ways: the cents that they are paid in any case, of each major prize the floor; and how many match all their numbers.
#[derive(Clone, Copy)]
pub struct Found {
    pub sure: u64,
    pub full: u64,
}

impl Found {
    // Adds to both.
    fn add(&mut self, sure: u64, full: u64)
        requires { (self.old.sure + sure < 2 ^ 64) × (self.old.full + full < 2 ^ 64) }
        ensures { self.new ≡ record { sure = self.old.sure + sure; full = self.old.full + full } }
    {
        self.sure += sure;
        self.full += full;
    }
}

// What the walk over a ticket's ways notes them in: what the ticket plays for and the prizes, by which a way is paid, and what is found.
#[derive(Drop)]
struct Finding<'a> {
    terms: Terms,
    table: &'a PrizeTable,
    found: Found,
    majors: &'a mut Majors,
}

// 1 for a way that matches all the numbers it selects, and 0 for another.
fn full_match(pair: u32) -> u64
    ensures { result ≡ cond (eqb (hits_in pair) (size_in pair)) 1 0 }
{
    u64::from(pair % 4096 == pair / 4096)
}

impl Noting for Finding<'_> {
    ghost use Rattle.prizes.specs.Finding.{RoomIn, NotesWay, finding_laws};

    ghost room = { RoomIn };

    ghost notes = { NotesWay };

    ghost laws = { finding_laws };

    // Adds the figures of a way.
    fn note(&mut self, pair: u32) {
        let terms = self.terms;
        let cents = prize_of(
            terms.kind,
            terms.stake,
            pair / 4096,
            pair % 4096,
            self.table,
        );
        self.found.add(cents.min(MAJOR_FLOOR), full_match(pair));
        if is_major(cents) {
            self.majors.push(cents);
        }
    }
}

// What a ticket's ways win. Its major prizes are counted and stored behind those before them.
pub fn ticket_prizes(
    terms: Terms,
    groups: &GroupTable,
    table: &PrizeTable,
    majors: &mut Majors,
) -> Found
    requires sound { Sound terms }
    requires room { Counting majors.old.count }
    ensures { FoundWith terms (group_sizes groups.now.pairs) (group_hits groups.now.pairs) majors.old result majors.new }
{
    let walk = Walk {
        groups: terms.groups,
        types: terms.types,
        figures: groups.pairs,
    };
    let mut finding = Finding {
        terms,
        table,
        found: Found { sure: 0, full: 0 },
        majors,
    };
    note_ways(&walk, &mut finding);
    finding.found
}
