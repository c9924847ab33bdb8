// The major prizes of a game, of which the first 250 are stored, and what each is paid: the rounds of the cut go over them (rules 12.3 to 12.5).
// From 250 on each is paid the floor, and none is looked at.
ghost use Rattle.std.specs.Prelude.{◌≡◌, map, ◌+◌, ◌-◌, ◌<◌, ◌≤◌, ◌^◌, set, take, drop};
ghost use Rattle.sale.specs.Lists.{sum};
ghost use Rattle.prizes.specs.Prize.{major_floor};
ghost use Rattle.prizes.specs.Rounds.{pay_under, cut_below, Pays, Listed, PastLimit, Raisable, AllRaised};

use crate::cut::{Cut, FLOORS_IN_LIMIT, MAJORS_LIMIT};
use crate::prize::MAJOR_FLOOR;

// The major prizes so far: how many there are, and the first 250 of them. The count goes on past 250, so that it is no length of a list: an `ArrayVec`
// would stop there. They keep no fact: a pass takes whatever is stored before it, and the cut asks that it is major prizes (`Listed`).
#[derive(Drop)]
pub struct Majors {
    pub prizes: [u64; 250],
    pub count: u64,
}

impl Majors {
    // Before the first.
    pub fn none() -> Majors
        ensures { result.count ≡ 0 }
    {
        Majors {
            prizes: [0; 250],
            count: 0,
        }
    }

    // One more, which is stored where it is among the first 250.
    pub fn push(&mut self, cents: u64)
        requires room { self.old.count + 1 < 2 ^ 64 }
        ensures count { self.new.count ≡ self.old.count + 1 }
        ensures stored { self.new.prizes ≡ set self.old.prizes self.old.count cents }
    {
        if self.count < FLOORS_IN_LIMIT {
            self.prizes[self.count as usize] = cents;
        }
        self.count += 1;
    }

    // The state of the cut under which they are paid what the rule says. They are cut where they pass the most for a game.
    #[tactic(auto, using(crate::proofs::MajorLaws::sum_std, crate::proofs::MajorLaws::uncut_pays))]
    pub fn cut(&self) -> Cut
        requires few { self.now.count ≤ 250 }
        requires listed { Listed (take self.now.count self.now.prizes) }
        ensures { Pays result (take self.now.count self.now.prizes) }
    {
        let prizes = &self.prizes[..self.count as usize];
        let total = prizes.iter().sum();
        if total <= MAJORS_LIMIT {
            Cut::none()
        } else {
            last_round(prizes, total)
        }
    }

    // What the prizes from a place on, `many` of them, are paid above the floor.
    #[tactic(auto, using(crate::proofs::MajorLaws::part_raised, crate::proofs::MajorLaws::part_from))]
    pub fn raise(&self, from: usize, many: usize, cut: Cut) -> u64
        requires { Raisable cut self.now.prizes from many }
        ensures { result ≡ sum (map (λ p. pay_under cut p - major_floor) (take many (drop from self.now.prizes))) }
    {
        raised(&self.prizes[from..from + many], cut)
    }
}

// What prizes are paid above the floor.
fn raised(prizes: &[u64], cut: Cut) -> u64
    requires { AllRaised cut prizes.now }
    ensures { result ≡ sum (map (λ p. pay_under cut p - major_floor) prizes.now) }
{
    prizes
        .iter()
        .map(|prize| cut.payout(*prize) - MAJOR_FLOOR)
        .sum()
}

// The state of the cut in which the prizes below a bound are floored.
fn cut_below(prizes: &[u64], below: u64) -> Cut
    requires { Listed prizes.now }
    ensures { result ≡ cut_below below prizes.now }
{
    let mut count = 0;
    let mut base = 0;
    for prize in prizes {
        if *prize < below {
            count += 1;
        } else {
            base += *prize;
        }
    }
    Cut { below, count, base }
}

// The rounds of the cut, where the prizes make `total` cents: until one floors no more.
fn last_round(prizes: &[u64], total: u64) -> Cut
    requires { Listed prizes.now × PastLimit prizes.now total }
    ensures { Pays result prizes.now }
{
    let mut cut = Cut::first(total);
    loop {
        let next = cut_below(prizes, cut.next_below());
        if next.count == cut.count {
            return cut;
        }
        cut = next;
    }
}
