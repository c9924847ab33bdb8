// The one look that a sale takes at its ways: how many they are, and the smallest and the largest number that one selects.
ghost use Rattle.std.specs.Prelude.{◌≡◌, List, ◌∷◌, ℕ};
ghost use Rattle.sale.specs.Kinds.{within, sizes_fit, jackpot_by, jackpot_named};
ghost use Rattle.sale.specs.Ways.{way_sizes};
ghost use Rattle.sale.specs.Bounds.{Grouped, Bytes};
ghost use Rattle.sale.specs.Passes.{survey_of, Unfilled, Notes, survey_laws};
ghost use Rattle.sale.specs.declared.terms.Terms.{Terms};

use crate::terms::{JackpotKind, Kind, Schedule};
use crate::walk::{Noting, Walk, note_ways};

// Of a ticket's ways: how many, and the smallest and the largest number that one selects. With no way, the smallest is 255 and the largest 0, where `min` and
// `max` of bytes begin: so every test of all ways is passed, as it is of none, and no way is told apart from the others.
#[derive(Clone, Copy)]
pub struct Survey {
    pub count: u32,
    pub least: u32,
    pub most: u32,
}

impl Noting for Survey {
    ghost room = { Unfilled };

    ghost notes = { Notes };

    ghost laws = { survey_laws };

    // Takes in a way, which selects `size` numbers.
    fn note(&mut self, size: u32) {
        self.count += 1;
        self.least = self.least.min(size);
        self.most = self.most.max(size);
    }
}

// The table of figures that has the size of group k at place k. By place: after a `zip` with what is written nothing is known of it.
fn size_table(sizes: &[u8; 8]) -> [u32; 9]
    ensures { result ≡ 0 ∷ sizes.now }
{
    let mut table = [0u32; 9];
    for (k, figure) in table[1..].iter_mut().enumerate() {
        *figure = sizes[k] as u32;
    }
    table
}

// The ways of a ticket, from the sizes of its groups.
pub(crate) fn survey_ways(groups: u8, types: u8, sizes: &[u8; 8]) -> Survey
    requires { Grouped groups × Bytes sizes.now }
    ensures { result ≡ survey_of (way_sizes groups types sizes.now) }
{
    let mut survey = Survey {
        count: 0,
        least: 255,
        most: 0,
    };
    let walk = Walk {
        groups,
        types,
        figures: size_table(sizes),
    };
    note_ways(&walk, &mut survey);
    survey
}

impl Survey {
    // Whether every way selects from lo to hi numbers.
    pub(crate) fn all_between(self, lo: u8, hi: u8) -> bool
        ensures { (sizes : List ℕ) → self ≡ survey_of sizes → result ≡ within lo hi sizes }
    {
        lo as u32 <= self.least && self.most <= hi as u32
    }

    // Whether the ways' sizes suit the kind.
    pub(crate) fn suits(self, kind: Kind) -> bool
        ensures { (sizes : List ℕ) → self ≡ survey_of sizes → result ≡ sizes_fit kind sizes }
    {
        match kind {
            Kind::Standard | Kind::Special(Schedule::One) => self.all_between(1, 15),
            Kind::Jackpot => self.all_between(6, 6) || self.all_between(8, 8),
            Kind::Special(Schedule::Two) => self.all_between(3, 6),
        }
    }

    // The jackpot that a ticket of the kind plays for, if any.
    pub(crate) fn jackpot(self, kind: Kind) -> Option<JackpotKind>
        ensures { (t : Terms) (sizes : List ℕ) → t.kind ≡ kind → self ≡ survey_of (way_sizes t.groups t.types sizes) → result ≡ jackpot_named (jackpot_by t sizes) }
    {
        if !kind.is_jackpot() {
            return None;
        }
        if self.all_between(6, 6) {
            return Some(JackpotKind::Six);
        }
        if self.all_between(8, 8) {
            return Some(JackpotKind::Eight);
        }
        None
    }
}
