// The one walk over a ticket's ways: it leaves a group before it takes it, so that the ways come in their order, and ends early where no way begins so. What is
// noted of a way is the caller's, as is the figure of each group. Each call is lent what it reads and what the ways are noted in: so its five parameters go in
// registers, and the second call of each is a jump.
ghost use Rattle.std.specs.Prelude.{ℕ, length};
ghost use Rattle.std.specs.Int.Count.{ones};
ghost use Rattle.sale.specs.Ways.{nominated, ways};
ghost use Rattle.sale.specs.Bounds.{Grouped, Place};
ghost use Rattle.sale.specs.Passes.{ways_from, figures_from};
ghost use Rattle.sale.specs.Noting.{NotingLaws, AllNoted, Figures, Carried, way_figures, way_or_none};

use crate::ways;

// What a walk notes the ways in, each by its figure: the figures of the groups that it takes, added.
pub trait Noting {
    // that it has room for so many ways more
    ghost room: { Self → ℕ → Type 0 };

    // what it is before a way of the figure is noted, and after
    ghost notes: { ℕ → Self → Self → Type 0 };

    fn note(&mut self, figure: u32)
        requires { room self.old 1 }
        ensures { notes figure self.old self.new };

    // What each impl must prove.
    ghost laws: { NotingLaws room notes };
}

// What a walk reads of a ticket: how many groups it has, its types byte, and the figure of group k at place k. Place 0 is no group.
#[derive(Drop)]
pub struct Walk {
    pub groups: u8,
    pub types: u8,
    pub figures: [u32; 9],
    ghost few: { Grouped groups },
    ghost small: { Figures figures },
}

// Notes a mask of groups, which is a way or none.
#[tactic(auto, unfolding(crate::specs::Noting::AllNoted))]
fn note_mask<N: Noting>(mask: u32, figure: u32, walk: &Walk, noting: &mut N)
    requires { Place 0 mask × N.room noting.old (length (way_or_none (nominated walk.now.types (ones mask)) figure)) }
    ensures { AllNoted N.notes (way_or_none (nominated walk.now.types (ones mask)) figure) noting.old noting.new }
{
    if ways::nominates(walk.types, mask.count_ones()) {
        noting.note(figure);
    }
}

// Notes the ways that begin with the groups in the mask, whose figures make `figure`, where `left` groups are left to leave or to take.
fn note_from<N: Noting>(left: usize, mask: u32, figure: u32, walk: &Walk, noting: &mut N)
    requires { Place left mask × Carried left mask figure walk.now.figures × N.room noting.old (length (ways_from walk.now.types left mask)) }
    ensures { AllNoted N.notes (figures_from walk.now.types walk.now.figures left mask) noting.old noting.new }
{
    if left == 0 {
        note_mask(mask, figure, walk, noting);
        return;
    }
    if ways::ends_here(walk.types, mask, left) {
        return;
    }
    let after = left - 1;
    note_from(after, mask * 2, figure, walk, noting);
    let more = figure + walk.figures[left];
    note_from(after, mask * 2 + 1, more, walk, noting);
}

// Notes the ways of a ticket, one after the other in their order.
pub fn note_ways<N: Noting>(walk: &Walk, noting: &mut N)
    requires { N.room noting.old (length (ways walk.now.groups walk.now.types)) }
    ensures { AllNoted N.notes (way_figures walk.now.groups walk.now.types walk.now.figures) noting.old noting.new }
{
    note_from(walk.groups as usize, 0, 0, walk, noting);
}
