// Ways: the combinations of groups that a ticket's types byte nominates. `Grouped` and `Place` stay clauses: the numbers that they bound are counted up and
// down at each step of a walk, and a type that keeps the bound would be taken apart and made anew at each.
ghost use Rattle.std.specs.Prelude.{◌≡◌};
ghost use Rattle.std.specs.Int.Count.{ones};
ghost use Rattle.sale.specs.Ways.{nominated};
ghost use Rattle.sale.specs.Passes.{nominable, ends_here};
ghost use Rattle.sale.specs.Bounds.{Grouped, Place};

// Whether the types byte nominates combinations of so many groups.
pub fn nominates(types: u8, groups: u32) -> bool
    requires { Grouped groups }
    ensures { result ≡ nominated types groups }
{
    groups != 0 && (types >> (groups - 1)) % 2 == 1
}

// Whether some way begins with the groups in the mask, where `left` groups are left to take or to leave.
pub fn can_nominate(types: u8, mask: u32, left: usize) -> bool
    requires { Place left mask }
    ensures { result ≡ nominable types (ones mask) left }
{
    let counts = (types as u32) * 2 >> mask.count_ones();
    counts % (2 << left) != 0
}

// Whether it is known that no way begins with the groups in the mask. To count their ones costs as much as to walk over two groups, so it is
// done only where more are left.
pub fn ends_here(types: u8, mask: u32, left: usize) -> bool
    requires { Place left mask }
    ensures { result ≡ ends_here types mask left }
{
    3 <= left && !can_nominate(types, mask, left)
}
