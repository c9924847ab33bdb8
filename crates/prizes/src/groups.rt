// The groups of a ticket in a drawn game: how many numbers each has, and how many of them were drawn.
ghost use Rattle.std.specs.Prelude.{◌≡◌, ◌+◌, ◌*◌};
ghost use Rattle.sale.specs.Ways.{mark_of, size_word};
ghost use Rattle.sale.specs.Bounds.{Grouping};
ghost use Rattle.prizes.specs.Hits.{hits};
ghost use Rattle.prizes.specs.Found.{Groups, group_table, GroupsOf};

use crate::draw::Draw;

// What a ball adds to the word of hits, by its mark: 1 in the byte of its group, and nothing where it is in none, so that no ball is told apart by
// a test.
const UNITS: [u64; 9] = [
    0,
    1,
    0x100,
    0x1_0000,
    0x100_0000,
    0x1_0000_0000,
    0x100_0000_0000,
    0x1_0000_0000_0000,
    0x100_0000_0000_0000,
];

// The groups as the walk over a ticket's ways reads them: at place k the numbers of group k times 4096, and those of them that are drawn.
// A pair in one word takes one register and is added by one sum.
#[derive(Clone, Copy)]
pub struct GroupTable {
    pub pairs: [u32; 9],
    ghost bytes: { Groups pairs },
}

impl GroupTable {
    // From the word of the groups' sizes.
    #[tactic(auto, using(crate::proofs::HitLaws::groups_by, crate::proofs::HitLaws::groups_kept))]
    pub fn of(sizes: u64, draw: Draw, marks: &[u8]) -> GroupTable
        requires { Grouping marks.now }
        ensures { GroupsOf sizes draw marks.now result.pairs }
    {
        GroupTable {
            pairs: pairs_of(sizes, hit_word(draw, marks)),
        }
    }
}

// The mark of a number, 0 for one that is not on the ticket. `get` would need the test for number 0 beside it, and say no more.
#[tactic(auto, using(crate::proofs::HitLaws::mark_at, crate::proofs::HitLaws::no_mark_at_zero, crate::proofs::HitLaws::no_mark_beyond))]
pub(crate) fn mark_of(marks: &[u8], number: u8) -> u8
    ensures { result ≡ mark_of marks.now number }
{
    let n = number as usize;
    if 1 <= n && n <= marks.len() {
        marks[n - 1]
    } else {
        0
    }
}

// The hits of each group, a byte each in one word as a ticket keeps the sizes. The word stays in a register: in a table each ball would wait for
// the count before it to be stored.
fn hit_word(draw: Draw, marks: &[u8]) -> u64
    requires { Grouping marks.now }
    ensures { result ≡ size_word (hits draw marks.now) }
{
    let units = UNITS;
    let mut word = 0;
    for ball in draw.balls {
        word += units[mark_of(marks, ball) as usize];
    }
    word
}

// A group at its place in the table.
fn pair_of(size: u8, hits: u8) -> u32
    ensures { result ≡ size * 4096 + hits }
{
    size as u32 * 4096 + hits as u32
}

// The pairs of the groups, from the words of their sizes and of their hits. By place: after a `zip` with what is written nothing is known of it.
fn pairs_of(sizes: u64, hits: u64) -> [u32; 9]
    ensures { result ≡ group_table sizes hits }
{
    let size = sizes.to_le_bytes();
    let hit = hits.to_le_bytes();
    let mut pairs = [0; 9];
    for (k, pair) in pairs[1..].iter_mut().enumerate() {
        *pair = pair_of(size[k], hit[k]);
    }
    pairs
}
