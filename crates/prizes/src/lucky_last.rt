// Lucky Last: what the feature pays where the last ball of a game is among the ticket's numbers.
ghost use Rattle.std.specs.Prelude.{◌≡◌};
ghost use Rattle.sale.specs.Lists.{sum};
ghost use Rattle.prizes.specs.Found.{word_bytes};
ghost use Rattle.prizes.specs.Bounds.{KeptSizes};
ghost use Rattle.prizes.specs.LuckyLast.{lucky_last_cents, lucky_last_prize};

use crate::draw::Draw;
use crate::groups::mark_of;

// Cents for a feature stake of one dollar, by how many numbers the ticket has (rule 21.1 of the Tasmanian rules).
const CENTS: [u16; 16] = [
    0, 6000, 3000, 2000, 1500, 1200, 1000, 850, 750, 650, 600, 550, 500, 450, 400, 400,
];

// The numbers of all groups together, from the word of their sizes.
fn numbers_in(word: u64) -> u64
    ensures { result ≡ sum (word_bytes 8 word) }
{
    word.to_le_bytes().iter().map(|size| u64::from(*size)).sum()
}

// The cents for one dollar: none for more numbers than the rule has.
#[tactic(auto, unfolding(crate::specs::LuckyLast::lucky_last_cents, crate::specs::LuckyLast::lucky_last_row))]
fn cents_for(numbers: u64) -> u64
    ensures { result ≡ lucky_last_cents numbers }
{
    CENTS
        .get(numbers as usize)
        .map_or(0, |cents| u64::from(*cents))
}

// The feature prize of a ticket, from its marks, the word of its groups' sizes and its feature stake.
pub fn feature_prize(draw: Draw, marks: &[u8], word: u64, stake: u32) -> u64
    requires { KeptSizes word marks.now }
    ensures { result ≡ lucky_last_prize draw marks.now stake }
{
    if mark_of(marks, draw.last) == 0 {
        return 0;
    }
    cents_for(numbers_in(word)) * (stake / 100) as u64
}
