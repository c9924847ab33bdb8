// The schedules of prizes of rules 18.1, 18.2 and 18.3, in dollars for a stake of one dollar, as one constant table of 264 bytes. The back end copies a
// constant array to the stack wherever it is used: so a game takes it once, and lends it to all that look a prize up.
ghost use Rattle.std.specs.Prelude.{◌≡◌, get_or};
ghost use Rattle.prizes.specs.Schedules.{standard_rows, special_one_rows, special_two_rows, cell};
ghost use Rattle.prizes.specs.ScheduleTable.{start_in, run_in, low_in, prize_by, WordAt, Schedules};

// A word has three numbers in its four hexadecimal digits, so that one load finds all that a selection's word says, and most matches pay nothing by it alone:
// two digits for the place of the selection's first cell, one for the match with which its run begins, one for how many low matches pay, from 0 on. A
// selection's cells are those of its low matches and then those of its run, which goes up to all its numbers. docs/DECISIONS.md has the layouts measured.
const TABLE: [u16; 132] = [
    0x15_1_0, // rule 18.1, 1 number
    0x16_2_0, // rule 18.1, 2 numbers
    0x17_2_0, // rule 18.1, 3 numbers
    0x19_2_0, // rule 18.1, 4 numbers
    0x1c_3_1, // rule 18.1, 5 numbers
    0x20_3_0, // rule 18.1, 6 numbers
    0x24_3_1, // rule 18.1, 7 numbers
    0x2a_4_1, // rule 18.1, 8 numbers
    0x30_4_1, // rule 18.1, 9 numbers
    0x37_4_1, // rule 18.1, 10 numbers
    0x3f_5_2, // rule 18.1, 11 numbers
    0x48_5_2, // rule 18.1, 12 numbers
    0x52_5_2, // rule 18.1, 13 numbers
    0x5d_5_2, // rule 18.1, 14 numbers
    0x69_6_2, // rule 18.1, 15 numbers
    0x75_3_1, // rule 18.2, 6 numbers
    0x7a_4_1, // rule 18.2, 8 numbers
    0x80_3_0, // rule 18.3, 3 numbers
    0x81_4_0, // rule 18.3, 4 numbers
    0x82_5_0, // rule 18.3, 5 numbers
    0x83_6_0, // rule 18.3, 6 numbers
    // rule 18.1, 1 number: 1 matched
    3,
    // rule 18.1, 2 numbers: 2 matched
    13,
    // rule 18.1, 3 numbers: 2 to 3 matched
    2, 36,
    // rule 18.1, 4 numbers: 2 to 4 matched
    1, 5, 113,
    // rule 18.1, 5 numbers: 0, 3 to 5 matched
    1, 1, 10, 530,
    // rule 18.1, 6 numbers: 3 to 6 matched
    1, 4, 50, 1000,
    // rule 18.1, 7 numbers: 0, 3 to 7 matched
    1, 1, 3, 10, 155, 5000,
    // rule 18.1, 8 numbers: 0, 4 to 8 matched
    1, 1, 5, 50, 555, 12500,
    // rule 18.1, 9 numbers: 0, 4 to 9 matched
    2, 2, 4, 15, 150, 3000, 20000,
    // rule 18.1, 10 numbers: 0, 4 to 10 matched
    3, 1, 3, 12, 50, 500, 7500, 25000,
    // rule 18.1, 11 numbers: 0, 1, 5 to 11 matched
    4, 1, 2, 5, 32, 200, 1500, 10000, 30000,
    // rule 18.1, 12 numbers: 0, 1, 5 to 12 matched
    6, 1, 1, 5, 15, 75, 600, 4000, 12000, 35000,
    // rule 18.1, 13 numbers: 0, 1, 5 to 13 matched
    8, 1, 1, 3, 7, 40, 250, 2000, 9000, 20000, 40000,
    // rule 18.1, 14 numbers: 0, 1, 5 to 14 matched
    10, 1, 1, 2, 5, 15, 150, 500, 5500, 15000, 25000, 45000,
    // rule 18.1, 15 numbers: 0, 1, 6 to 15 matched
    12, 2, 2, 5, 15, 50, 350, 1600, 8000, 15000, 30000, 50000,
    // rule 18.2, 6 numbers: 0, 3 to 6 matched
    1, 1, 6, 50, 1200,
    // rule 18.2, 8 numbers: 0, 4 to 8 matched
    1, 2, 9, 60, 1000, 12500,
    // rule 18.3, 3 numbers: 3 matched
    56,
    // rule 18.3, 4 numbers: 4 matched
    252,
    // rule 18.3, 5 numbers: 5 matched
    1200,
    // rule 18.3, 6 numbers: 6 matched
    6000,
];

// The three schedules: a word for each of the 21 selections that a schedule has, and a cell for each of the 111 combinations that pay.
#[derive(Clone, Copy)]
pub struct PrizeTable {
    pub cells: [u16; 132],
    ghost kept: { Schedules cells },
}

impl PrizeTable {
    // The table, for a game.
    pub fn of_the_rules() -> PrizeTable
        ensures { Schedules result.cells }
    {
        PrizeTable { cells: TABLE }
    }

    // The prize for a match of a selection whose word stands at a place. Most matches pay nothing, and the word alone says so.
    fn row_prize(&self, place: usize, selection: u32, matched: u32) -> u16
        requires { WordAt self.now.cells place selection }
        ensures { result ≡ prize_by self.now.cells (get_or self.now.cells place 0) selection matched }
    {
        let word = self.cells[place];
        let start = start_of(word);
        let run = run_of(word);
        let low = low_of(word);
        if matched < run {
            if matched < low {
                return self.cells[start + matched as usize];
            }
            return 0;
        }
        if selection < matched {
            return 0;
        }
        self.cells[start + low as usize + (matched - run) as usize]
    }

    // Rule 18.1. The three rules differ in which selections they have, so that one function by the rule, be it a parameter or a const one, would be a match
    // of all three; what they share is `row_prize`.
    pub fn standard(&self, selection: u32, matched: u32) -> u16
        ensures { result ≡ cell standard_rows selection matched }
    {
        match selection {
            1..=15 => self.row_prize(selection as usize - 1, selection, matched),
            _ => 0,
        }
    }

    // Rule 18.2: rule 18.1 but for 6 and 8 numbers.
    #[tactic(auto, using(crate::proofs::TableLaws::as_standard))]
    pub fn special_one(&self, selection: u32, matched: u32) -> u16
        ensures { result ≡ cell special_one_rows selection matched }
    {
        match selection {
            6 => self.row_prize(15, selection, matched),
            8 => self.row_prize(16, selection, matched),
            _ => self.standard(selection, matched),
        }
    }

    // Rule 18.3: only full matches of 3 to 6 numbers pay.
    pub fn special_two(&self, selection: u32, matched: u32) -> u16
        ensures { result ≡ cell special_two_rows selection matched }
    {
        match selection {
            3..=6 => self.row_prize(selection as usize + 14, selection, matched),
            _ => 0,
        }
    }
}

// The place of a selection's first cell, from its word. The digits of a packed word are read by division, here and below: no type of std has such digits.
fn start_of(word: u16) -> usize
    ensures { result ≡ start_in word }
{
    (word / 256) as usize
}

// The match with which its run begins.
fn run_of(word: u16) -> u32
    ensures { result ≡ run_in word }
{
    (word / 16 % 16) as u32
}

// How many low matches pay.
fn low_of(word: u16) -> u32
    ensures { result ≡ low_in word }
{
    (word % 16) as u32
}
