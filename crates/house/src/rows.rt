// The live tickets in the buffers that a caller lends: 200 rows of 16 words, one word a field, and 80 marks a ticket. The first `live` of them
// are the house's, in rising ticket number; what stands beyond is no part of it. They are two arrays with a number beside them since a host in C
// lends them so. A place is a plain number below 200 (`IsRow`): callers count through the places, and a type of its own would be made and taken
// apart at each.
ghost use Rattle.std.specs.Prelude.{◌≡◌, List, [], ◌∷◌, ◌++◌, ℕ, ◌+◌, ◌-◌, ◌*◌, ◌<◌, ◌≤◌, length, take, set, get_or, IfSome, IfNone};
ghost use Rattle.std.specs.List.{CopiedTo, SameBelow, SameFrom};
ghost use Rattle.house.specs.Commands.{blank_ticket};
ghost use Rattle.house.specs.View.{row_of, row_at, words_of, put_row, marks_at, put_marks, ticket_from, tickets_of, place_of, IsRow, IsLiveRow, MarkedRow, MovesDown, RisingRows, without};

// The words of a ticket. A kind is a number here, and no feature or no finishing day is a 0, since the rows that a host lends hold words alone.
#[derive(Clone, Copy)]
pub struct Row {
    pub number: u64,
    pub kind: u64,
    pub games: u64,
    pub stake: u64,
    pub groups: u64,
    pub types: u64,
    pub ways: u64,
    pub jackpot: u64,
    pub sold: u64,
    pub first: u64,
    pub stop: u64,
    pub free: u64,
    pub due: u64,
    pub finished: u64,
    pub sizes: u64,
    pub feature: u64,
}

impl From<[u64; 16]> for Row {
    ghost from_gives = { λ words row. row ≡ row_of words 0 };

    fn from(words: [u64; 16]) -> Row {
        Row {
            number: words[0],
            kind: words[1],
            games: words[2],
            stake: words[3],
            groups: words[4],
            types: words[5],
            ways: words[6],
            jackpot: words[7],
            sold: words[8],
            first: words[9],
            stop: words[10],
            free: words[11],
            due: words[12],
            finished: words[13],
            sizes: words[14],
            feature: words[15],
        }
    }
}

impl From<Row> for [u64; 16] {
    ghost from_gives = { λ row words. words ≡ words_of row };

    fn from(row: Row) -> [u64; 16] {
        [
            row.number,
            row.kind,
            row.games,
            row.stake,
            row.groups,
            row.types,
            row.ways,
            row.jackpot,
            row.sold,
            row.first,
            row.stop,
            row.free,
            row.due,
            row.finished,
            row.sizes,
            row.feature,
        ]
    }
}

// The row at a place.
pub fn read_row(rows: &[u64; 3200], i: usize) -> Row
    requires { IsRow i }
    ensures { result ≡ row_at rows.now i }
{
    let (rows, _) = rows.as_chunks::<16>();
    Row::from(rows[i])
}

// Another row at a place. Word by word: `copy_from_slice` goes by an array on the stack, which cost speed.
#[tactic(auto, using(crate::proofs::RowLists::sets_more), unfolding(crate::specs::View::put_row))]
pub(crate) fn write_row(rows: &mut [u64; 3200], i: usize, row: Row)
    requires { IsRow i }
    ensures { rows.new ≡ put_row rows.old (i * 16) row }
{
    let words: [u64; 16] = row.into();
    let at = i * 16;
    for (k, word) in words.iter().enumerate() {
        rows[at + k] = *word;
    }
}

// A copy of the marks of the ticket at a place.
#[tactic(auto, unfolding(crate::specs::View::marks_at))]
pub fn read_marks(marks: &[u8; 16000], i: usize) -> [u8; 80]
    requires { IsRow i }
    ensures { result ≡ marks_at marks.now i }
{
    let at = i * 80;
    let mut copy = [0u8; 80];
    copy.copy_from_slice(&marks[at..at + 80]);
    copy
}

// A ticket's marks, written from the 80 of a sale. By their first place, and not through `as_chunks_mut`, after which nothing is known of the slice.
#[tactic(auto, unfolding(crate::specs::View::put_marks))]
pub(crate) fn write_marks(marks: &mut [u8; 16000], i: usize, from: &[u8])
    requires { MarkedRow i from.now }
    ensures { marks.new ≡ put_marks marks.old i from.now }
{
    let at = i * 80;
    marks[at..at + 80].copy_from_slice(from);
}

// The place of a ticket's number among the live ones, if it is there.
pub fn place_of(rows: &[u64; 3200], live: usize, number: u64) -> Option<usize>
    requires { RisingRows rows.now live }
    ensures found { (m : List ℕ) → IfSome result (λ place. (place ≡ place_of number (take live (tickets_of rows.now m))) × (place < live)) }
    ensures missed { (m : List ℕ) → IfNone result (place_of number (take live (tickets_of rows.now m)) ≡ live) }
{
    let (rows, _) = rows.as_chunks::<16>();
    rows[..live]
        .binary_search_by_key(&number, |row| row[0])
        .ok()
}

// Another row in the place of a ticket's, which keeps its marks.
#[tactic(auto, using(crate::proofs::RowLaws::tickets_put_row))]
pub fn change_ticket(rows: &mut [u64; 3200], i: usize, row: Row)
    requires { IsRow i }
    ensures { (m : List ℕ) → tickets_of rows.new m ≡ set (tickets_of rows.old m) i (ticket_from row (marks_at m i)) }
{
    write_row(rows, i, row);
}

// One ticket more behind the live ones.
#[tactic(auto, using(crate::proofs::RowLaws::tickets_put, crate::proofs::RowLaws::take_sold, crate::proofs::RowLaws::tickets_length))]
pub fn append_ticket(
    rows: &mut [u64; 3200],
    marks: &mut [u8; 16000],
    live: usize,
    row: Row,
    from: &[u8],
)
    requires { MarkedRow live from.now }
    ensures { take (live + 1) (tickets_of rows.new marks.new) ≡ take live (tickets_of rows.old marks.old) ++ (ticket_from row from.now ∷ []) }
{
    write_row(rows, live, row);
    write_marks(marks, live, from);
}

// One ticket with its marks in the place of another. Inlined, so that a ticket that stays in place costs a comparison and no call.
#[inline(always)]
pub fn move_ticket(rows: &mut [u64; 3200], marks: &mut [u8; 16000], from: usize, to: usize)
    requires { MovesDown from to }
    ensures { tickets_of rows.new marks.new ≡ set (tickets_of rows.old marks.old) to (get_or (tickets_of rows.old marks.old) from blank_ticket) }
{
    if to == from {
        return;
    }
    // Down to the front of the part from one place to the other, which the back end sees: between two places it would copy either way.
    let down = from - to;
    rows[to * 16..from * 16 + 16].copy_within(down * 16.., 0);
    marks[to * 80..from * 80 + 80].copy_within(down * 80.., 0);
}

// The items become those so many further on. A loop from the slice's start, of which the back end makes one block move: of std's `copy_within` it makes a
// loop for the words, which took half as long again.
fn shift_down<T: Copy, const STEP: usize>(items: &mut [T])
    requires { STEP ≤ length items.old }
    ensures len { length items.new ≡ length items.old }
    ensures by_index { CopiedTo items.old items.new STEP 0 (length items.old - STEP) × SameBelow items.old items.new 0 × SameFrom items.old items.new (0 + (length items.old - STEP)) }
{
    for k in 0..items.len() - STEP {
        items[k] = items[k + STEP];
    }
}

// The live tickets without the one at a place: those after it move down, their rows in one block and their marks in another.
pub fn remove_ticket(rows: &mut [u64; 3200], marks: &mut [u8; 16000], live: usize, i: usize)
    requires { IsLiveRow i live }
    ensures { take (live - 1) (tickets_of rows.new marks.new) ≡ without i (take live (tickets_of rows.old marks.old)) }
{
    shift_down::<u64, 16>(&mut rows[i * 16..live * 16]);
    shift_down::<u8, 80>(&mut marks[i * 80..live * 80]);
}
