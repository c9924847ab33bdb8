// A game that was drawn: its live tickets in the buffers that the host lends, and the draw.
ghost use Rattle.std.specs.Prelude.{◌≡◌, ◌↔◌, ◌<◌, IsTrue};
ghost use Rattle.house.specs.View.{row_at, marks_at, ticket_from};
ghost use Rattle.settlement.specs.Passing.{Sold, SoldAll};

use house::rows::{Row, read_row};
use prizes::draw::Draw;

// The first `live` tickets of the buffers stand as they were sold.
#[derive(Clone, Copy)]
pub(crate) struct DrawnGame<'a> {
    pub(crate) rows: &'a [u64; 3200],
    pub(crate) marks: &'a [u8; 16000],
    pub(crate) live: usize,
    pub(crate) game: u64,
    pub(crate) draw: Draw,
    ghost sold: { SoldAll rows.now marks.now live },
}

impl<'a> DrawnGame<'a> {
    // Whether no ticket is live.
    pub(crate) fn is_empty(&self) -> bool
        ensures { IsTrue result ↔ (self.now.live ≡ 0) }
    {
        self.live == 0
    }

    // The row of the ticket at a place.
    pub(crate) fn row(&self, i: usize) -> Row
        requires { i < self.now.live }
        ensures read { result ≡ row_at self.now.rows.now i }
        ensures sold { Sold (ticket_from result (marks_at self.now.marks.now i)) }
    {
        read_row(self.rows, i)
    }

    // Its marks, by the place of the first, as they are written.
    pub(crate) fn marks_of(&self, i: usize) -> &'a [u8]
        requires { i < self.now.live }
        ensures { result.now ≡ marks_at self.now.marks.now i }
    {
        let marks = self.marks;
        let from = i * 80;
        &marks[from..from + 80]
    }
}
