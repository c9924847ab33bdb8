// The lines of the answers in a book: put into a buffer, which cannot fail; and as a value that `{}` prints, of which is promised what it wrote where it ends
// with Ok.
ghost use Rattle.std.specs.Prelude.{◌+◌, ◌/◌, ◌≤◌, Some, length, drop};
ghost use Rattle.std.specs.Str.{IsAscii};
ghost use Rattle.std.specs.Fmt.{WritesOnOk};
ghost use Rattle.text.specs.Lines.{BookRoom, Wrote, record_line, book_lines};

use crate::ascii::as_text;
use crate::lines::put_answer_line;
use numbers::bytes::read_number;
use std::fmt;

// The line of the record at a place of a book, 40 bytes at the most; the next place. The cast loses nothing: by the contract of `read_number` a number of 4
// bytes fits, and one function's type cannot depend on how many bytes it reads.
fn put_record_line(out: &mut [u8], at: usize, book: &[u8], from: usize) -> usize
    requires { (at + 40 ≤ length out.old) × (from + 14 ≤ length book.now) }
    ensures wrote { Wrote out.old at (record_line (drop from book.now)) out.new result × (result ≤ at + 40) }
    ensures ascii { IsAscii (record_line (drop from book.now)) }
{
    let number = read_number::<4>(book, from + 2) as u32;
    let cents = read_number::<8>(book, from + 6);
    put_answer_line(out, at, book[from], book[from + 1], number, cents)
}

// The lines of the first answers of a book, from the buffer's start; the next place.
pub fn put_book(out: &mut [u8], book: &[u8], answers: usize) -> usize
    requires { BookRoom out.old book.now answers }
    ensures wrote { Wrote out.old 0 (book_lines answers book.now) out.new result }
    ensures ascii { IsAscii (book_lines answers book.now) }
{
    let mut at = 0;
    for i in 0..answers {
        at = put_record_line(out, at, book, i * 14);
    }
    at
}

// Prints the lines of a book of at most 64 answers, in one write.
fn print_book<W: fmt::Write>(book: &[u8], f: &mut fmt::Formatter<W>) -> fmt::Result
    requires { length book.now ≤ 896 }
    ensures { WritesOnOk W.write_str_gives f.old result (book_lines (length book.now / 14) book.now) f.new }
{
    let mut lines = [0u8; 2560];
    let size = put_book(&mut lines, book, book.len() / 14);
    f.write_str(as_text(&lines[..size]))
}

// The lines of the answers in a book of records.
#[derive(Clone, Copy)]
pub struct BookLines<'a>(pub &'a [u8]);

impl fmt::Display for BookLines<'_> {
    ghost output = { λ b. Some (book_lines (length b.0.now / 14) b.0.now) };

    fn fmt<W: fmt::Write>(&self, f: &mut fmt::Formatter<W>) -> fmt::Result {
        let (parts, rest) = self.0.as_chunks::<896>();
        for part in parts {
            print_book(part, f)?;
        }
        print_book(rest, f)
    }
}
