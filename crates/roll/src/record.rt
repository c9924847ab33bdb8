// The 14 bytes of an answer.
ghost use Rattle.std.specs.Prelude.{◌≡◌, ◌++◌, ◌≤◌, length, drop};
ghost use Rattle.roll.specs.Decode.{record_of};

use house::answer::Answer;
use numbers::bytes::write_number;

// An answer's record at the start of a part of the book. It is written from its end, the longer number first: so the back end makes one store of
// each number's bytes.
pub(crate) fn write_record(book: &mut [u8], byte: u8, answer: Answer)
    requires { 14 ≤ length book.old }
    ensures { book.new ≡ record_of byte answer ++ drop 14 book.old }
{
    write_number::<8>(book, 6, answer.cents);
    write_number::<4>(book, 2, u64::from(answer.number));
    book[0] = byte;
    book[1] = answer.code;
}
