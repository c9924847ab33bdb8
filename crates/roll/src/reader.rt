// The reader: runs the commands of a lent roll and writes their answers into a lent book.
ghost use Rattle.std.specs.Prelude.{◌≡◌, ◌≤◌, length, drop};
ghost use Rattle.house.specs.Balance.{Reached};
ghost use Rattle.house.specs.View.{view};
ghost use Rattle.roll.specs.Decode.{marks_in};
ghost use Rattle.commands.specs.Meant.{meant};
ghost use Rattle.roll.specs.Orders.{CommandSize, Answered, Reported};

use crate::decode::decode;
use crate::record::write_record;
use crate::stop::Stop;
use commands::command::{Command, carry_out};
use house::answer::Answer;
use house::state::House;

// The house after a roll, the stop code, the bytes of the answered commands, and how many answers were written. Hosts in C
// read it in this layout, so that the stop is its number.
#[repr(C)]
#[derive(Clone, Copy)]
pub struct Report {
    pub house: House,
    pub stop: u8,
    pub read: usize,
    pub answers: usize,
}

// What is lent with a command: the marks of a sale, from its own bytes. Another command is too short for any, so that the bytes alone say it, as the contract
// does. Nothing is the first 0 of them and no `&[]`: with a constant's address to choose from, a sale took a fifth longer.
fn marks_of(bytes: &[u8]) -> &[u8]
    requires { CommandSize (length bytes.now) }
    ensures { result.now ≡ marks_in (drop 1 bytes.now) }
{
    bytes.get(9..89).unwrap_or(&bytes[..0])
}

impl Report {
    // The part of the roll that was not read, from the caller's roll itself.
    pub fn unread<'a>(self, roll: &'a [u8]) -> &'a [u8]
        ensures { result.now ≡ drop self.read roll.now }
    {
        &roll[self.read.min(roll.len())..]
    }
}

// Carries out a command and writes its answer at the start of a part of the book. A function of its own, so that the loop of the reader has one way round:
// with two, the compiler works out for each accepted command what only a run of refused ones would spare. A refusal's branch writes its code and moves on:
// the form that docs/DECISIONS.md names.
fn answer_order(
    house: &mut House,
    rows: &mut [u64; 3200],
    marks: &mut [u8; 16000],
    command: Command,
    from: &[u8],
    byte: u8,
    book: &mut [u8],
)
    requires { Reached (view house.old rows.old marks.old) × (14 ≤ length book.old) }
    ensures { Answered house.old rows.old marks.old (meant command from.now) byte book.old house.new rows.new marks.new book.new }
{
    let ended = carry_out(house, rows, marks, command, from);
    let Ok(receipt) = ended else {
        write_record(book, byte, Answer::from(ended));
        return;
    };
    write_record(
        book,
        byte,
        Answer {
            code: 0,
            number: receipt.number,
            cents: receipt.cents,
        },
    );
}

// Reads a roll until it ends, a byte is unknown, too few bytes are left or the book has no room for an answer. It counts the bytes read and the answers
// written, as the report has them for C, and by them finds its places in roll and book.
pub fn read_roll(
    house: House,
    rows: &mut [u64; 3200],
    marks: &mut [u8; 16000],
    roll: &[u8],
    book: &mut [u8],
) -> Report
    requires { Reached (view house rows.old marks.old) }
    ensures { Reported house rows.old marks.old roll.now book.old result rows.new marks.new book.new }
{
    let mut here = house;
    let mut read = 0;
    let mut answers = 0;
    let stop = loop {
        let rest = &roll[read..];
        let decoded = decode(rest);
        let Ok(order) = decoded else {
            break decoded.unwrap_err();
        };
        let written = answers * 14;
        if book.len() - written < 14 {
            break Stop::BookFull;
        }
        let bytes = &rest[..order.size];
        answer_order(
            &mut here,
            rows,
            marks,
            order.command,
            marks_of(bytes),
            rest[0],
            &mut book[written..],
        );
        read += order.size;
        answers += 1;
    };
    Report {
        house: here,
        stop: u8::from(stop),
        read,
        answers,
    }
}
