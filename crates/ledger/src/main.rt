// Reads a roll from standard input, its first 65,536 bytes, runs it from a fresh house, and prints its answers, the stop code and the till.

#![tactic(auto)]

ghost use Rattle.std.specs.Prelude.{◌*◌, ◌≤◌, length, IfOk, IfSome, OnOk};
ghost use Rattle.std.specs.Io.KnownBytes.{Appends};
ghost use Rattle.house.specs.Balance.{Reached};
ghost use Rattle.house.specs.View.{view};
ghost use Rattle.roll.specs.Orders.{Reported};
ghost use Rattle.ledger.specs.Sittings.{ReadsOn, printed};

use arrayvec::ArrayString;
use house::state::House;
use queries::till::till_of;
use roll::reader::{Report, read_roll};
use roll::stop::Stop;
use std::fmt::{Display, Write as _};
use std::io::{self, Read, Write};
use text::lines::{StopLine, TillLine};
use text::records::BookLines;

// Reads until the buffer is full or the input ends, and returns how many bytes it read. A loop of its own, since std's `read_exact` fails where the
// input is shorter and `read_to_end` needs a heap.
fn read_full<R: Read>(input: &mut R, roll: &mut [u8]) -> io::Result<usize>
    ensures { IfOk result (λ size. size ≤ length roll.new) }
{
    let mut size = 0;
    while size < roll.len() {
        let more = input.read(&mut roll[size..])?;
        if more == 0 {
            break;
        }
        size += more;
    }
    Ok(size)
}

// Prints a text in one write where a page holds it, and else piece by piece.
fn print<W: Write, D: Display>(output: &mut W, text: &D) -> io::Result<()>
    ensures { OnOk result (IfSome (D.output text.now) (Appends (W.contents output.old) (W.contents output.new))) }
{
    let mut page = ArrayString::<4096>::new();
    match write!(page, "{text}") {
        Ok(()) => output.write_all(page.as_str().as_bytes()),
        Err(_) => write!(output, "{text}"),
    }
}

// Reads on until a book of 64 answers is full or the roll stops. A function of its own, so that what the reader's contract says of the rest of the roll is
// shown apart from the loop that prints.
fn read_on(
    house: House,
    rows: &mut [u64; 3200],
    marks: &mut [u8; 16000],
    roll: &[u8],
    book: &mut [u8; 896],
) -> Report
    requires { Reached (view house rows.old marks.old) }
    ensures reads_on { ReadsOn (view result.house rows.new marks.new) roll.now result.stop result.read }
    ensures few { result.answers * 14 ≤ 896 }
    ensures reported { Reported house rows.old marks.old roll.now book.old result rows.new marks.new book.new }
{
    read_roll(house, rows, marks, roll, book)
}

// Runs a whole roll, and prints the answers of each book, the stop code and the till. The report has the stop as a number, for C.
fn run_roll<W: Write>(
    output: &mut W,
    roll: &[u8],
    rows: &mut [u64; 3200],
    marks: &mut [u8; 16000],
) -> io::Result<()>
    ensures { OnOk result (Appends (W.contents output.old) (W.contents output.new) (printed roll.now)) }
{
    let mut house = House::fresh();
    let mut book = [0u8; 896];
    let mut rest = roll;
    loop {
        let report = read_on(house, rows, marks, rest, &mut book);
        print(output, &BookLines(&book[..report.answers * 14]))?;
        house = report.house;
        let is_full = report.stop == u8::from(Stop::BookFull);
        if !is_full {
            let till = TillLine(till_of(house, rows));
            return print(output, &format_args!("{}{till}", StopLine(report.stop)));
        }
        rest = report.unread(rest);
    }
}

fn main(rt: HostRuntime) -> io::Result<()> {
    let mut rows = [0u64; 3200];
    let mut marks = [0u8; 16000];
    let mut input = [0u8; 65536];
    let size = read_full(&mut rt.stdin(), &mut input)?;
    run_roll(&mut rt.stdout(), &input[..size], &mut rows, &mut marks)
}
