// The lines that the ledger prints, each with its line's end, put into a buffer, which cannot fail; and the last two as values that `{}` prints: what is
// promised of these is what they wrote where they end with Ok.
ghost use Rattle.std.specs.Prelude.{◌∷◌, [], ◌++◌, ◌+◌, ◌≤◌, length, Some};
ghost use Rattle.std.specs.Fmt.{WritesOnOk};
ghost use Rattle.text.specs.Lines.{RoomFor, Wrote, answer_line, stop_line, till_line, signed};

use crate::ascii::as_text;
use crate::decimal::{put_byte, put_figure, put_four};
use queries::till::Till;
use std::fmt;

// A word of four letters and a space; the next place.
fn put_word(out: &mut [u8], at: usize, a: u8, b: u8, c: u8, d: u8) -> usize
    requires { at + 5 ≤ length out.old }
    ensures { Wrote out.old at (a ∷ b ∷ c ∷ d ∷ 32 ∷ []) out.new result }
{
    let second = put_byte(out, at, a);
    let third = put_byte(out, second, b);
    let fourth = put_byte(out, third, c);
    let fifth = put_byte(out, fourth, d);
    put_byte(out, fifth, 32)
}

// A figure by its size, with a minus sign where it is below zero, and the line's end; the next place.
fn put_signed(out: &mut [u8], at: usize, negative: bool, size: u64) -> usize
    requires { at + length (signed negative size ++ (10 ∷ [])) ≤ length out.old }
    ensures { Wrote out.old at (signed negative size ++ (10 ∷ [])) out.new result }
{
    if negative {
        let next = put_byte(out, at, 45);
        return put_figure(out, next, size, 10);
    }
    put_figure(out, at, size, 10)
}

// An answer's line; the next place.
pub(crate) fn put_answer_line(
    out: &mut [u8],
    at: usize,
    byte: u8,
    code: u8,
    number: u32,
    cents: u64,
) -> usize
    requires { RoomFor out.old at (answer_line byte code number cents) }
    ensures { Wrote out.old at (answer_line byte code number cents) out.new result }
{
    put_four(out, at, byte as u64, code as u64, number as u64, cents, 10)
}

// The line of a stop code; the next place.
pub fn put_stop_line(out: &mut [u8], at: usize, code: u8) -> usize
    requires { RoomFor out.old at (stop_line code) }
    ensures { Wrote out.old at (stop_line code) out.new result }
{
    let next = put_word(out, at, b's', b't', b'o', b'p');
    put_figure(out, next, code as u64, 10)
}

// The line of the till; the next place.
pub fn put_till_line(out: &mut [u8], at: usize, till: Till) -> usize
    requires { RoomFor out.old at (till_line till) }
    ensures { Wrote out.old at (till_line till) out.new result }
{
    let first = put_word(out, at, b't', b'i', b'l', b'l');
    let fifth = put_four(
        out,
        first,
        till.taken,
        till.seeds,
        till.paid,
        till.refunded,
        32,
    );
    let ninth = put_four(
        out,
        fifth,
        till.owed,
        till.held,
        till.unclaimed,
        till.pooled,
        32,
    );
    put_signed(out, ninth, till.negative, till.retained)
}

// The line of a stop code: a number, as the report has it for C.
#[derive(Clone, Copy)]
pub struct StopLine(pub u8);

impl fmt::Display for StopLine {
    ghost output = { λ s. Some (stop_line s.0) };

    fn fmt<W: fmt::Write>(&self, f: &mut fmt::Formatter<W>) -> fmt::Result {
        let mut line = [0u8; 9];
        let code = self.0;
        let size = put_stop_line(&mut line, 0, code);
        f.write_str(as_text(&line[..size]))
    }
}

// Prints the line of a till, in one write. A function of its own, so that the figures are known to be numbers of 64 bits.
fn print_till<W: fmt::Write>(till: Till, f: &mut fmt::Formatter<W>) -> fmt::Result
    ensures { WritesOnOk W.write_str_gives f.old result (till_line till) f.new }
{
    let mut line = [0u8; 195];
    let size = put_till_line(&mut line, 0, till);
    f.write_str(as_text(&line[..size]))
}

// The line of the till.
#[derive(Clone, Copy)]
pub struct TillLine(pub Till);

impl fmt::Display for TillLine {
    ghost output = { λ t. Some (till_line t.0) };

    fn fmt<W: fmt::Write>(&self, f: &mut fmt::Formatter<W>) -> fmt::Result {
        print_till(self.0, f)
    }
}
