// A number in decimal.
ghost use Rattle.std.specs.Prelude.{◌∷◌, [], ◌+◌, ◌≤◌, length};
ghost use Rattle.text.specs.Lines.{Wrote, decimal, figure, four_figures};

// One byte at a place; the next place.
pub(crate) fn put_byte(out: &mut [u8], at: usize, byte: u8) -> usize
    requires { at + 1 ≤ length out.old }
    ensures { Wrote out.old at (byte ∷ []) out.new result }
{
    out[at] = byte;
    at + 1
}

// A number's digits from a place on; the next place.
pub(crate) fn put_decimal(out: &mut [u8], at: usize, n: u64) -> usize
    requires { at + length (decimal n) ≤ length out.old }
    ensures { Wrote out.old at (decimal n) out.new result }
{
    if n < 10 {
        return put_byte(out, at, 48 + n as u8);
    }
    let last = put_decimal(out, at, n / 10);
    put_byte(out, last, 48 + (n % 10) as u8)
}

// A number and the byte that ends it; the next place.
pub(crate) fn put_figure(out: &mut [u8], at: usize, n: u64, end: u8) -> usize
    requires { at + length (figure n end) ≤ length out.old }
    ensures { Wrote out.old at (figure n end) out.new result }
{
    let next = put_decimal(out, at, n);
    put_byte(out, next, end)
}

// Four figures one space apart, and the byte that ends them; the next place.
pub(crate) fn put_four(out: &mut [u8], at: usize, a: u64, b: u64, c: u64, d: u64, end: u8) -> usize
    requires { at + length (four_figures a b c d end) ≤ length out.old }
    ensures { Wrote out.old at (four_figures a b c d end) out.new result }
{
    let second = put_figure(out, at, a, 32);
    let third = put_figure(out, second, b, 32);
    let fourth = put_figure(out, third, c, 32);
    put_figure(out, fourth, d, end)
}
