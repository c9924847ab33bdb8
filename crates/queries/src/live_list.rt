// The live list: the live tickets' numbers in a lent buffer, rising, as the rows stand.
ghost use Rattle.std.specs.Prelude.{◌≡◌, List, map, ◌++◌, ℕ, ◌*◌, ◌≤◌, ◌<◌, ◌^◌, length, drop};
ghost use Rattle.sale.specs.Lists.{below};
ghost use Rattle.house.specs.View.{row_at, view};
ghost use Rattle.house.specs.Parts.{ComesWith};
ghost use Rattle.queries.specs.Listing.{list_bytes, host_list, Listing};

use house::rows::read_row;
use house::state::House;
use numbers::bytes::write_number;
use refusals::refusal::Refusal;

// 0 with the number of live tickets, or the refusal's number: a code beside a count, since the struct goes to C as it stands.
#[repr(C)]
#[derive(Clone, Copy)]
pub struct Listed {
    pub code: u8,
    pub count: u32,
}

impl From<Result<u32, Refusal>> for Listed {
    ghost from_gives = { λ ended listed. listed ≡ host_list ended };

    fn from(ended: Result<u32, Refusal>) -> Listed {
        match ended {
            Ok(count) => Listed { code: 0, count },
            Err(refusal) => Listed {
                code: u8::from(refusal),
                count: 0,
            },
        }
    }
}

// The numbers of the first tickets, one after another. By places, and not through `as_chunks_mut`, after which nothing is known of the buffer.
fn write_numbers(rows: &[u64; 3200], live: usize, out: &mut [u8])
    requires { (live ≤ 200) × (4 * live ≤ length out.old) × ((i : ℕ) → i < live → (row_at rows.now i).number < 2 ^ 32) }
    ensures { out.new ≡ list_bytes (map (λ i. (row_at rows.now i).number) (below live)) ++ drop (4 * live) out.old }
{
    for i in 0..live {
        let row = read_row(rows, i);
        write_number::<4>(out, i * 4, row.number);
    }
}

// The numbers of the live tickets, and how many they are, at most 200, so that `as` loses nothing.
fn write_list(house: &House, rows: &[u64; 3200], out: &mut [u8]) -> Result<u32, Refusal>
    requires { ComesWith house.now rows.now }
    ensures { (marks : List ℕ) → Listing (view house.now rows.now marks) out.old out.new (host_list result) }
{
    let live = house.live as usize;
    if out.len() < live * 4 {
        return Err(Refusal::BufferTooShort);
    }
    write_numbers(rows, live, out);
    Ok(live as u32)
}

// The numbers of the live tickets, rising, four bytes each, or code 30 where the buffer is too short.
pub fn live_list(house: House, rows: &[u64; 3200], out: &mut [u8]) -> Listed
    requires { ComesWith house rows.now }
    ensures { (marks : List ℕ) → Listing (view house rows.now marks) out.old out.new result }
{
    Listed::from(write_list(&house, rows, out))
}
