// Numbers in a buffer, high byte first. How many bytes a number has is a parameter, so that one function reads the numbers of every width and one writes
// them.
ghost use Rattle.std.specs.Prelude.{◌≡◌, ◌++◌, ◌+◌, ◌^◌, ◌<◌, ◌≤◌, take, drop};
ghost use Rattle.numbers.specs.Bytes.{number_of, bytes_of};
ghost use Rattle.numbers.specs.Bounds.{BytesAt};

// The number in the N bytes from a place on.
pub fn read_number<const N: usize>(buffer: &[u8], at: usize) -> u64
    requires few { N ≤ 8 }
    requires within { BytesAt buffer.now at N }
    ensures number { result ≡ number_of (take N (drop at buffer.now)) }
    ensures fits { result < 256 ^ N }
{
    let mut bytes = [0u8; 8];
    bytes[8 - N..].copy_from_slice(&buffer[at..at + N]);
    u64::from_be_bytes(bytes)
}

// Writes the last N bytes of a number from a place on.
pub fn write_number<const N: usize>(buffer: &mut [u8], at: usize, number: u64)
    requires few { N ≤ 8 }
    requires within { BytesAt buffer.old at N }
    ensures { buffer.new ≡ take at buffer.old ++ bytes_of N number ++ drop (at + N) buffer.old }
{
    let bytes = number.to_be_bytes();
    buffer[at..at + N].copy_from_slice(&bytes[8 - N..]);
}
