// Why reading ends. Hosts read each as its number (docs/PROTOCOL.md).
ghost use Rattle.std.specs.Prelude.{◌≡◌};
ghost use Rattle.roll.specs.Stop.{stop_number};

#[derive(Clone, Copy, PartialEq, Eq, Debug)]
pub enum Stop {
    // Nothing is left of the roll.
    RollEnded = 0,
    // The byte is no command's.
    UnknownByte = 1,
    // Fewer bytes are left than the command has.
    ShortCommand = 2,
    // The book has under 14 bytes left.
    BookFull = 3,
}

impl From<Stop> for u8 {
    ghost from_gives = { λ stop number. number ≡ stop_number stop };

    fn from(stop: Stop) -> u8 {
        stop as u8
    }
}
