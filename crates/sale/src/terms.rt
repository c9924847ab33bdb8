// Kinds, schedules, the operands of a sale and the terms of a ticket.
ghost use Rattle.std.specs.Prelude.{◌≡◌};
ghost use Rattle.sale.specs.Kinds.{kind_of, kind_number, is_jackpot, is_special_one, number_of, jackpot_operand};

use refusals::refusal::Refusal;

// The schedule that a special entry plays for: rule 18.2 or rule 18.3.
#[derive(Clone, Copy, PartialEq, Eq, Debug)]
pub enum Schedule {
    One,
    Two,
}

// Document 01's kinds: 0 standard, 1 jackpot, 2 Special One, 3 Special Two.
#[derive(Clone, Copy, PartialEq, Eq, Debug)]
pub enum Kind {
    Standard,
    Jackpot,
    Special(Schedule),
}

// The two jackpots, by the numbers that each of their ways selects (document 01: 6 or 8).
#[derive(Clone, Copy, PartialEq, Eq, Debug)]
pub enum JackpotKind {
    Six = 6,
    Eight = 8,
}

// A sale's operands as the caller gives them, but for the marks, which stand beside them. `feature` is what the sale enters beside its ways: nothing, or the
// stake of Lucky Last for a game (rule 21.1 of the Tasmanian rules).
#[derive(Clone, Copy)]
pub struct Sale {
    pub kind: u8,
    pub games: u8,
    pub stake: u32,
    pub groups: u8,
    pub types: u8,
    pub feature: Option<u32>,
}

// What a ticket plays for. Its 80 marks stand beside it.
#[derive(Clone, Copy)]
pub struct Terms {
    pub kind: Kind,
    pub games: u8,
    pub stake: u32,
    pub groups: u8,
    pub types: u8,
}

// The kind of a number. Numbers over 3 are refused before they come here, and are the last kind. It stays a `From`: it cannot fail, and a `TryFrom` beside it
// would be a second reading of the same number, which nobody calls.
impl From<u8> for Kind {
    ghost from_gives = { λ number kind. kind ≡ kind_of number };

    fn from(number: u8) -> Kind {
        match number {
            0 => Kind::Standard,
            1 => Kind::Jackpot,
            2 => Kind::Special(Schedule::One),
            _ => Kind::Special(Schedule::Two),
        }
    }
}

impl From<Kind> for u8 {
    ghost from_gives = { λ kind number. number ≡ kind_number kind };

    fn from(kind: Kind) -> u8 {
        match kind {
            Kind::Standard => 0,
            Kind::Jackpot => 1,
            Kind::Special(Schedule::One) => 2,
            Kind::Special(Schedule::Two) => 3,
        }
    }
}

impl From<JackpotKind> for u64 {
    ghost from_gives = { λ jackpot number. number ≡ number_of jackpot };

    fn from(jackpot: JackpotKind) -> u64 {
        jackpot as u64
    }
}

// The jackpot that an operand names. Any number but 6 and 8 is refused.
impl TryFrom<u8> for JackpotKind {
    type Error = Refusal;

    ghost try_from_gives = { λ number found. found ≡ jackpot_operand number };

    #[tactic(auto, using(std::proofs::lemmas::Bool::Decides::nat_tests), unfolding(crate::specs::Kinds::jackpot_named))]
    fn try_from(number: u8) -> Result<JackpotKind, Refusal> {
        match number {
            6 => Ok(JackpotKind::Six),
            8 => Ok(JackpotKind::Eight),
            _ => Err(Refusal::UnknownJackpot),
        }
    }
}

impl Kind {
    // Whether a ticket of this kind plays for a jackpot.
    pub fn is_jackpot(self) -> bool
        ensures { result ≡ is_jackpot self }
    {
        matches!(self, Kind::Jackpot)
    }

    // Whether a ticket of this kind plays for rule 18.2, which asks for two ways at the least.
    pub fn is_special_one(self) -> bool
        ensures { result ≡ is_special_one self }
    {
        matches!(self, Kind::Special(Schedule::One))
    }
}
