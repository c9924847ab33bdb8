// How a command ends, and what a host reads of it.
ghost use Rattle.std.specs.Prelude.{◌≡◌};
ghost use Rattle.house.specs.Parts.{host_answer};

use refusals::refusal::Refusal;

// What an accepted command answers: the number and cents of document 01's table. A refused one answers a `Refusal`, and leaves the house as it was.
#[derive(Clone, Copy)]
pub struct Receipt {
    pub number: u32,
    pub cents: u64,
}

// What a host reads of a command: 0 or the refusal's number, and the number and cents, which are 0 where it was refused.
#[derive(Clone, Copy)]
pub struct Answer {
    pub code: u8,
    pub number: u32,
    pub cents: u64,
}

impl From<Result<Receipt, Refusal>> for Answer {
    ghost from_gives = { λ ended answer. answer ≡ host_answer ended };

    fn from(ended: Result<Receipt, Refusal>) -> Answer {
        match ended {
            Ok(receipt) => Answer {
                code: 0,
                number: receipt.number,
                cents: receipt.cents,
            },
            Err(refusal) => Answer {
                code: u8::from(refusal),
                number: 0,
                cents: 0,
            },
        }
    }
}
