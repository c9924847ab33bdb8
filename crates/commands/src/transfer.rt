// Transfer: unclaimed money into a jackpot's primary.
ghost use Rattle.std.specs.Prelude.{◌≡◌, ◌≤◌, ◌<◌, ◌+◌, ◌^◌, List, ℕ, IfOk};
ghost use Rattle.refusals.specs.Refusal.{code_in};
ghost use Rattle.sale.specs.Kinds.{number_of};
ghost use Rattle.house.specs.Commands.{transfer, code_of, with_primary};
ghost use Rattle.house.specs.View.{view};
ghost use Rattle.house.specs.Parts.{Comes, Carried, host_answer};

use house::answer::Receipt;
use house::state::House;
use prizes::jackpot::Jackpot;
use refusals::refusal::Refusal;
use sale::terms::JackpotKind;

// The jackpot that Transfer names, or the first of its rules that is broken.
#[tactic(auto, using(crate::proofs::TransferLaws::transfer_code, crate::proofs::TransferLaws::operand_named, crate::proofs::TransferLaws::operand_known, crate::proofs::TransferLaws::operand_unnamed, std::proofs::lemmas::Bool::Decides::nat_tests))]
fn check_transfer(house: &House, jackpot: u8, cents: u64) -> Result<JackpotKind, Refusal>
    ensures code { (words marks : List ℕ) → code_in result ≡ code_of (view house.now words marks) (transfer jackpot cents) }
    ensures named { IfOk result (λ kind. number_of kind ≡ jackpot) }
    ensures covered { IfOk result (λ _. cents ≤ house.now.counters.unclaimed) }
{
    if house.day == 0 {
        return Err(Refusal::NotOpen);
    }
    let kind = JackpotKind::try_from(jackpot)?;
    if house.drawn != 0 {
        return Err(Refusal::Drawing);
    }
    if cents == 0 || house.counters.unclaimed < cents {
        return Err(Refusal::UnfitCents);
    }
    Ok(kind)
}

// Puts cents into a primary: how many are in it then.
fn add_to_primary(pools: &mut Jackpot, cents: u64) -> u64
    requires { pools.old.primary + cents < 2 ^ 64 }
    ensures pools { pools.new ≡ with_primary pools.old (pools.old.primary + cents) }
    ensures primary { result ≡ pools.old.primary + cents }
{
    pools.primary += cents;
    pools.primary
}

// Moves cents of the unclaimed prizes into the primary of a jackpot.
pub fn transfer_cents(house: &mut House, jackpot: u8, cents: u32) -> Result<Receipt, Refusal>
    requires { Comes house.old }
    ensures { (words marks : List ℕ) → Carried house.old words marks (transfer jackpot cents) house.new words marks (host_answer result) }
{
    let money = u64::from(cents);
    let kind = check_transfer(house, jackpot, money)?;
    house.counters.unclaimed -= money;
    let primary = match kind {
        JackpotKind::Six => add_to_primary(&mut house.six, money),
        JackpotKind::Eight => add_to_primary(&mut house.eight, money),
    };
    Ok(Receipt {
        number: u32::from(jackpot),
        cents: primary,
    })
}
