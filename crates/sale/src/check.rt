// The operand checks of a sale. The number of groups is the caller's byte, bounded once check 9 has passed: it is asked for by a clause (`Grouped`), since a type
// for it would be made here and taken apart in every function that is called. The sizes are lent to the survey, and of what is lent the check knows no width of an
// item: so that they are bytes is a clause too (`Bytes`).
ghost use Rattle.std.specs.Prelude.{◌≡◌, not, ◌&&◌, ◌||◌, List, [], ◌∷◌, ℕ, ◌^◌, leb, eqb, take, IfOk};
ghost use Rattle.refusals.specs.Refusal.{code_in};
ghost use Rattle.sale.specs.Lists.{every};
ghost use Rattle.sale.specs.Kinds.{kind_of, is_special_one};
ghost use Rattle.sale.specs.Checks.{Operands, operands_of, operand_code, accepted_quote, first_met, way_count, charge_of, feature_row, stake_row, feature_stake_row, charge_row};
ghost use Rattle.sale.specs.Bounds.{Grouped, Bytes, Counted};
ghost use Rattle.sale.specs.Passes.{MarksPassed, MarksChecked, WaysChecked, PriceChecked};

use crate::marks::{group_sizes, size_word};
use crate::price::{CHARGE_LIMIT, charge_of, paid_games, stake_fits};
use crate::survey::{Survey, survey_ways};
use crate::terms::{JackpotKind, Kind, Sale};
use refusals::refusal::Refusal;

// What a sale that passes is told: the number of ways, the paid games, the charge, the jackpot that they play for, if any, and the sizes of the groups in one
// word.
#[derive(Clone, Copy)]
pub struct Quote {
    pub ways: u32,
    pub paid: u8,
    pub charge: u32,
    pub jackpot: Option<JackpotKind>,
    pub sizes: u64,
}

// A price that passes: the paid games and the charge.
#[derive(Clone, Copy)]
struct Price {
    paid: u8,
    charge: u64,
}

// Whether x is from lo to hi. A function, since its contract is in the terms of the table's rows: what std's `contains` of a range promises has another form.
fn is_within(x: u8, lo: u8, hi: u8) -> bool
    ensures { result ≡ leb lo x && leb x hi }
{
    (lo..=hi).contains(&x)
}

// Whether no mark is over the number of groups, and every group has a number.
fn groups_fit(groups: u8, marks: &[u8], sizes: [u8; 8]) -> bool
    requires { Grouped groups }
    ensures { result ≡ (every (λ m. leb m groups) marks.now && every (λ n. not (eqb n 0)) (take groups sizes)) }
{
    marks.iter().all(|mark| *mark <= groups)
        && sizes[..groups as usize].iter().all(|size| *size != 0)
}

// Whether the types byte nominates something, and nothing of more groups than there are.
fn types_fit(groups: u8, types: u8) -> bool
    requires { Grouped groups }
    ensures { result ≡ not (eqb types 0 || leb (2 ^ groups) types) }
{
    types != 0 && (types as u32) >> groups == 0
}

// Whether a Special One ticket has one way only.
fn is_single_special(kind: Kind, count: u32) -> bool
    ensures { result ≡ is_special_one kind && eqb count 1 }
{
    kind.is_special_one() && count == 1
}

// 7 to 10: the kind, the games, the groups and the marks. The sizes of the groups.
fn check_marks(sale: Sale, marks: &[u8]) -> Result<[u8; 8], Refusal>
    ensures { MarksChecked (operands_of sale marks.now) result }
{
    if 3 < sale.kind {
        return Err(Refusal::UnknownKind);
    }
    if !is_within(sale.games, 1, 100) {
        return Err(Refusal::GamesOutOfRange);
    }
    if !is_within(sale.groups, 1, 8) {
        return Err(Refusal::GroupsOutOfRange);
    }
    if marks.len() != 80 {
        return Err(Refusal::UnfitMarks);
    }
    let sizes = group_sizes(marks);
    if !groups_fit(sale.groups, marks, sizes) {
        return Err(Refusal::UnfitMarks);
    }
    Ok(sizes)
}

// 11 to 13: the ways, from the sizes of the groups. What was seen of them.
fn check_ways(sale: Sale, kind: Kind, sizes: [u8; 8]) -> Result<Survey, Refusal>
    requires { Grouped sale.groups × Bytes sizes }
    ensures { (marks : List ℕ) → MarksPassed (operands_of sale marks) sizes → kind ≡ kind_of sale.kind → WaysChecked (operands_of sale marks) kind result }
{
    if !types_fit(sale.groups, sale.types) {
        return Err(Refusal::UnfitTypes);
    }
    let survey = survey_ways(sale.groups, sale.types, &sizes);
    if !survey.suits(kind) {
        return Err(Refusal::UnfitWaySize);
    }
    if is_single_special(kind, survey.count) {
        return Err(Refusal::SingleSpecialOne);
    }
    Ok(survey)
}

// 31: a feature beside another kind than 0, or beside more than one way. The kind is asked by its number, as the row has it.
#[tactic(auto, unfolding(crate::specs::Checks::first_met))]
fn check_feature(feature: Option<u32>, kind: u8, count: u32) -> Result<(), Refusal>
    ensures { (o : Operands) → feature ≡ o.feature → kind ≡ o.kind → count ≡ way_count o → code_in result ≡ first_met (feature_row o ∷ []) }
{
    if feature.is_none() {
        return Ok(());
    }
    if kind != 0 || 1 < count {
        return Err(Refusal::UnfitFeature);
    }
    Ok(())
}

// 14: the stake.
#[tactic(auto, unfolding(crate::specs::Checks::first_met))]
fn check_stake(kind: Kind, count: u32, stake: u32) -> Result<(), Refusal>
    ensures { (o : Operands) → kind ≡ kind_of o.kind → count ≡ way_count o → stake ≡ o.stake → code_in result ≡ first_met (stake_row o ∷ []) }
{
    if !stake_fits(kind, count, stake) {
        return Err(Refusal::UnfitStake);
    }
    Ok(())
}

// 32: the feature stake.
#[tactic(auto, unfolding(crate::specs::Checks::first_met))]
fn check_feature_stake(feature: Option<u32>) -> Result<(), Refusal>
    ensures { (o : Operands) → feature ≡ o.feature → code_in result ≡ first_met (feature_stake_row o ∷ []) }
{
    let Some(stake) = feature else {
        return Ok(());
    };
    if stake == 0 || stake % 100 != 0 {
        return Err(Refusal::UnfitFeatureStake);
    }
    Ok(())
}

// 15: the charge.
#[tactic(auto, unfolding(crate::specs::Checks::first_met))]
fn check_charge(charge: u64) -> Result<(), Refusal>
    ensures { (o : Operands) → charge ≡ charge_of o → code_in result ≡ first_met (charge_row o ∷ []) }
{
    if CHARGE_LIMIT < charge {
        return Err(Refusal::ChargeOverLimit);
    }
    Ok(())
}

// 31, 14, 32 and 15: the feature, whether it goes with the kind and the ways, and the price. The kind and the count are handed on beside the sale, here and
// at the stake: they are what the earlier stages found, and a struct of the two would be made for these two calls.
fn check_price(sale: Sale, kind: Kind, count: u32) -> Result<Price, Refusal>
    requires { Counted count }
    ensures { (marks : List ℕ) → kind ≡ kind_of sale.kind → count ≡ way_count (operands_of sale marks) → PriceChecked (operands_of sale marks) result }
{
    check_feature(sale.feature, sale.kind, count)?;
    check_stake(kind, count, sale.stake)?;
    check_feature_stake(sale.feature)?;
    let paid = paid_games(sale.games);
    let charge = charge_of(sale.stake, count, sale.feature.unwrap_or(0), paid);
    check_charge(charge)?;
    Ok(Price { paid, charge })
}

// The checks in the order of the table: the first that is not passed refuses the sale. `as` loses nothing: a charge that passes is at most 999,900.
pub fn quote_for(sale: Sale, marks: &[u8]) -> Result<Quote, Refusal>
    ensures code { code_in result ≡ operand_code (operands_of sale marks.now) }
    ensures quote { IfOk result (λ quote. quote ≡ accepted_quote (operands_of sale marks.now)) }
{
    let sizes = check_marks(sale, marks)?;
    let kind = Kind::from(sale.kind);
    let survey = check_ways(sale, kind, sizes)?;
    let price = check_price(sale, kind, survey.count)?;
    Ok(Quote {
        ways: survey.count,
        paid: price.paid,
        charge: price.charge as u32,
        jackpot: survey.jackpot(kind),
        sizes: size_word(sizes),
    })
}
