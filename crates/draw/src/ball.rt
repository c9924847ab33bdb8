// Ball: one number more of the current game; the twentieth settles it.
ghost use Rattle.std.specs.Prelude.{◌≡◌, List, map, ℕ, ◌+◌, ◌≤◌, ◌<◌, length, get_or};
ghost use Rattle.refusals.specs.Refusal.{code_in};
ghost use Rattle.sale.specs.Lists.{below};
ghost use Rattle.house.specs.Commands.{ball, code_of, balls_with};
ghost use Rattle.house.specs.Balance.{Reached};
ghost use Rattle.house.specs.View.{view};
ghost use Rattle.house.specs.Parts.{Carried, host_answer};

use crate::settle::settle_game;
use house::answer::Receipt;
use house::state::House;
use prizes::draw::Draw;
use refusals::refusal::Refusal;

// The first rule of Ball that is broken, if any is.
#[tactic(auto, using(crate::proofs::BallLaws::ball_code, std::proofs::lemmas::Bool::Decides::nat_tests))]
fn check_ball(house: &House, number: u8) -> Result<(), Refusal>
    requires { house.now.drawn ≤ 20 }
    ensures { (words marks : List ℕ) → code_in result ≡ code_of (view house.now words marks) (ball number) }
{
    if house.day == 0 {
        return Err(Refusal::NotOpen);
    }
    if !(1..=80).contains(&number) {
        return Err(Refusal::BallOutOfRange);
    }
    if House::GAME_LIMIT < house.game {
        return Err(Refusal::GameLimit);
    }
    if house.balls[..house.drawn as usize].contains(&number) {
        return Err(Refusal::BallAlreadyIn);
    }
    Ok(())
}

// The balls in, and one number more.
fn balls_with(house: &House, number: u8) -> [u8; 20]
    requires { house.now.drawn < 20 }
    ensures count { length result ≡ 20 }
    ensures balls { (words marks : List ℕ) → map (λ i. get_or result i 0) (below (house.now.drawn + 1)) ≡ balls_with number (view house.now words marks) }
{
    let mut balls = house.balls;
    balls[house.drawn as usize] = number;
    balls
}

// A ball before the twentieth. How many are in fits wherever `as` casts it: at most 20.
fn add_ball(house: &mut House, number: u8) -> Receipt
    requires { house.old.drawn < 19 }
    ensures { (words marks : List ℕ) → code_of (view house.old words marks) (ball number) ≡ 0 → Carried house.old words marks (ball number) house.new words marks (host_answer (Ok result)) }
{
    house.balls = balls_with(house, number);
    house.drawn += 1;
    Receipt {
        number: house.drawn as u32,
        cents: 0,
    }
}

// Enters a ball. The twentieth settles its game.
pub fn enter_ball(
    house: &mut House,
    rows: &mut [u64; 3200],
    marks: &mut [u8; 16000],
    number: u8,
) -> Result<Receipt, Refusal>
    requires { Reached (view house.old rows.old marks.old) }
    ensures { Carried house.old rows.old marks.old (ball number) house.new rows.new marks.new (host_answer result) }
{
    check_ball(house, number)?;
    if house.drawn < 19 {
        return Ok(add_ball(house, number));
    }
    let draw = Draw::of(balls_with(house, number));
    Ok(settle_game(house, rows, marks, draw))
}
