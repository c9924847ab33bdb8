// A decoded command, and the one part that carries out any of them.
ghost use Rattle.house.specs.Balance.{Reached};
ghost use Rattle.house.specs.View.{view};
ghost use Rattle.house.specs.Parts.{Carried, host_answer};
ghost use Rattle.commands.specs.Meant.{meant};

use crate::open::open_day;
use crate::transfer::transfer_cents;
use draw::ball::enter_ball;
use draw::call_off::call_off_game;
use house::answer::Receipt;
use house::state::House;
use refusals::refusal::Refusal;
use sale::terms::Sale;
use tickets::cancel::cancel_ticket;
use tickets::claim::claim_ticket;
use tickets::collect::collect_ticket;
use tickets::expire::expire_tickets;
use tickets::sell::sell_ticket;

// The commands with their operands, at their width on a roll: no operand is checked yet, so that a jackpot or a kind is any byte. A sale with a feature is
// the command Lucky Last.
#[derive(Clone, Copy)]
pub enum Command {
    Open(u16),
    Sell(Sale),
    Cancel(u32),
    Ball(u8),
    Claim(u32),
    Expire,
    Transfer(u8, u32),
    Collect(u32),
    CallOff,
}

// Carries out a command. A sale takes its marks `from` the caller; the other commands do not read them.
pub fn carry_out(
    house: &mut House,
    rows: &mut [u64; 3200],
    marks: &mut [u8; 16000],
    command: Command,
    from: &[u8],
) -> Result<Receipt, Refusal>
    requires { Reached (view house.old rows.old marks.old) }
    ensures { Carried house.old rows.old marks.old (meant command from.now) house.new rows.new marks.new (host_answer result) }
{
    match command {
        Command::Open(day) => open_day(house, day),
        Command::Sell(sale) => sell_ticket(house, rows, marks, sale, from),
        Command::Cancel(ticket) => cancel_ticket(house, rows, marks, ticket),
        Command::Ball(number) => enter_ball(house, rows, marks, number),
        Command::Claim(ticket) => claim_ticket(house, rows, marks, ticket),
        Command::Expire => expire_tickets(house, rows, marks),
        Command::Transfer(jackpot, cents) => transfer_cents(house, jackpot, cents),
        Command::Collect(ticket) => collect_ticket(house, rows, marks, ticket),
        Command::CallOff => call_off_game(house, rows, marks),
    }
}
