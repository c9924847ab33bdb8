// Decoding: the command that bytes begin with.
ghost use Rattle.std.specs.Prelude.{◌≡◌, ℕ, ◌≤◌, length, take};
ghost use Rattle.roll.specs.Decode.{sale_in, feature_in, command_row};
ghost use Rattle.roll.specs.Orders.{operand_length, operand_bytes, command_by, decoded_at};

use crate::stop::Stop;
use commands::command::Command;
use numbers::bytes::read_number;
use sale::terms::Sale;

// A whole command with its length, its command byte included. A sale's marks stay in the roll.
#[derive(Clone, Copy)]
pub struct Order {
    pub command: Command,
    pub size: usize,
}

// A sale's operands up to the marks, however many bytes follow them, with a feature or without one.
fn sale_at(operands: &[u8], feature: Option<u32>) -> Sale
    requires { 8 ≤ length operands.now }
    ensures { (n : ℕ) → 8 ≤ n → result ≡ sale_in feature (take n operands.now) }
{
    // Each `as` here loses nothing: read_number's `fits` bounds a number by its width N. A return type cannot depend on N, and `try_from` would add an error
    // that cannot be.
    let stake = read_number::<4>(operands, 2) as u32;
    Sale {
        kind: operands[0],
        games: operands[1],
        stake,
        groups: operands[6],
        types: operands[7],
        feature,
    }
}

// The operands of Lucky Last: Sell's, and the feature stake behind them.
fn lucky_last_at(operands: &[u8]) -> Sale
    requires { 92 ≤ length operands.now }
    ensures { result ≡ sale_in (feature_in (take 92 operands.now)) (take 92 operands.now) }
{
    let stake = read_number::<4>(operands, 88) as u32;
    sale_at(operands, Some(stake))
}

// How many operand bytes follow a command byte, where it is known. The bytes 1 to 10 stand as numbers in two matches, here and in `command_at`: an enum of
// them would be a third match, from bytes to it, and the row of each byte in `command_rows`, to which both are proved to agree, names it already.
#[tactic(auto, unfolding(crate::specs::Decode::command_rows, crate::specs::Decode::row_among))]
fn operand_bytes(byte: u8) -> Option<usize>
    ensures { result ≡ operand_length (command_row byte) }
{
    match byte {
        1 => Some(2),
        2 => Some(88),
        3 => Some(4),
        4 => Some(1),
        5 => Some(4),
        6 => Some(0),
        7 => Some(5),
        8 => Some(92),
        9 => Some(4),
        10 => Some(0),
        _ => None,
    }
}

// The command of a command byte, whose operands the bytes behind it begin with. `decode` never gives it an unknown byte, since how long a command is has to be
// known before its operands are read; its last arm is what the table has for one.
#[tactic(auto, unfolding(crate::specs::Decode::command_rows, crate::specs::Decode::row_among))]
fn command_at(byte: u8, operands: &[u8]) -> Result<Command, Stop>
    requires { operand_bytes byte ≤ length operands.now }
    ensures { result ≡ command_by (command_row byte) operands.now }
{
    match byte {
        1 => Ok(Command::Open(read_number::<2>(operands, 0) as u16)),
        2 => Ok(Command::Sell(sale_at(operands, None))),
        3 => Ok(Command::Cancel(read_number::<4>(operands, 0) as u32)),
        4 => Ok(Command::Ball(operands[0])),
        5 => Ok(Command::Claim(read_number::<4>(operands, 0) as u32)),
        6 => Ok(Command::Expire),
        7 => Ok(Command::Transfer(operands[0], read_number::<4>(operands, 1) as u32)),
        8 => Ok(Command::Sell(lucky_last_at(operands))),
        9 => Ok(Command::Collect(read_number::<4>(operands, 0) as u32)),
        10 => Ok(Command::CallOff),
        _ => Err(Stop::UnknownByte),
    }
}

// What bytes begin with: a whole command, or why there is none.
pub(crate) fn decode(rest: &[u8]) -> Result<Order, Stop>
    ensures { result ≡ decoded_at rest.now }
{
    let Some((&byte, operands)) = rest.split_first() else {
        return Err(Stop::RollEnded);
    };
    let count = operand_bytes(byte).ok_or(Stop::UnknownByte)?;
    if operands.len() < count {
        return Err(Stop::ShortCommand);
    }
    let command = command_at(byte, operands)?;
    Ok(Order {
        command,
        size: count + 1,
    })
}
