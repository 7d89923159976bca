// The commands and their numbers.
use thiserror::Error;

/// What a command asks.
#[derive(Clone, Copy, Debug, PartialEq, Eq)]
pub enum Command {
    /// To read an expression into the machine.
    Read,
    /// Whether the machine accepts a word.
    Accepts,
    /// Whether the product of two machines accepts a word.
    Both,
    /// The same of two machines' product and a third machine.
    BothAndOne,
    /// The same of a machine and two others' product.
    OneAndBoth,
}

/// A number that is no command's.
#[derive(Clone, Copy, Debug, PartialEq, Eq, Error)]
#[error("a command is 1 to 5")]
pub struct UnknownCommand;

impl TryFrom<u32> for Command {
    type Error = UnknownCommand;

    fn try_from(number: u32) -> Result<Self, UnknownCommand> {
        match number {
            1 => Ok(Command::Read),
            2 => Ok(Command::Accepts),
            3 => Ok(Command::Both),
            4 => Ok(Command::BothAndOne),
            5 => Ok(Command::OneAndBoth),
            _ => Err(UnknownCommand),
        }
    }
}
