// Why reading an expression is refused, and where.
ghost use Rattle.std.specs.Prelude.{◌≡◌};
ghost use Rattle.expression.specs.Faults.{cause_number};

use thiserror::Error;

/// Why an expression is refused.
#[derive(Clone, Copy, Debug, PartialEq, Eq, Error)]
pub enum Cause {
    /// There are no words, or more than 256.
    #[error("there are no words, or more than 256")]
    WordCount = 20,
    /// Not an expression word.
    #[error("not an expression word")]
    NotAWord = 21,
    /// A bar, close, star, plus or maybe where a piece must begin, or a close with nothing open.
    #[error("a letter or a group must begin here, or nothing is open")]
    NoPiece = 22,
    /// A letter after 31 others.
    #[error("a letter after 31 others")]
    TooManyLetters = 23,
    /// An open inside 16 unclosed ones.
    #[error("an open inside 16 unclosed ones")]
    TooDeep = 24,
    /// The words end where a piece must begin or while something is open.
    #[error("the expression ends too early")]
    Unfinished = 25,
}

impl Cause {
    /// The number by which the cause is told to users.
    pub fn number(self) -> u32
        ensures { result ≡ cause_number self }
    {
        self as u32
    }
}

/// A refusal: its cause, and the index of the faulty word (0 for a wrong count, the word count at the end).
#[derive(Clone, Copy, Debug, PartialEq, Eq, Error)]
#[error("word {place}: {cause}")]
pub struct Fault {
    pub cause: Cause,
    pub place: usize,
}
