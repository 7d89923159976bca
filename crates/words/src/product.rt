// Words tried on products of machines.
use crate::yes_or_no;
use expression::fault::Fault;
use expression::machine::Machine;
use query::both::Both;
use query::{Query, accept};
use std::{array, fmt};
use thiserror::Error;

/// Why a word is not tried.
#[derive(Clone, Copy, Debug, PartialEq, Eq, Error)]
pub enum NotTried {
    /// The payload ends inside an expression, or before one.
    #[error("the expressions of a command are cut")]
    Cut,
    /// An expression is refused, the first that is.
    #[error("an expression is refused")]
    Expression(#[from] Fault),
}

/// What a product says of its size and of a word.
#[derive(Clone, Copy, Debug, PartialEq, Eq)]
pub struct Verdict {
    size: u32,
    accepted: bool,
}

impl fmt::Display for Verdict {
    fn fmt<W: fmt::Write>(&self, f: &mut fmt::Formatter<W>) -> fmt::Result {
        write!(f, "both {} {}", self.size, yes_or_no(self.accepted))
    }
}

// What is left of a command's words: expressions, each with its word count before it, and then the labels of a word. All the
// expressions are taken before one is read, so that a cut payload is told before a faulty expression.
#[derive(Debug, PartialEq, Eq, Drop)]
struct Payload<'a> {
    rest: &'a [u32],
}

impl<'a> Payload<'a> {
    // Takes the next expression.
    fn expression(&mut self) -> Result<&'a [u32], NotTried> {
        let (count, rest) = self.rest.split_first().ok_or(NotTried::Cut)?;
        let (expression, rest) = rest.split_at_checked(*count as usize).ok_or(NotTried::Cut)?;
        self.rest = rest;
        Ok(expression)
    }
}

/// Tries a word on the product of two machines.
pub(crate) fn of_two(words: &[u32]) -> Result<Verdict, NotTried> {
    let mut payload = Payload { rest: words };
    let [a, b]: [_; 2] = array::try_from_fn(|_| payload.expression())?;
    let both = pair(machine_of(a)?, machine_of(b)?);
    Ok(try_word(&both, payload.rest))
}

/// Tries a word on the product of the first two machines' product and the third.
pub(crate) fn of_two_and_one(words: &[u32]) -> Result<Verdict, NotTried> {
    of_three(words, |a, b, c| pair(pair(a, b), c))
}

/// Tries a word on the product of the first machine and the other two's product.
pub(crate) fn of_one_and_two(words: &[u32]) -> Result<Verdict, NotTried> {
    of_three(words, |a, b, c| pair(a, pair(b, c)))
}

// Tries a word on a product of three machines. It is no one function with `of_two`: tried, and the borrow checker does not cover an array
// of slices whose length is a parameter.
fn of_three<Q: Query + Drop, F: FnOnce(Machine, Machine, Machine) -> Q>(
    words: &[u32],
    product: F,
) -> Result<Verdict, NotTried>
    requires { F.IsAlwaysCallable product }
{
    let mut payload = Payload { rest: words };
    let [a, b, c]: [_; 3] = array::try_from_fn(|_| payload.expression())?;
    let all = product(machine_of(a)?, machine_of(b)?, machine_of(c)?);
    Ok(try_word(&all, payload.rest))
}

fn pair<A: Query, B: Query>(first: A, second: B) -> Both<A, B> {
    Both { first, second }
}

fn machine_of(words: &[u32]) -> Result<Machine, Fault> {
    let mut machine = Machine::empty();
    machine.read(words)?;
    Ok(machine)
}

fn try_word<Q: Query>(query: &Q, word: &[u32]) -> Verdict {
    Verdict {
        size: query.size(),
        accepted: accept::accepts(query, word),
    }
}
