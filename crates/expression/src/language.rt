// Membership in an expression's language, and some worked cases of it.
ghost use Rattle.expression.specs.Cases.{ExpressionCases};
ghost use Rattle.expression.specs.Reading.{Membership};

use crate::fault::Fault;
use crate::machine::Machine;
use query::accept;

/// Whether the word of labels is in the language of the expression. Refused is what reading the expression refuses.
pub fn contains(expression: &[u32], word: &[u32]) -> Result<bool, Fault>
    ensures { Membership expression.now word.now result }
{
    let mut machine = Machine::empty();
    machine.read(expression)?;
    Ok(accept::accepts(&machine, word))
}

/// Carries the theorem that the definitions answer the worked cases as they should.
pub fn cases()
    ensures { ExpressionCases }
{}
