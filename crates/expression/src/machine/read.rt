// Filling a machine from an expression.
ghost use Rattle.expression.specs.Reading.{ReadingAnswers};

use crate::fault::{Cause, Fault};
use crate::machine::Machine;
use crate::reader;

const MOST_EXPRESSION_WORDS: usize = 256;

impl Machine {
    /// Reads an expression and fills the machine anew. A refusal leaves the machine as it was.
    ///
    /// Refused are no words or more than 256 at place 0, and then the first fault from the left, by its cause and place.
    pub fn read(&mut self, words: &[u32]) -> Result<(), Fault>
        ensures { ReadingAnswers words.now self.old self.new result }
    {
        if words.is_empty() || words.len() > MOST_EXPRESSION_WORDS {
            return Err(Fault {
                cause: Cause::WordCount,
                place: 0,
            });
        }
        *self = reader::machine_of(words)?;
        Ok(())
    }
}
