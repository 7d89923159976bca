// How a tape's start is run: its expression is read, and a watch over it can be opened.
ghost use Rattle.records.specs.Starts.{Begins, ReadsStart};

use crate::fault::{RunFault, TapeFault};
use crate::record::Tape;
use expression::machine::Machine;
use watch::opening::Opening;

/// How many arrival records the program has.
pub const ARRIVALS: usize = 2048;

/// What a tape's start says, with its expression's machine, and the place of the first record after it.
#[derive(Debug, PartialEq, Eq, Drop)]
pub struct Begun {
    pub opening: Opening,
    pub machine: Machine,
    pub place: usize,
}

/// Runs the start of a tape.
///
/// Refused are, in this order: a start that is not whole or has a word that does not belong there; its expression; and
/// what opening a watch over 2,048 arrival records refuses.
pub fn begin(tape: &Tape<'_>) -> Result<Begun, RunFault>
    ensures { Begins tape.now.words.now result }
{
    let begun = read(tape)?;
    begun.opening.check(&begun.machine, ARRIVALS)?;
    Ok(begun)
}

// The start, with its expression read.
fn read(tape: &Tape<'_>) -> Result<Begun, TapeFault>
    ensures { ReadsStart tape.now.words.now result }
{
    let start = tape.start()?;
    let mut machine = Machine::empty();
    machine.read(start.expression)?;
    Ok(Begun {
        opening: start.opening,
        machine,
        place: start.expression.len() + 2,
    })
}
