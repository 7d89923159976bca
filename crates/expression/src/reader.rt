// Reading an expression by recursive descent. The words are gone over once, from the left; the machine grows with each letter.
ghost use Rattle.std.specs.Prelude.{◌≡◌, Some, Ok};
ghost use Rattle.expression.specs.declared.symbol.Symbol.TheVariants.{Letter, Open};
ghost use Rattle.expression.specs.Grammar.{Expression, Sequence, Piece, Atom};
ghost use Rattle.expression.specs.Parts.{Within};
ghost use Rattle.expression.specs.Machines.{letters_in};
ghost use Rattle.expression.specs.Reading.{MachineOf};
ghost use Rattle.expression.specs.Readers.{Peeked, Read, Repeated, Stopped, after_piece, after_sequence, after_expression};

use crate::fault::{Cause, Fault};
use crate::machine::{MOST_STATES, Machine};
use crate::part::Part;
use crate::symbol::Symbol;
use masks::States;

// A state for each letter, besides the start.
const MOST_LETTERS: usize = MOST_STATES - 1;

const MOST_OPEN: u32 = 16;

/// A place in the words, how many opens are not closed there, and the machine of the letters so far. The place is kept, and not the slice
/// of the words that are left, since a fault tells it.
#[derive(Debug, PartialEq, Eq, Drop)]
pub struct Reader<'a> {
    words: &'a [u32],
    place: usize,
    depth: u32,
    machine: Machine,
}

// The machine of an expression that is read whole.
pub(crate) fn machine_of(words: &[u32]) -> Result<Machine, Fault>
    ensures { MachineOf words.now result }
{
    let mut reader = Reader {
        words,
        place: 0,
        depth: 0,
        machine: Machine::empty(),
    };
    let whole = reader.expression()?;
    if reader.place < words.len() {
        // Only a close can come after an expression, and here nothing is open.
        return Err(reader.fault(Cause::NoPiece));
    }
    reader.machine.finish(whole);
    Ok(reader.machine)
}

impl<'a> Reader<'a> {
    // An expression: sequences parted by bars.
    #[cycle(expression_group_piece_sequence)]
    fn expression(&mut self) -> Result<Part, Fault>
        ensures read { Read Expression self.old self.new result }
        ensures next { Stopped after_expression self.new result }
    {
        let left = self.sequence()?;
        let Some(Symbol::Bar) = self.peek()? else {
            return Ok(left);
        };
        self.place += 1;
        let right = self.expression()?;
        Ok(left.or(right))
    }

    // A sequence: one or more pieces.
    #[cycle(expression_group_piece_sequence)]
    fn sequence(&mut self) -> Result<Part, Fault>
        ensures read { Read Sequence self.old self.new result }
        ensures next { Stopped after_sequence self.new result }
    {
        let front = self.piece()?;
        let Some(Symbol::Letter(_) | Symbol::Open) = self.peek()? else {
            return Ok(front);
        };
        let back = self.sequence()?;
        self.machine.link(front.last, back.first);
        Ok(front.then(back))
    }

    // A piece: a letter or a group, with its repeats.
    #[cycle(expression_group_piece_sequence)]
    fn piece(&mut self) -> Result<Part, Fault>
        ensures read { Read Piece self.old self.new result }
        ensures next { Stopped after_piece self.new result }
    {
        let part = match self.peek()? {
            Some(Symbol::Letter(label)) => self.letter(label)?,
            Some(Symbol::Open) => self.group()?,
            Some(_) => return Err(self.fault(Cause::NoPiece)),
            None => return Err(self.fault(Cause::Unfinished)),
        };
        self.repeats(part)
    }

    // An expression between open and close.
    #[cycle(expression_group_piece_sequence)]
    fn group(&mut self) -> Result<Part, Fault>
        requires { Peeked self.old (Ok (Some Open)) }
        ensures { Read Atom self.old self.new result }
    {
        if self.depth >= MOST_OPEN {
            return Err(self.fault(Cause::TooDeep));
        }
        self.depth += 1;
        self.place += 1;
        let inner = self.expression()?;
        let Some(Symbol::Close) = self.peek()? else {
            return Err(self.fault(Cause::Unfinished));
        };
        self.depth -= 1;
        self.place += 1;
        Ok(inner)
    }

    // A letter.
    fn letter(&mut self, label: u32) -> Result<Part, Fault>
        requires { Peeked self.old (Ok (Some (Letter label))) }
        ensures { Read Atom self.old self.new result }
    {
        if self.machine.letters() >= MOST_LETTERS {
            return Err(self.fault(Cause::TooManyLetters));
        }
        let state = self.machine.letter(label);
        self.place += 1;
        let own = States::none().with(state);
        Ok(Part {
            nullable: false,
            first: own,
            last: own,
        })
    }

    // The stars, pluses and maybes after a part.
    fn repeats(&mut self, part: Part) -> Result<Part, Fault>
        requires { Within 0 (letters_in self.old.machine) part }
        ensures read { Repeated part self.old self.new result }
        ensures next { Stopped after_piece self.new result }
    {
        let repeated = match self.peek()? {
            Some(Symbol::Star) => self.machine.star(part),
            Some(Symbol::Plus) => self.machine.plus(part),
            Some(Symbol::Maybe) => part.or_nothing(),
            _ => return Ok(part),
        };
        self.place += 1;
        self.repeats(repeated)
    }

    // The next symbol, or none at the end.
    fn peek(&self) -> Result<Option<Symbol>, Fault>
        ensures { Peeked self.now result }
    {
        let Some(&word) = self.words.get(self.place) else {
            return Ok(None);
        };
        let Ok(next) = Symbol::try_from(word) else {
            return Err(self.fault(Cause::NotAWord));
        };
        Ok(Some(next))
    }

    // The fault at the place reached.
    fn fault(&self, cause: Cause) -> Fault
        ensures { (result.cause ≡ cause) × (result.place ≡ self.now.place) }
    {
        Fault {
            cause,
            place: self.place,
        }
    }
}
