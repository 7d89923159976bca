// What is known of a part of an expression that has been read.
ghost use Rattle.std.specs.Prelude.{◌≡◌, ℕ, ◌&&◌, ◌||◌};
ghost use Rattle.masks.specs.Members.{member};
ghost use Rattle.expression.specs.Parts.{accepted, optional, Either, Then};

use masks::States;

/// Whether nothing will do for the part, and which of its letters may come first and last.
#[derive(Clone, Copy, Debug, PartialEq, Eq)]
pub struct Part {
    pub nullable: bool,
    pub first: States,
    pub last: States,
}

impl Part {
    // The states that accept where the part is the whole expression.
    pub(crate) fn accepting(self) -> States
        ensures { (s : ℕ) → member result s ≡ accepted self s }
    {
        if self.nullable {
            self.last.with(0)
        } else {
            self.last
        }
    }

    // One part or the other.
    pub(crate) fn or(self, other: Part) -> Part
        ensures { Either self other result }
    {
        Part {
            nullable: self.nullable || other.nullable,
            first: self.first | other.first,
            last: self.last | other.last,
        }
    }

    // One part, then the other.
    pub(crate) fn then(self, next: Part) -> Part
        ensures { Then self next result }
    {
        Part {
            nullable: self.nullable && next.nullable,
            first: joined_if(self.nullable, self.first, next.first),
            last: joined_if(next.nullable, next.last, self.last),
        }
    }

    // The part or nothing.
    pub(crate) fn or_nothing(self) -> Part
        ensures { result ≡ optional self }
    {
        Part {
            nullable: true,
            ..self
        }
    }
}

// The set, and where the test holds the other one with it.
fn joined_if(test: bool, set: States, more: States) -> States
    ensures { (t : ℕ) → member result t ≡ (member set t || (test && member more t)) }
{
    if test { set | more } else { set }
}
