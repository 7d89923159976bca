// Queries: which sequences of links are wanted, as a machine that goes over a word of labels.
#![tactic(auto)]

pub mod accept;
pub mod both;

ghost use Rattle.std.specs.Prelude.{◌≡◌};
ghost use Rattle.query.specs.Meaning.{Meaning, Lawful};

/// A query has at most this many states.
pub const MOST_STATES: u32 = masks::PLACES;

/// The size by which a query says that it would have more.
pub const TOO_MANY_STATES: u32 = MOST_STATES + 1;

/// A label is 0 to 15.
pub const LAST_LABEL: u32 = 15;

/// A query answers three questions about its meaning, with any values, and never refuses.
/// Its answers are those of its meaning, and the meaning keeps the limits of every query.
pub trait Query {
    // the size, accepting states and moves
    ghost meaning: { Self → Meaning };

    /// How many states there are, 1 to 32; or 33 for too many. A number, since it is printed and asked as one, 33 included.
    fn size(&self) -> u32
        ensures { result ≡ (meaning self.now).size };

    /// Whether the state accepts. No state at or above the size does.
    fn accepting(&self, state: u32) -> bool
        ensures { result ≡ (meaning self.now).accepting state };

    /// Whether there is such a move. There is none at a state at or above the size or on a label above 15.
    fn moves(&self, state: u32, label: u32, next: u32) -> bool
        ensures { result ≡ (meaning self.now).moves state label next };

    // each implementation owes that its meaning keeps the limits
    ghost lawful: { (q : Self) → Lawful (meaning q) };
}

/// A query that is lent is one too.
impl<Q: Query> Query for &Q {
    ghost meaning = { λ q. Q.meaning q.now };

    fn size(&self) -> u32 {
        (**self).size()
    }

    fn accepting(&self, state: u32) -> bool {
        (**self).accepting(state)
    }

    fn moves(&self, state: u32, label: u32, next: u32) -> bool {
        (**self).moves(state, label, next)
    }

    ghost lawful = { λ q. Q.lawful q.now };
}
