// Two queries as one, which goes over a word in both at once and so accepts the words that both accept.
ghost use Rattle.std.specs.Prelude.{◌≡◌, ◌↔◌, IsTrue};
ghost use Rattle.query.specs.Words.{Accepts};
ghost use Rattle.query.specs.Both.{first_state, second_state, is_state, both_meaning, both_lawful, meaning_of, AcceptsBoth};

use crate::{MOST_STATES, Query, TOO_MANY_STATES, accept};

/// A query of two: each of its states stands for a state of the first and a state of the second.
#[derive(Debug, PartialEq, Eq, Drop)]
pub struct Both<A, B> {
    pub first: A,
    pub second: B,
}

impl<A: Query, B: Query> Both<A, B> {
    /// Whether this query of two accepts the word: exactly where both accept it; or never, where the two sizes have a product above 32.
    pub fn accepts(&self, word: &[u32]) -> bool
        ensures answer { IsTrue result ↔ Accepts (meaning_of A.meaning B.meaning self.now) word.now }
        ensures law { AcceptsBoth (A.meaning self.now.first) (B.meaning self.now.second) (meaning_of A.meaning B.meaning self.now) }
    {
        accept::accepts(self, word)
    }

    // Whether the number is a state. Where there would be too many states, none is.
    fn is_state(&self, state: u32) -> bool
        ensures { result ≡ is_state (A.meaning self.now.first) (B.meaning self.now.second) state }
    {
        let size = self.size();
        size <= MOST_STATES && state < size
    }

    // The two states that the state stands for.
    fn parts(&self, state: u32) -> (u32, u32)
        ensures first { result.0 ≡ first_state (B.meaning self.now.second) state }
        ensures second { result.1 ≡ second_state (B.meaning self.now.second) state }
    {
        let count = self.second.size();
        (state / count, state % count)
    }
}

impl<A: Query, B: Query> Query for Both<A, B> {
    ghost meaning = { meaning_of A.meaning B.meaning };

    ghost lawful = { λ q. both_lawful (A.meaning q.first) (B.meaning q.second) (A.lawful q.first) (B.lawful q.second) };

    fn size(&self) -> u32 {
        let pairs = self.first.size() * self.second.size();
        if pairs <= MOST_STATES {
            pairs
        } else {
            TOO_MANY_STATES
        }
    }

    fn accepting(&self, state: u32) -> bool {
        let (a, b) = self.parts(state);
        self.is_state(state) && self.first.accepting(a) && self.second.accepting(b)
    }

    fn moves(&self, state: u32, label: u32, next: u32) -> bool {
        let (a, b) = self.parts(state);
        let (c, d) = self.parts(next);
        self.is_state(state)
            && self.is_state(next)
            && self.first.moves(a, label, c)
            && self.second.moves(b, label, d)
    }
}
