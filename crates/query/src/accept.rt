// Whether a query accepts a word: the set of states that the word read so far can lead to.
ghost use Rattle.std.specs.Prelude.{◌≡◌, ℕ, ◌<◌, ◌↔◌, true, false, IsTrue};
ghost use Rattle.masks.specs.Members.{member};
ghost use Rattle.query.specs.Meaning.{most_states};
ghost use Rattle.query.specs.Words.{Accepts};

use crate::{MOST_STATES, Query};
use masks::States;

/// Whether the query accepts the word. A word with a label above 15 is not accepted.
pub fn accepts<Q: Query>(query: &Q, word: &[u32]) -> bool
    ensures { IsTrue result ↔ Accepts (Q.meaning query.now) word.now }
{
    let mut states = States::none().with(0);
    for label in word {
        states = after(query, states, *label);
    }
    any(states, |state| query.accepting(state))
}

// The states that a move on the label can lead to from a state of the set.
fn after<Q: Query>(query: &Q, from: States, label: u32) -> States
    ensures { (t : ℕ) → IsTrue (member result t) ↔ ((s : ℕ) × IsTrue (member from s) × IsTrue ((Q.meaning query.now).moves s label t)) }
{
    all_where(|next| any(from, |state| query.moves(state, label, next)))
}

// The states that pass the test.
fn all_where<F: Fn(u32) -> bool>(test: F) -> States
    requires { F.IsAlwaysCallable test }
    ensures inside { (j : ℕ) → member result j ≡ true → (j < most_states) × F.post test j true }
    ensures outside { (j : ℕ) → member result j ≡ false → j < most_states → F.post test j false }
{
    let mut states = States::none();
    // A loop: tried as a filter and a fold, where both clauses stayed open.
    for state in 0..MOST_STATES {
        if test(state) {
            states = states.with(state);
        }
    }
    states
}

// Whether some state of the set passes the test.
fn any<F: Fn(u32) -> bool>(states: States, test: F) -> bool
    requires { F.IsAlwaysCallable test }
    ensures yes { result ≡ true → (j : ℕ) × (member states j ≡ true) × F.post test j true }
    ensures no { result ≡ false → (j : ℕ) → member states j ≡ true → F.post test j false }
{
    let mut rest = states;
    while let Some(state) = rest.pop_first() {
        if test(state) {
            return true;
        }
    }
    false
}
