// The machine of an expression: the position automaton. State t stands for the t-th letter from the left, and state 0 for the start,
// so every move into a state bears the label of that state's letter.
pub mod ask;
mod build;
pub mod read;

ghost use Rattle.std.specs.Prelude.{◌≡◌, ℕ, ◌<◌, ◌≤◌, true, length, slice_index};
ghost use Rattle.query.specs.Meaning.{most_states, last_label};
ghost use Rattle.masks.specs.Members.{member};
ghost use Rattle.expression.specs.Rows.{labels_in, rows_in};

use arrayvec::ArrayVec;
use masks::States;

/// How many states a machine can have, the start among them.
pub const MOST_STATES: usize = query::MOST_STATES as usize;

/// What a machine knows of one of its states: the label of its letter, and the states that may come next. The start has no letter. It has
/// label 0, which no call asks, since no move leads into it.
#[derive(Clone, Copy, Debug, Default, PartialEq, Eq)]
pub struct Position {
    pub label: u32,
    pub next: States,
}

/// A machine begins empty and is filled by an accepted reading.
#[derive(Debug, PartialEq, Eq, Drop)]
pub struct Machine {
    accepting: States,
    // the start, and then one for each letter
    positions: ArrayVec<Position, MOST_STATES>,
    ghost start: { 1 ≤ length positions.items },
    ghost few: { length positions.items ≤ most_states },
    // no state is named that is not there, and no move leads into the start
    ghost ends: { (s : ℕ) → member accepting s ≡ true → s < length positions.items },
    ghost into: { (s t : ℕ) → member (slice_index (rows_in positions.items) s) t ≡ true → 1 ≤ t },
    ghost within: { (s t : ℕ) → member (slice_index (rows_in positions.items) s) t ≡ true → t < length positions.items },
    ghost labelled: { (t : ℕ) → slice_index (labels_in positions.items) t ≤ last_label },
}
