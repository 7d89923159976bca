// How a machine is built while its expression is read.
ghost use Rattle.std.specs.Prelude.{◌≡◌, ℕ, ◌+◌, ◌<◌, ◌≤◌, true, ◌&&◌, ◌||◌, [], ◌∷◌, ◌++◌, length, slice_index};
ghost use Rattle.expression.specs.Scan.{most_letters};
ghost use Rattle.query.specs.Meaning.{most_states, last_label};
ghost use Rattle.masks.specs.Members.{member};
ghost use Rattle.expression.specs.Machines.{Empty, letters_in};
ghost use Rattle.expression.specs.Rows.{labels_in, rows_in};
ghost use Rattle.expression.specs.Parts.{optional, Within};
ghost use Rattle.expression.specs.Built.{Joins, Finished};

use crate::machine::{Machine, Position};
use crate::part::Part;
use arrayvec::ArrayVec;
use masks::States;

impl Machine {
    /// The machine of one state that accepts nothing.
    pub fn empty() -> Machine
        ensures { Empty result }
    {
        let mut positions = ArrayVec::new();
        positions.push(Position {
            label: 0,
            next: States::none(),
        });
        Machine {
            accepting: States::none(),
            positions,
        }
    }

    // How many letters came so far.
    pub(crate) fn letters(&self) -> usize
        ensures { result ≡ letters_in self.now }
    {
        self.positions.len() - 1
    }

    // One letter more, and its state.
    pub(crate) fn letter(&mut self, label: u32) -> u32
        requires room { letters_in self.old < most_letters }
        requires label { label ≤ last_label }
        ensures value { result ≡ letters_in self.old + 1 }
        ensures labels { labels_in self.new.positions.items ≡ labels_in self.old.positions.items ++ label ∷ [] }
        ensures rows { rows_in self.new.positions.items ≡ rows_in self.old.positions.items ++ 0 ∷ [] }
    {
        let state = self.positions.len() as u32;
        self.positions.push(Position {
            label,
            next: States::none(),
        });
        state
    }

    // Moves from each state of one set to each of the other.
    pub(crate) fn link(&mut self, from: States, to: States)
        requires from { (s : ℕ) → member from s ≡ true → s ≤ letters_in self.old }
        requires to { (t : ℕ) → member to t ≡ true → (1 ≤ t) × (t ≤ letters_in self.old) }
        ensures { Joins self.old self.new from to }
    {
        link_all(self.positions.as_mut_slice(), from, to);
    }

    // The part again and again, one or more times. That its letters are the machine's is a fact about the two together, which neither type's
    // own law can say; so each call that needs it asks it.
    pub(crate) fn plus(&mut self, part: Part) -> Part
        requires { Within 0 (letters_in self.old) part }
        ensures value { result ≡ part }
        ensures links { Joins self.old self.new part.last part.first }
    {
        self.link(part.last, part.first);
        part
    }

    // The part any number of times.
    pub(crate) fn star(&mut self, part: Part) -> Part
        requires { Within 0 (letters_in self.old) part }
        ensures value { result ≡ optional part }
        ensures links { Joins self.old self.new part.last part.first }
    {
        self.plus(part).or_nothing()
    }

    // The whole expression is read: its first letters follow the start, and its last ones accept, with the start where nothing will do.
    pub(crate) fn finish(&mut self, whole: Part)
        requires { Within 0 (letters_in self.old) whole }
        ensures { Finished self.old self.new whole }
    {
        self.positions[0].next = whole.first;
        self.accepting = whole.accepting();
    }
}

// Puts the states of `to` after each state of `from`.
fn link_all(positions: &mut [Position], from: States, to: States)
    requires few { length positions.old ≤ most_states }
    requires within { (s : ℕ) → member from s ≡ true → s < length positions.old }
    ensures places { length positions.new ≡ length positions.old }
    ensures labels { labels_in positions.new ≡ labels_in positions.old }
    ensures rows { (s t : ℕ) → member (slice_index (rows_in positions.new) s) t ≡ (member (slice_index (rows_in positions.old) s) t || (member from s && member to t)) }
{
    for (state, position) in positions.iter_mut().enumerate() {
        if from.contains(state as u32) {
            position.next |= to;
        }
    }
}
