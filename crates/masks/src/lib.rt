// Sets of states. A query has at most 32 states, so a set of them is one 32-bit number, whose bit k says whether state k is in the set.
#![tactic(auto, using(crate::proofs::Laws::mask_laws), unfolding(crate::specs::Members::member))]

ghost use Rattle.std.specs.Prelude.{◌≡◌, ℕ, ◌<◌, ◌||◌, true, false, Bool, OnSome};
ghost use Rattle.masks.specs.Members.{member, with_member, places, TakesFirst};

use std::marker::Model;
use std::ops::{BitOr, BitOrAssign};

/// A set has places for the states 0 to 31.
pub const PLACES: u32 = 32;

/// A set of states.
#[derive(Clone, Copy, Debug, Default, PartialEq, Eq)]
pub struct States {
    bits: u32,
}

// Contracts see the number.
impl Model for States {
    ghost Value = { ℕ };

    ghost view = { λ s. s.bits };

    ghost inverse = { λ bits. record { bits = bits } };
}

impl States {
    /// The set of no state.
    pub fn none() -> States
        ensures { result ≡ 0 }
    {
        States { bits: 0 }
    }

    /// Whether the state is in the set. No state from 32 on is.
    pub fn contains(self, state: u32) -> bool
        ensures answer { result ≡ member self state }
        ensures within { (j : ℕ) → member self j ≡ true → j < places }
    {
        state < PLACES && (self.bits >> state) % 2 == 1
    }

    /// The set with the state put in. A state from 32 on has no place: the set then stays as it was.
    pub fn with(self, state: u32) -> States
        ensures { (j : ℕ) → member result j ≡ with_member self state j }
    {
        if state >= PLACES {
            return self;
        }
        States {
            bits: self.bits | (1 << state),
        }
    }

    /// Takes the lowest state out of the set and answers it, or none where the set is empty.
    pub fn pop_first(&mut self) -> Option<u32>
        ensures takes { TakesFirst self.old self.new result }
        ensures less { OnSome result (self.new < self.old) }
    {
        if self.bits == 0 {
            return None;
        }
        let first = self.bits.trailing_zeros();
        self.bits &= self.bits - 1;
        Some(first)
    }
}

/// The set of the states whose bits are 1.
impl From<u32> for States {
    ghost from_gives = { λ bits s. s ≡ bits };

    fn from(bits: u32) -> States {
        States { bits }
    }
}

/// The number whose bit k says whether state k is in the set.
impl From<States> for u32 {
    ghost from_gives = { λ s bits. bits ≡ s };

    fn from(states: States) -> u32 {
        states.bits
    }
}

/// The states of either set.
impl BitOr for States {
    type Output = States;

    ghost bitor_gives = { λ a b r. (j : ℕ) → member r j ≡ (member a j || member b j) };

    fn bitor(self, other: States) -> States {
        States {
            bits: self.bits | other.bits,
        }
    }
}

impl BitOrAssign for States {
    ghost bitor_assign_gives = { λ a b r. (j : ℕ) → member r j ≡ (member a j || member b j) };

    fn bitor_assign(&mut self, other: States) {
        self.bits |= other.bits;
    }
}
