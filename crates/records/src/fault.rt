// What stops a tape. The lower layer's fault is whole inside the upper one.
ghost use Rattle.std.specs.Prelude.{◌≡◌};
ghost use Rattle.records.specs.declared.fault.TapeFault.TheVariants.{Expression};
ghost use Rattle.records.specs.declared.fault.RunFault.TheVariants.{Tape, Watch};
ghost use Rattle.records.specs.Faults.{tape_number, tape_word, layer_of_fault, number_of_fault, word_of_fault};

use crate::load::MOST_TAPE_WORDS;
use expression::fault::Fault;
use thiserror::Error;
use watch::refusal::Refusal;

/// Why a tape can't be read on.
#[derive(Clone, Copy, Debug, PartialEq, Eq, Error)]
pub enum TapeFault {
    /// The tape ends inside a record; the word is the count of whole words.
    #[error("the tape ends inside a record, after {word} words")]
    Short { word: usize },
    /// A word that does not belong there.
    #[error("word {word} does not belong there")]
    Stray { word: usize },
    /// The tape has more than 8,192 bytes.
    #[error("the tape has more than 8,192 bytes")]
    TooLong,
    /// The start's expression is refused.
    #[error("the expression is refused at {0}")]
    Expression(Fault),
}

// Each `From` is written by hand, and not derived with the errors, since clauses need to know what it gives.
impl From<Fault> for TapeFault {
    ghost from_gives = { λ f r. r ≡ Expression f };

    fn from(fault: Fault) -> TapeFault {
        TapeFault::Expression(fault)
    }
}

impl TapeFault {
    /// The number by which the fault is told to users.
    pub fn number(self) -> u32
        ensures { result ≡ tape_number self }
    {
        match self {
            TapeFault::Short { .. } => 30,
            TapeFault::Stray { .. } => 31,
            TapeFault::TooLong => 32,
            TapeFault::Expression(fault) => fault.cause.number(),
        }
    }

    /// The word of the tape at which the fault is. The expression begins at word 2.
    pub fn word(self) -> usize
        ensures { result ≡ tape_word self }
    {
        match self {
            TapeFault::Short { word } | TapeFault::Stray { word } => word,
            TapeFault::TooLong => MOST_TAPE_WORDS,
            TapeFault::Expression(fault) => fault.place.saturating_add(2),
        }
    }
}

/// Why the run of a tape ends before the tape does.
#[derive(Clone, Copy, Debug, PartialEq, Eq, Error)]
pub enum RunFault {
    /// The tape can't be read on.
    #[error("{0}")]
    Tape(TapeFault),
    /// The watch can't be opened.
    #[error("the watch can't be opened: {0}")]
    Watch(Refusal),
}

impl From<TapeFault> for RunFault {
    ghost from_gives = { λ f r. r ≡ Tape f };

    fn from(fault: TapeFault) -> RunFault {
        RunFault::Tape(fault)
    }
}

impl From<Refusal> for RunFault {
    ghost from_gives = { λ f r. r ≡ Watch f };

    fn from(refusal: Refusal) -> RunFault {
        RunFault::Watch(refusal)
    }
}

impl RunFault {
    /// The layer in which the fault arose: 1 expression, 2 tape, 3 watch.
    pub fn layer(self) -> u32
        ensures { result ≡ layer_of_fault self }
    {
        match self {
            RunFault::Tape(TapeFault::Expression(_)) => 1,
            RunFault::Tape(_) => 2,
            RunFault::Watch(_) => 3,
        }
    }

    /// The number by which the fault is told to users.
    pub fn number(self) -> u32
        ensures { result ≡ number_of_fault self }
    {
        match self {
            RunFault::Tape(fault) => fault.number(),
            RunFault::Watch(refusal) => refusal.number(),
        }
    }

    /// The word of the tape at which the fault is. An opening is refused at word 0.
    pub fn word(self) -> usize
        ensures { result ≡ word_of_fault self }
    {
        match self {
            RunFault::Tape(fault) => fault.word(),
            RunFault::Watch(_) => 0,
        }
    }
}
