// The records of a tape. The first is the start, with the expression; each further record is one word.
ghost use Rattle.std.specs.Prelude.{◌≡◌, ◌/◌, ◌%◌, length};
ghost use Rattle.records.specs.declared.fault.TapeFault.TheVariants.{Short};
ghost use Rattle.records.specs.declared.record.Record.TheVariants.{Start as start_record};
ghost use Rattle.records.specs.Records.{DecodesStart, DecodesNext, DecodesRecord};

use crate::fault::TapeFault;
use query::LAST_LABEL;
use thiserror::Error;
use watch::opening::Opening;
use watch::triple::Triple;

/// What a tape's start says: what the watch is opened with, and the expression's words, a part of the tape.
#[derive(Clone, Copy, Debug, PartialEq, Eq)]
pub struct Start<'a> {
    pub opening: Opening,
    pub expression: &'a [u32],
}

/// A record. The start borrows the expression's words from the tape; the others hold numbers.
#[derive(Clone, Copy, Debug, PartialEq, Eq)]
pub enum Record<'a> {
    Start(Start<'a>),
    /// The clock's new time, in milliseconds.
    Advance { clock: u32 },
    Add(Triple),
    Drop(Triple),
}

// A start is a record too, the first of a tape's.
impl<'a> From<Start<'a>> for Record<'a> {
    ghost from_gives = { λ s r. r ≡ start_record s };

    fn from(start: Start<'a>) -> Record<'a> {
        Record::Start(start)
    }
}

/// The whole words of a tape, and whether bytes follow the last of them.
#[derive(Clone, Copy, Debug, PartialEq, Eq)]
pub struct Tape<'a> {
    pub words: &'a [u32],
    pub cut: bool,
}

// The kinds of words, in the top four bits.
const START: u32 = 0x8;

const WINDOW: u32 = 0x9;

const ADVANCE: u32 = 0xA;

const ADD: u32 = 0xB;

const DROP: u32 = 0xC;

const KIND_BITS: u32 = 28;

// The count of an expression's words has nine bits.
const MOST_COUNT: u32 = 511;

impl<'a> Tape<'a> {
    /// The tape's start.
    ///
    /// Refused, from the left, are a word that does not belong there, and a tape that ends inside the start, at the count of its words.
    pub fn start(&self) -> Result<Start<'a>, TapeFault>
        ensures { DecodesStart self.now.words.now result }
    {
        let (first, rest) = self.words.split_first().ok_or(self.short())?;
        let (kind, low) = split(*first);
        let (n, count) = (low % 256, low / 256);
        if kind != START || count > MOST_COUNT {
            return Err(TapeFault::Stray { word: 0 });
        }
        let (second, rest) = rest.split_first().ok_or(self.short())?;
        let (kind, window) = split(*second);
        if kind != WINDOW {
            return Err(TapeFault::Stray { word: 1 });
        }
        let expression = rest.get(..count as usize).ok_or(self.short())?;
        Ok(Start {
            opening: Opening { n, window },
            expression,
        })
    }

    /// The record at a place after the start, or none at the end of the tape.
    ///
    /// Refused are a word that does not belong there, and a tape that ends inside a record, at the count of its words.
    pub fn next(&self, place: usize) -> Result<Option<Record<'a>>, TapeFault>
        ensures { DecodesNext self.now.words.now self.now.cut place result }
    {
        match self.words.get(place) {
            Some(word) => Record::try_from(*word)
                .map(Some)
                .map_err(|_| TapeFault::Stray { word: place }),
            None if self.cut => Err(self.short()),
            None => Ok(None),
        }
    }

    // The tape ends inside a record.
    fn short(&self) -> TapeFault
        ensures { result ≡ Short (length self.now.words.now) }
    {
        TapeFault::Short {
            word: self.words.len(),
        }
    }
}

// A word's kind, and the number in its other 28 bits.
fn split(word: u32) -> (u32, u32)
    ensures kind { result.0 ≡ word / 0x10000000 }
    ensures low { result.1 ≡ word % 0x10000000 }
{
    (word >> KIND_BITS, word % (1 << KIND_BITS))
}

/// A word that stands for no record after the start.
#[derive(Clone, Copy, Debug, PartialEq, Eq, Error)]
#[error("no record after the start has the word {0:#010x}")]
pub struct NotARecord(pub u32);

/// The record after the start that one word stands for.
impl TryFrom<u32> for Record<'static> {
    type Error = NotARecord;

    ghost try_from_gives = { DecodesRecord };

    fn try_from(word: u32) -> Result<Record<'static>, NotARecord> {
        let (kind, low) = split(word);
        let link = Triple {
            from: low / 256 % 256,
            to: low % 256,
            label: low / 65_536,
        };
        match kind {
            ADVANCE => Ok(Record::Advance { clock: low }),
            ADD if link.label <= LAST_LABEL => Ok(Record::Add(link)),
            DROP if link.label <= LAST_LABEL => Ok(Record::Drop(link)),
            _ => Err(NotARecord(word)),
        }
    }
}
