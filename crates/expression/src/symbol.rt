// What one expression word stands for.
ghost use Rattle.expression.specs.Symbols.{DecodesSymbol};

use thiserror::Error;

/// A symbol of an expression. A letter has its label, 0 to 15.
#[derive(Clone, Copy, Debug, PartialEq, Eq)]
pub enum Symbol {
    Letter(u32),
    Open,
    Close,
    Bar,
    Star,
    Plus,
    Maybe,
}

const LETTER: u32 = 0x1000_0000;

const LAST_LETTER: u32 = LETTER + query::LAST_LABEL;

const OPEN: u32 = 0x2000_0000;

const CLOSE: u32 = 0x3000_0000;

const BAR: u32 = 0x4000_0000;

const STAR: u32 = 0x5000_0000;

const PLUS: u32 = 0x6000_0000;

const MAYBE: u32 = 0x7000_0000;

/// A word that is not an expression word.
#[derive(Clone, Copy, Debug, PartialEq, Eq, Error)]
#[error("{0:#010x} is not an expression word")]
pub struct NotAWord(pub u32);

/// The symbol that the word stands for.
impl TryFrom<u32> for Symbol {
    type Error = NotAWord;

    ghost try_from_gives = { DecodesSymbol };

    #[tactic(auto, unfolding(crate::specs::Symbols::symbol_of))]
    fn try_from(word: u32) -> Result<Symbol, NotAWord> {
        match word {
            LETTER..=LAST_LETTER => Ok(Symbol::Letter(word - LETTER)),
            OPEN => Ok(Symbol::Open),
            CLOSE => Ok(Symbol::Close),
            BAR => Ok(Symbol::Bar),
            STAR => Ok(Symbol::Star),
            PLUS => Ok(Symbol::Plus),
            MAYBE => Ok(Symbol::Maybe),
            _ => Err(NotAWord(word)),
        }
    }
}
