// Why a call on a watch is refused.
ghost use Rattle.std.specs.Prelude.{◌≡◌};
ghost use Rattle.watch.specs.Refusals.{refusal_number};

use thiserror::Error;

/// Why a call is refused.
#[derive(Clone, Copy, Debug, PartialEq, Eq, Error)]
pub enum Refusal {
    /// The number of points is 0 or above 64.
    #[error("the number of points is 0 or above 64")]
    Points = 3,
    /// The window is 0 or above the last clock.
    #[error("the window is 0 or above the last clock")]
    Window = 4,
    /// The query has too many states.
    #[error("the query has too many states")]
    States = 5,
    /// The arrival memory has fewer than n × n × size records.
    #[error("the arrival memory has too few records")]
    Arrivals = 6,
}

impl Refusal {
    /// The number by which the refusal is told to users.
    pub fn number(self) -> u32
        ensures { result ≡ refusal_number self }
    {
        self as u32
    }
}
