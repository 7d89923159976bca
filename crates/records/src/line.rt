// The lines that are printed of a tape's run: a word, then numbers in decimal with a space before each, and byte 10 last.
ghost use Rattle.std.specs.Prelude.{◌≡◌, ◌≤◌, ◌++◌, length, Some};
ghost use Rattle.records.specs.Lines.{line_bytes, fields, Writes, line_refusal_number};

use crate::fault::RunFault;
use arrayvec::ArrayString;
use itoa::Buffer;
use std::fmt;
use thiserror::Error;

// No line has more bytes: a word of at most five, three numbers of at most 20 digits with a space before each, and the end.
const LONGEST: usize = 69;

/// A line of the output.
#[derive(Clone, Copy, Debug, PartialEq, Eq)]
pub enum Line {
    /// The watch is open: its number of points, and the size of its query.
    Start {
        n: u32,
        size: u32,
    },
    /// The run ends here.
    Fault(RunFault),
    /// The tape's end: how many records had a line, and how many pairs were announced and withdrawn.
    End {
        records: u64,
        announced: u64,
        withdrawn: u64,
    },
}

/// Why a line is not written.
#[derive(Clone, Copy, Debug, PartialEq, Eq, Error)]
pub enum LineRefusal {
    /// The memory is shorter than the line.
    #[error("the memory is shorter than the line")]
    TooShort = 33,
}

impl LineRefusal {
    /// The number by which the refusal is told to users.
    pub fn number(self) -> u32
        ensures { result ≡ line_refusal_number self }
    {
        self as u32
    }
}

/// The line's bytes, its end included.
impl fmt::Display for Line {
    ghost output = { λ l. Some (line_bytes l) };

    fn fmt<W: fmt::Write>(&self, f: &mut fmt::Formatter<W>) -> fmt::Result {
        f.write_str(self.text().as_str())
    }
}

impl Line {
    /// Writes the line's bytes at the front of the memory, and answers how many there are. The memory after them stays.
    ///
    /// Refused is a memory that is too short; it then stays as it was.
    pub fn write(self, memory: &mut [u8]) -> Result<usize, LineRefusal>
        ensures { Writes (line_bytes self) memory.old memory.new result }
    {
        // The memory is the caller's and the count is answered, as in `load`.
        let text = self.text();
        let (front, _) = memory
            .split_at_mut_checked(text.len())
            .ok_or(LineRefusal::TooShort)?;
        front.copy_from_slice(text.as_bytes());
        Ok(text.len())
    }

    // The line's bytes. No `write!` puts them together, since its contract never says that it succeeds.
    fn text(self) -> ArrayString<LONGEST>
        ensures { result.bytes ≡ line_bytes self }
    {
        match self {
            Line::Start { n, size } => text_of("start", &[u64::from(n), u64::from(size)]),
            Line::Fault(fault) => {
                let (layer, number, word) = (fault.layer(), fault.number(), fault.word());
                text_of("fault", &[u64::from(layer), u64::from(number), word as u64])
            }
            Line::End {
                records,
                announced,
                withdrawn,
            } => text_of("end", &[records, announced, withdrawn]),
        }
    }
}

// A line of a word and at most three numbers.
fn text_of(head: &str, numbers: &[u64]) -> ArrayString<LONGEST>
    requires head { length head.now ≤ 5 }
    requires numbers { length numbers.now ≤ 3 }
    ensures { result.bytes ≡ head.now ++ fields numbers.now }
{
    let mut text = ArrayString::new();
    text.push_str(head);
    for number in numbers {
        text.push(' ');
        text.push_str(Buffer::new().format(*number));
    }
    text.push('\n');
    text
}
