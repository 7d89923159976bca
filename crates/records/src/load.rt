// From a tape's bytes to its words, low byte first.
ghost use Rattle.records.specs.Loading.{Loads};

use crate::fault::TapeFault;

/// A tape has at most this many words.
pub const MOST_TAPE_WORDS: usize = 2048;

/// A tape has at most this many bytes, 8,192.
pub const MOST_TAPE_BYTES: usize = 4 * MOST_TAPE_WORDS;

/// Puts the whole words of the bytes at the front of the memory, as many as it has room for, and answers how many they are in all. One to
/// three bytes at the end make no word, and the memory after the words stays. Where the answer is above the memory's length, words were
/// left out.
///
/// Refused are more than 8,192 bytes; the memory then stays as it was.
pub fn load(bytes: &[u8], memory: &mut [u32]) -> Result<usize, TapeFault>
    ensures { Loads bytes.now memory.old memory.new result }
{
    if bytes.len() > MOST_TAPE_BYTES {
        return Err(TapeFault::TooLong);
    }
    // The count is answered and no slice: memory that is still lent has no value after the call, so no clause could say what of it stays.
    let (whole, _) = bytes.as_chunks::<4>();
    let fitting = &whole[..memory.len().min(whole.len())];
    // By index: tried with an `iter_mut` that is zipped, and the proof stayed open, since no contract says what is written through that.
    for (index, four) in fitting.iter().enumerate() {
        memory[index] = u32::from_le_bytes(*four);
    }
    Ok(whole.len())
}
