// tape: reads a tape from standard input and prints what comes of it, line by line.
#![tactic(auto)]

ghost use Rattle.std.specs.Prelude.{◌≤◌, length, IfOk};
ghost use Rattle.records.specs.Loading.{most_tape_words};

use anyhow::bail;
use query::Query;
use records::fault::RunFault;
use records::line::Line;
use records::load::{MOST_TAPE_BYTES, MOST_TAPE_WORDS};
use records::record::Tape;
use records::start::Begun;
use records::{load, start};
use std::io::Read;

/// One byte more than a tape may have, so that a longer one is seen.
const INPUT: usize = MOST_TAPE_BYTES + 1;

fn main(rt: HostRuntime) -> anyhow::Result<()> {
    run(&rt)
}

fn run(rt: &HostRuntime) -> anyhow::Result<()> {
    let mut input = [0; INPUT];
    let count = fill(rt, &mut input)?;
    let mut words = [0; MOST_TAPE_WORDS];
    match open(&input[..count], &mut words) {
        Ok((tape, begun)) => follow(rt, &tape, &begun),
        Err(fault) => print(rt, Line::Fault(fault)),
    }
}

// Reads until the input ends or the buffer is full, and answers how much there is. No heap: a library call that reads to the end needs a
// vector, so a tape could be refused for want of memory, and no clause would say how much is read.
fn fill(rt: &HostRuntime, buffer: &mut [u8]) -> anyhow::Result<usize>
    ensures { IfOk result (λ count. count ≤ length buffer.old) }
{
    let mut input = rt.stdin();
    let mut count = 0;
    for _ in 0..INPUT {
        let more = input.read(&mut buffer[count..])?;
        if more == 0 {
            break;
        }
        count += more;
    }
    Ok(count)
}

// The tape in the bytes, and everything up to its first record.
fn open<'a>(
    bytes: &[u8],
    memory: &'a mut [u32; MOST_TAPE_WORDS],
) -> Result<(Tape<'a>, Begun), RunFault>
    ensures { IfOk result (λ opened. length opened.0.words.now ≤ most_tape_words) }
{
    let whole = load::load(bytes, memory)?;
    let tape = Tape {
        words: &memory[..whole],
        cut: bytes.len() % 4 > 0,
    };
    let begun = start::begin(&tape)?;
    Ok((tape, begun))
}

// What comes after the start. Records are not run yet.
fn follow(rt: &HostRuntime, tape: &Tape, begun: &Begun) -> anyhow::Result<()> {
    print(
        rt,
        Line::Start {
            n: begun.opening.n,
            size: begun.machine.size(),
        },
    )?;
    let last = match tape.next(begun.place) {
        Ok(Some(_)) => bail!("the records of a tape are not run yet"),
        Ok(None) => Line::End {
            records: 0,
            announced: 0,
            withdrawn: 0,
        },
        Err(fault) => Line::Fault(fault.into()),
    };
    print(rt, last)
}

fn print(rt: &HostRuntime, line: Line) -> anyhow::Result<()> {
    print!(rt; "{line}")?;
    Ok(())
}
