// words: tries words on the machines of expressions and on products of them. Standard input is a stream of 32-bit words, low byte
// first, each command a number, a count and that many words: 1 reads an expression into the machine, 2 asks whether the machine
// accepts a word, and 3 to 5 ask it of a product of machines of their own.
#![tactic(auto)]

ghost use Rattle.std.specs.Prelude.{◌≡◌, ◌/◌, length, IfOk, vec_len};

mod command;
mod product;

use anyhow::Context;
use command::Command;
use expression::fault::Fault;
use expression::machine::Machine;
use product::{NotTried, Verdict};
use query::{Query, accept};
use std::alloc::{AllocError, Global};
use std::io::{Read, Write};

fn main(rt: HostRuntime) -> anyhow::Result<()> {
    let mut bytes = Vec::new(rt.alloc());
    rt.stdin().read_to_end(&mut bytes)?;
    let words = words_of(rt.alloc(), bytes.as_slice())?;
    let answers = answer_all(rt.alloc(), words.as_slice())?;
    rt.stdout().write_all(answers.as_bytes())?;
    Ok(())
}

// The whole words of the bytes.
fn words_of(alloc: Global, bytes: &[u8]) -> Result<Vec<u32>, AllocError>
    ensures { IfOk result (λ words. vec_len words ≡ length bytes.now / 4) }
{
    let (whole, _) = bytes.as_chunks::<4>();
    whole
        .iter()
        .map(|four| u32::from_le_bytes(*four))
        .collect(alloc)
}

// A line for each command.
fn answer_all(alloc: Global, words: &[u32]) -> anyhow::Result<String> {
    let mut machine = Machine::empty();
    let mut answers = String::new(alloc);
    let mut rest = words;
    while let [number, count, after @ ..] = rest {
        let (payload, after) = after
            .split_at_checked(*count as usize)
            .context("the last command is cut")?;
        let command = Command::try_from(*number)?;
        answer(&mut machine, command, payload, &mut answers)?;
        rest = after;
    }
    Ok(answers)
}

fn answer(
    machine: &mut Machine,
    command: Command,
    payload: &[u32],
    answers: &mut String,
) -> anyhow::Result<()> {
    match command {
        Command::Read => read(machine, payload, answers),
        Command::Accepts => {
            let answer = yes_or_no(accept::accepts(machine, payload));
            Ok(writeln!(answers, "{answer}")?)
        }
        Command::Both => tell(answers, product::of_two(payload)),
        Command::BothAndOne => tell(answers, product::of_two_and_one(payload)),
        Command::OneAndBoth => tell(answers, product::of_one_and_two(payload)),
    }
}

fn read(machine: &mut Machine, words: &[u32], answers: &mut String) -> anyhow::Result<()> {
    match machine.read(words) {
        Ok(()) => Ok(writeln!(answers, "read {}", machine.size())?),
        Err(fault) => tell_fault(answers, fault),
    }
}

fn tell(answers: &mut String, verdict: Result<Verdict, NotTried>) -> anyhow::Result<()> {
    match verdict {
        Ok(verdict) => Ok(writeln!(answers, "{verdict}")?),
        Err(NotTried::Expression(fault)) => tell_fault(answers, fault),
        Err(cut) => Err(cut.into()),
    }
}

fn tell_fault(answers: &mut String, fault: Fault) -> anyhow::Result<()> {
    let (number, place) = (fault.cause.number(), fault.place);
    Ok(writeln!(answers, "fault 1 {number} {place}")?)
}

fn yes_or_no(accepted: bool) -> &'static str {
    if accepted { "yes" } else { "no" }
}
