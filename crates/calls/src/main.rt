//! Reads sequences of a diagram's calls from standard input, makes each call, and compares what it
//! is answered with what stands after it.
//!
//! tools/other/sequences.py tells the form.
#![tactic(auto)]

ghost use Rattle.std.specs.Prelude.{IfOk};
ghost use Rattle.calls.specs.Played.{Played};
ghost use Rattle.calls.specs.Sequences.{Sequence};

use grade::Grade;
use kinds::performance::Performance;
use kinds::values::{Delay, FirstFault, Flow, OrOut};
use std::io;
use written::Written;

mod grade;
mod grade_kind;
mod numbers;
mod play;
mod written;

// One sequence: the name of its kind, and then a call a line. Answers how many calls.
fn play_one(rt: &HostRuntime, sequence: &str) -> anyhow::Result<usize>
    ensures { IfOk result (Sequence
        (Played ⟦<Flow as Written>⟧ ⟦<Flow as Performance>⟧)
        (Played ⟦<FirstFault as Written>⟧ ⟦<FirstFault as Performance>⟧)
        (Played ⟦<OrOut<Delay> as Written>⟧ ⟦<OrOut<Delay> as Performance>⟧)
        (Played ⟦<OrOut<FirstFault> as Written>⟧ ⟦<OrOut<FirstFault> as Performance>⟧)
        (Played ⟦<Grade as Written>⟧ ⟦<Grade as Performance>⟧) sequence.now) }
{
    let Some((kind, calls)) = sequence.split_once('\n') else {
        return Ok(0);
    };
    match kind {
        "flow" => play::play::<Flow>(rt, calls),
        "first" => play::play::<FirstFault>(rt, calls),
        "delay" => play::play::<OrOut<Delay>>(rt, calls),
        "first-or-out" => play::play::<OrOut<FirstFault>>(rt, calls),
        "grade" => play::play::<Grade>(rt, calls),
        _ => anyhow::bail!("no kind is named {kind}"),
    }
}

fn main(rt: HostRuntime) -> anyhow::Result<()> {
    let text = io::read_to_string(rt.alloc(), rt.reader())?;
    let mut sequences = 0usize;
    let mut calls = 0usize;
    for sequence in text.as_str().split("diagram ") {
        let played = play_one(&rt, sequence)?;
        if played > 0 {
            sequences = sequences.saturating_add(1);
            calls = calls.saturating_add(played);
        }
    }
    println!(rt; "{sequences} diagrams, {calls} calls: all answered as the other program says")?;
    Ok(())
}
