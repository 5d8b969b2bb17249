//! A sequence of calls, made on a diagram.
ghost use Rattle.std.specs.Prelude.{◌≡◌, IfOk, string_bytes};
ghost use Rattle.calls.specs.Played.{AnswerText, term_answer_text, weights_answer_text};
ghost use Rattle.calls.specs.Played.{CallMade, CallMadeAs, LinePlayed, Played};

use crate::numbers;
use crate::written::Written;
use anyhow::bail;
use diagram::diagram::Diagram;
use diagram::limits::STORE;
use diagram::refusal::Refusal;
use kinds::performance::Performance;
use kinds::values::Parts;
use std::fmt;
use terms::term::{Term, Way};

// The text of an answer as it prints itself, or of a refusal by its number.
fn answer_text<T: fmt::Display + Drop>(
    rt: &HostRuntime,
    answer: Result<T, Refusal>,
) -> anyhow::Result<String>
    ensures { IfOk result (λ text. AnswerText T.output answer (string_bytes text)) }
{
    match answer {
        Ok(answer) => Ok(format!(in rt.alloc(); "{answer}")?),
        Err(refusal) => {
            let number = refusal.number();
            Ok(format!(in rt.alloc(); "no {number}")?)
        }
    }
}

// The text of a term: two words and a weight.
fn term_answer_text<P: Written>(
    rt: &HostRuntime,
    answer: Result<Term<P, Parts>, Refusal>,
) -> anyhow::Result<String>
    ensures { IfOk result (λ text. string_bytes text ≡ term_answer_text P.Written answer) }
{
    match answer {
        Ok(
            Term {
                performance,
                weight,
            },
        ) => {
            let (high, low) = performance.words();
            Ok(format!(in rt.alloc(); "{high} {low} {weight}")?)
        }
        Err(refusal) => answer_text::<usize>(rt, Err(refusal)),
    }
}

// The text of two weights.
fn weights_answer_text(
    rt: &HostRuntime,
    answer: Result<(Parts, Parts), Refusal>,
) -> anyhow::Result<String>
    ensures { IfOk result (λ text. string_bytes text ≡ weights_answer_text answer) }
{
    match answer {
        Ok((met, all)) => Ok(format!(in rt.alloc(); "{met} {all}")?),
        Err(refusal) => answer_text::<usize>(rt, Err(refusal)),
    }
}

// Asks a question of a node, or collects it, and answers the text of the answer.
fn ask<P: Performance + Written>(
    rt: &HostRuntime,
    diagram: &mut Diagram<P, Parts>,
    store: &mut [Term<P, Parts>],
    name: &str,
    numbers: &[u32],
) -> anyhow::Result<String>
    ensures { IfOk result (λ said. CallMade P.Written P.Performance
        name.now numbers.now diagram.old store.old (string_bytes said) diagram.new store.new) }
{
    match (name, numbers) {
        ("collect", &[k]) => answer_text(rt, diagram.collect(store, k as usize)),
        ("size", &[k]) => answer_text(rt, diagram.size(store, k as usize)),
        ("term", &[k, i]) => term_answer_text(rt, diagram.term(store, k as usize, i as usize)),
        ("total", &[k]) => answer_text(rt, diagram.total(store, k as usize)),
        ("availability", &[k, high, low]) => {
            let demand = numbers::performance(high, low)?;
            weights_answer_text(rt, diagram.availability(store, k as usize, demand))
        }
        _ => bail!("no call is named {name}, with such numbers"),
    }
}

// Makes the call that a line asks for, and answers the text of its answer.
fn call<P: Performance + Written>(
    rt: &HostRuntime,
    diagram: &mut Diagram<P, Parts>,
    store: &mut [Term<P, Parts>],
    line: &str,
) -> anyhow::Result<String>
    ensures { IfOk result (λ said. CallMadeAs P.Written P.Performance
        line.now diagram.old store.old (string_bytes said) diagram.new store.new) }
{
    let (name, rest) = line.split_once(' ').unwrap_or((line, ""));
    let numbers = numbers::numbers(rt, rest)?;
    match (name, numbers.as_slice()) {
        ("add", states) => {
            let states = numbers::states(rt, states)?;
            answer_text(rt, diagram.add(store, &states))
        }
        ("restate", &[k, ref states @ ..]) => {
            let states = numbers::states(rt, states)?;
            answer_text(rt, diagram.restate(store, k as usize, &states))
        }
        ("series", children) => {
            let children = numbers::nodes(rt, children)?;
            answer_text(rt, diagram.join(store, Way::Series, &children))
        }
        ("parallel", children) => {
            let children = numbers::nodes(rt, children)?;
            answer_text(rt, diagram.join(store, Way::Parallel, &children))
        }
        ("bridge", &[a, b, c, d, e]) => {
            let arms = [a as usize, b as usize, c as usize, d as usize, e as usize];
            answer_text(rt, diagram.join_bridge(store, arms))
        }
        (name, numbers) => ask(rt, diagram, store, name, numbers),
    }
}

// An error where a call is answered other than is wanted. The whole line is printed before, since
// an error keeps 120 bytes.
fn compare_answer(rt: &HostRuntime, asked: &str, said: &str, wanted: &str) -> anyhow::Result<()>
    ensures { IfOk result (λ _. said.now ≡ wanted.now) }
{
    if said != wanted {
        eprintln!(rt; "{asked} is answered {said}, and not {wanted}")?;
        bail!("a call is answered other than it is to be");
    }
    Ok(())
}

// Makes the call of a line, which says after it what is to be answered.
fn play_line<P: Performance + Written>(
    rt: &HostRuntime,
    diagram: &mut Diagram<P, Parts>,
    store: &mut [Term<P, Parts>],
    line: &str,
) -> anyhow::Result<()>
    ensures { IfOk result (λ _. LinePlayed P.Written P.Performance
        line.now diagram.old store.old diagram.new store.new) }
{
    let Some((asked, wanted)) = line.split_once(" = ") else {
        bail!("no answer is wanted of: {line}");
    };
    let (asked, len) = match asked.strip_prefix("short ") {
        Some(asked) => (asked, STORE - 1),
        None => (asked, STORE),
    };
    if store.len() < len {
        bail!("the store has fewer than {len} terms");
    }
    let said = call(rt, diagram, &mut store[..len], asked)?;
    compare_answer(rt, asked, said.as_str(), wanted)
}

// Makes the calls, one a line, and answers how many; an error where one is answered other than it
// says.
pub(crate) fn play<P: Performance + Written>(rt: &HostRuntime, calls: &str) -> anyhow::Result<usize>
    ensures { IfOk result (λ made. Played P.Written P.Performance calls.now made) }
{
    let blank = Term {
        performance: numbers::performance::<P>(0, 0)?,
        weight: Parts::new(0),
    };
    let mut store = vec![in rt.alloc(); blank; STORE]?;
    let Ok(mut diagram) = Diagram::new(&store) else {
        bail!("the store is too short");
    };
    for line in calls.lines() {
        play_line(rt, &mut diagram, &mut store, line)?;
    }
    Ok(calls.lines().count())
}
