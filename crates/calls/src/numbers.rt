//! The numbers that stand after a call's name, and what they write.
ghost use Rattle.std.specs.Prelude.{◌≡◌, IfOk, flat_map};
ghost use Rattle.calls.specs.Numbers.{WritesNumbers};
ghost use Rattle.calls.specs.Played.{state_numbers};

use crate::written::Written;
use anyhow::bail;
use kinds::values::Parts;
use terms::term::Term;

// The numbers that the words of a text write.
pub(crate) fn numbers(rt: &HostRuntime, text: &str) -> anyhow::Result<Vec<u32>>
    ensures { IfOk result (λ found. WritesNumbers text.now found.items) }
{
    let mut found = Vec::new(rt.alloc());
    for word in text.split_whitespace() {
        let Ok(number) = word.parse::<u32>() else {
            bail!("{word} is no number of 32 bits");
        };
        found.push(number)?;
    }
    Ok(found)
}

// Numbers of nodes.
pub(crate) fn nodes(rt: &HostRuntime, numbers: &[u32]) -> anyhow::Result<Vec<usize>>
    ensures { IfOk result (λ found. found.items ≡ numbers.now) }
{
    let mut found = Vec::new(rt.alloc());
    for &number in numbers {
        found.push(number as usize)?;
    }
    Ok(found)
}

// The performance that two words write.
pub(crate) fn performance<P: Written>(high: u32, low: u32) -> anyhow::Result<P>
    ensures { IfOk result (λ v. P.words v ≡ (high, low)) }
{
    let Some(performance) = P::of_words(high, low) else {
        bail!("the words {high} and {low} write no performance");
    };
    Ok(performance)
}

// States: two words and a weight each.
pub(crate) fn states<P: Written>(
    rt: &HostRuntime,
    numbers: &[u32],
) -> anyhow::Result<Vec<Term<P, Parts>>>
    ensures { IfOk result (λ found. flat_map (state_numbers P.Written) found.items ≡ numbers.now) }
{
    let mut found = Vec::new(rt.alloc());
    for state in numbers.chunks(3) {
        let &[high, low, weight] = state else {
            bail!("a state has two words and a weight");
        };
        found.push(Term {
            performance: performance(high, low)?,
            weight: Parts::new(weight),
        })?;
    }
    Ok(found)
}
