//! Refusals in words, and as errors of the program.
ghost use Rattle.std.specs.Prelude.{◌≡◌, MatchResult, Ok, Err, Some};
ghost use Rattle.worked.specs.Refusals.{words_of, refusal_text};

use anyhow::{anyhow, bail};
use diagram::refusal::Refusal;
use std::fmt;

/// A refusal as a sentence with its number.
#[derive(Clone, Copy)]
pub struct Reason {
    refusal: Refusal,
}

impl fmt::Display for Reason {
    ghost output = { λ r. Some (refusal_text r.refusal) };

    fn fmt<W: fmt::Write>(&self, f: &mut fmt::Formatter<W>) -> fmt::Result {
        let words = words(self.refusal);
        let number = self.refusal.number();
        write!(f, "{words} ({number})")
    }
}

// Why a call is refused, in a sentence.
fn words(refusal: Refusal) -> &'static str
    ensures { result.now ≡ words_of refusal }
{
    match refusal {
        Refusal::ShortStore => "the store is too short",
        Refusal::NoNumberLeft => "no number is left for a node",
        Refusal::WrongStates => "a part has 1 to 64 states",
        Refusal::WrongChildren => "2 to 8 nodes are joined",
        Refusal::NoNode => "there is no such node",
        Refusal::InUse => "the node is in use",
        Refusal::Repeated => "a node is named twice",
        Refusal::NotPart => "the node is no part",
        Refusal::NotJoined => "the node is no joined one",
        Refusal::StaleChild => "a child is stale",
        Refusal::LongArm => "an arm has too many terms",
        Refusal::LongResult => "a running result has too many terms",
        Refusal::Stale => "the node is stale",
        Refusal::NoTerm => "there is no such term",
    }
}

/// What is answered; a refusal becomes an error, `what` saying of what.
pub fn accepted<T: Drop>(answer: Result<T, Refusal>, what: &str) -> anyhow::Result<T>
    ensures { MatchResult result (λ x. answer ≡ Ok x) (λ _. (e : Refusal) × (answer ≡ Err e)) }
{
    answer.map_err(|refusal| anyhow!("{what}: {}", Reason { refusal }))
}

/// Why a call was refused; that it was accepted becomes an error.
pub fn refused<T: Drop>(answer: Result<T, Refusal>, what: &str) -> anyhow::Result<Reason>
    ensures { MatchResult result (λ r. answer ≡ Err r.refusal) (λ _. (x : T) × (answer ≡ Ok x)) }
{
    match answer {
        Ok(_) => bail!("{what} was accepted"),
        Err(refusal) => Ok(Reason { refusal }),
    }
}
