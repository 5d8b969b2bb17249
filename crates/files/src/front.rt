//! What is written at the front of some bytes, and what follows it.
ghost use Rattle.std.specs.Prelude.{◌≡◌, ◌++◌, ◌<◌, length, IfSome, IfNone};
ghost use Rattle.std.specs.Int.{w32, w64, to_be_bytes};
ghost use Rattle.files.specs.Contents.{Ahead, performance_bytes, state_bytes};

use crate::words::{FilePerformance, FileWeight};
use terms::term::Term;

// A number of four bytes.
pub(crate) fn word32(bytes: &[u8]) -> Option<(u32, &[u8])>
    ensures some { IfSome result (λ t. bytes.now ≡ to_be_bytes w32 t.0 ++ t.1.now) }
    ensures none { IfNone result (length bytes.now < 4) }
{
    let [a, b, c, d, rest @ ..] = bytes else {
        return None;
    };
    Some((u32::from_be_bytes([*a, *b, *c, *d]), rest))
}

// A number of eight bytes.
pub(crate) fn word64(bytes: &[u8]) -> Option<(u64, &[u8])>
    ensures some { IfSome result (λ t. bytes.now ≡ to_be_bytes w64 t.0 ++ t.1.now) }
    ensures none { IfNone result (length bytes.now < 8) }
{
    let [a, b, c, d, e, f, g, h, rest @ ..] = bytes else {
        return None;
    };
    Some((u64::from_be_bytes([*a, *b, *c, *d, *e, *f, *g, *h]), rest))
}

// A performance that the kind has.
pub(crate) fn performance<P: FilePerformance>(bytes: &[u8]) -> Option<(P, &[u8])>
    ensures some { IfSome result
        (λ t. bytes.now ≡ performance_bytes P.FilePerformance t.0 ++ t.1.now) }
    ensures none { IfNone result (¬ Ahead (performance_bytes P.FilePerformance) bytes.now) }
{
    let (high, rest) = word32(bytes)?;
    let (low, rest) = word32(rest)?;
    Some((P::of_words(high, low)?, rest))
}

// A state: a performance, and a weight that the kind has.
pub(crate) fn state<P: FilePerformance, W: FileWeight>(bytes: &[u8]) -> Option<(Term<P, W>, &[u8])>
    ensures some { IfSome result
        (λ t. bytes.now ≡ state_bytes P.FilePerformance W.FileWeight t.0 ++ t.1.now) }
    ensures none { IfNone result (¬ Ahead (state_bytes P.FilePerformance W.FileWeight) bytes.now) }
{
    let (performance, rest) = performance(bytes)?;
    let (word, rest) = word64(rest)?;
    let weight = W::of_word(word)?;
    Some((
        Term {
            performance,
            weight,
        },
        rest,
    ))
}
