//! A record that makes a node, read as the node's making.
ghost use Rattle.std.specs.Prelude.{◌≡◌, ◌≤◌, ◌∷◌, length, take};
ghost use Rattle.files.specs.Contents.{part_letter, way_letter};
ghost use Rattle.files.specs.Analysing.{MakingRead};

use crate::fault::Fault;
use crate::limits::{ROOM, STATE_BYTES};
use crate::states::states;
use crate::words::{FilePerformance, FileWeight};
use diagram::limits::ARMS;
use diagram::making::Making;
use terms::term::{Term, Way};

/// Record k, as the making of node k, and what follows it. A record is a letter, a count and a
/// body; the states or the children that it writes are put into a room that is lent.
pub(crate) fn making<'a, 'r, P: FilePerformance, W: FileWeight>(
    k: u8,
    bytes: &'a [u8],
    states: &'r mut [Term<P, W>; ROOM],
    children: &'r mut [usize; ROOM],
) -> Result<(Making<'r, P, W>, &'a [u8]), Fault>
    ensures { MakingRead P.FilePerformance W.FileWeight k bytes.now result }
{
    let [letter, count, body @ ..] = bytes else {
        return Err(Fault::Letter(k));
    };
    let count = usize::from(*count);
    match *letter {
        b'P' => part(k, count, body, states),
        b'S' => joined(k, Way::Series, count, body, children),
        b'L' => joined(k, Way::Parallel, count, body, children),
        b'B' => {
            let [a, b, c, d, e, rest @ ..] = body else {
                return Err(Fault::Body(k));
            };
            if count != ARMS {
                return Err(Fault::Body(k));
            }
            let arms = [
                usize::from(*a),
                usize::from(*b),
                usize::from(*c),
                usize::from(*d),
                usize::from(*e),
            ];
            Ok((Making::Bridged(arms), rest))
        }
        _ => Err(Fault::Letter(k)),
    }
}

fn part<'a, 'r, P: FilePerformance, W: FileWeight>(
    k: u8,
    count: usize,
    body: &'a [u8],
    room: &'r mut [Term<P, W>; ROOM],
) -> Result<(Making<'r, P, W>, &'a [u8]), Fault>
    requires { count ≤ ROOM }
    ensures { MakingRead P.FilePerformance W.FileWeight k (part_letter ∷ count ∷ body.now) result }
{
    if body.len() < STATE_BYTES * count {
        return Err(Fault::Body(k));
    }
    let Some(rest) = states(count, body, room) else {
        return Err(Fault::Value(k));
    };
    Ok((Making::Added(&room[..count]), rest))
}

fn joined<'a, 'r, P: FilePerformance, W: FileWeight>(
    k: u8,
    way: Way,
    count: usize,
    body: &'a [u8],
    children: &'r mut [usize; ROOM],
) -> Result<(Making<'r, P, W>, &'a [u8]), Fault>
    requires { count ≤ ROOM }
    ensures { MakingRead P.FilePerformance W.FileWeight k
        (way_letter way ∷ count ∷ body.now) result }
{
    if body.len() < count {
        return Err(Fault::Body(k));
    }
    let (named, rest) = body.split_at(count);
    put_numbers(named, children);
    Ok((Making::Joined(way, &children[..count]), rest))
}

// The children that are named, a byte each.
fn put_numbers(named: &[u8], children: &mut [usize; ROOM])
    requires { length named.now ≤ ROOM }
    ensures { take (length named.now) children.new ≡ named.now }
{
    for i in 0..named.len() {
        children[i] = usize::from(named[i]);
    }
}
