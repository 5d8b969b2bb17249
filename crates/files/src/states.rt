//! The states of a part, one after the other.
ghost use Rattle.std.specs.Prelude.{◌≡◌, ◌≤◌, ◌++◌, length, take, flat_map, IfSome, IfNone};
ghost use Rattle.files.specs.Contents.{state_bytes};
ghost use Rattle.files.specs.Analysing.{ManyAhead};

use crate::front::state;
use crate::limits::ROOM;
use crate::words::{FilePerformance, FileWeight};
use terms::term::Term;

// So many states, put into the room, and what follows them.
pub(crate) fn states<'a, P: FilePerformance, W: FileWeight>(
    count: usize,
    bytes: &'a [u8],
    room: &mut [Term<P, W>; ROOM],
) -> Option<&'a [u8]>
    requires { count ≤ ROOM }
    ensures room { length room.new ≡ ROOM }
    ensures some { let write = state_bytes P.FilePerformance W.FileWeight in
        IfSome result (λ rest. bytes.now ≡ flat_map write (take count room.new) ++ rest.now) }
    ensures none { IfNone result
        (¬ ManyAhead (state_bytes P.FilePerformance W.FileWeight) count bytes.now) }
{
    let mut rest = bytes;
    for i in 0..count {
        let Some((state, after)) = state(rest) else {
            return None;
        };
        room[i] = state;
        rest = after;
    }
    Some(rest)
}
