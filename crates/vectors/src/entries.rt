//! The entries of vectors: each piece of bytes stands after its length, four bytes with the
//! highest first.
ghost use Rattle.std.specs.Prelude.{◌≡◌, ◌<◌, ◌++◌, ℕ, List, length, IfSome, IfNone};
ghost use Rattle.std.specs.Int.{w32, to_be_bytes};
ghost use Rattle.vectors.specs.Entries.{Piece, EntryOf};

/// A model file, and what is to be printed of it.
#[derive(Clone, Copy)]
pub struct Entry<'a> {
    /// The bytes of the file.
    pub model: &'a [u8],
    /// Its report, or the line of its fault.
    pub printed: &'a [u8],
}

// The number of four bytes that comes first, and what follows it.
fn word(bytes: &[u8]) -> Option<(u32, &[u8])>
    ensures some { IfSome result (λ t. bytes.now ≡ to_be_bytes w32 t.0 ++ t.1.now) }
    ensures none { IfNone result (length bytes.now < 4) }
{
    let [a, b, c, d, rest @ ..] = bytes else {
        return None;
    };
    Some((u32::from_be_bytes([*a, *b, *c, *d]), rest))
}

// The piece that comes first, and what follows it; None where there is no such piece.
fn piece(bytes: &[u8]) -> Option<(&[u8], &[u8])>
    ensures some { IfSome result (λ t. Piece bytes.now t.0.now t.1.now) }
    ensures none { IfNone result ((piece rest : List ℕ) → ¬ Piece bytes.now piece rest) }
{
    let (len, rest) = word(bytes)?;
    rest.split_at_checked(len as usize)
}

/// The entry that comes first, and what follows it; None where there is no such entry.
pub fn next(bytes: &[u8]) -> Option<(Entry<'_>, &[u8])>
    ensures some { IfSome result (λ t. EntryOf bytes.now t.0.model.now t.0.printed.now t.1.now) }
    ensures none { IfNone result
        ((model printed rest : List ℕ) → ¬ EntryOf bytes.now model printed rest) }
{
    let (model, rest) = piece(bytes)?;
    let (printed, rest) = piece(rest)?;
    Some((Entry { model, printed }, rest))
}
