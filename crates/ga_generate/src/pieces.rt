ghost use Rattle.std.specs.Prelude.{◌≡◌, ◌++◌, OnOk, map};
ghost use Rattle.std.specs.List.{concat};

use ga_base::NoMemory;

/// Appends the pieces, one after the other.
pub(crate) fn push_all(text: &mut Vec<u8>, pieces: &[&[u8]]) -> Result<(), NoMemory>
    ensures { OnOk result (text.new.items ≡ text.old.items ++ concat (map (λ piece. piece.now) pieces.now)) }
{
    for piece in pieces {
        text.extend_from_slice(piece)?;
    }
    Ok(())
}
