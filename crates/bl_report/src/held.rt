//! The line that tells what a tree stores.
ghost use Rattle.std.specs.Prelude.{◌≡◌, IfOk};
ghost use Rattle.bl_report.specs.Texts.{held_line};

use std::alloc::{AllocError, Global};

/// The line that tells how many entries the stored pieces have: `held N`. `AllocError` where
/// there is no memory.
pub fn held_line(alloc: Global, held: u64) -> Result<Vec<u8>, AllocError>
    ensures { IfOk result (λ text. text.items ≡ held_line held) }
{
    let mut text = Vec::new(alloc);
    let digits = format!(in alloc; "{held}")?;
    text.extend_from_slice(b"held ")?;
    text.extend_from_slice(digits.as_bytes())?;
    text.extend_from_slice(b"\n")?;
    Ok(text)
}
