//! The line of a model that is not read.
ghost use Rattle.std.specs.Prelude.{◌≡◌, IfOk};
ghost use Rattle.bl_report.specs.Texts.{model_line, what_name};

use crate::answer::push_number;
use bl_cards::What;
use std::alloc::{AllocError, Global};

/// The line that tells a file's first fault: `fault model line L WHAT`. `AllocError` where there
/// is no memory.
pub fn model_line(alloc: Global, line: u32, what: What) -> Result<Vec<u8>, AllocError>
    ensures { IfOk result (λ text. text.items ≡ model_line (record { line = line; what = what })) }
{
    let mut text = Vec::new(alloc);
    text.extend_from_slice(b"fault model line ")?;
    push_number(alloc, &mut text, i64::from(line))?;
    text.extend_from_slice(b" ")?;
    text.extend_from_slice(name_of(what))?;
    text.extend_from_slice(b"\n")?;
    Ok(text)
}

// The name of a broken rule.
fn name_of(what: What) -> &'static [u8]
    ensures { result.now ≡ what_name what }
{
    match what {
        What::Section => b"Section",
        What::Words => b"Words",
        What::Number => b"Number",
        What::TooWide => b"TooWide",
        What::UnknownRow => b"UnknownRow",
        What::UnknownColumn => b"UnknownColumn",
        What::Twice => b"Twice",
        What::NotWhole => b"NotWhole",
        What::Unbounded => b"Unbounded",
        What::FractionBound => b"FractionBound",
        What::TooMany => b"TooMany",
        What::NoObjective => b"NoObjective",
        What::Marker => b"Marker",
        What::NoEnd => b"NoEnd",
    }
}
