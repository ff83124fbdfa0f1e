//! Formats: the MPS text of a problem.
//!
//! `specs/Written.antt` says which lines the text has, `specs/Layout.antt` how their fields are
//! laid out, and `specs/Laws.antt` that the text, read again, is the problem.
#![tactic(auto)]

ghost use Rattle.std.specs.Prelude.{◌≡◌, IfOk};
ghost use Rattle.bl_write.specs.Written.{written};

mod cells;
pub mod laws;
mod line;
mod sections;
mod sets;

use bl_problem::Problem;
use cells::push_columns;
use sections::{push_back, push_front};
use std::alloc::{AllocError, Global};

/// The text of a problem: an MPS file whose fields stand at the standard columns, or one blank
/// behind the field before where that ends later. Read again, it is the problem. `AllocError`
/// only where there is no memory.
pub fn write(alloc: Global, problem: &Problem) -> Result<Vec<u8>, AllocError>
    ensures { IfOk result (λ text. text.items ≡ written problem.now) }
{
    let mut text = Vec::new(alloc);
    push_front(&mut text, problem)?;
    push_columns(alloc, &mut text, problem)?;
    push_back(alloc, &mut text, problem)?;
    Ok(text)
}
