//! Formats: what the lines of an MPS file say.
//!
//! A `Reader` takes the lines of a file in turn and keeps what they say: the sense of the
//! objective, rows, columns and their numbers, right sides, ranges and bound cards. Which
//! problem that means is said by the crate above.
//!
//! `specs/Said.antt` has what was said, as lists in file order with nothing worked out, and is
//! what contracts see of a `Reader`. `specs/Lines.antt` says what each line adds, or the first
//! rule that it breaks, and `specs/Reading.antt` what the lines of a file come to.
//! `specs/Laws.antt` says it of whole files, in the lines' own words.
//!
//! `Reader::file` gives exactly what the lines up to the ENDATA line say, or exactly the first
//! fault of a line. What it gives is coherent (`specs/Coherence.antt`): names can be names and
//! differ, numbers are within their limits, and those of COLUMNS come column by column, at most
//! one for a column and row.
#![tactic(auto)]

mod bounds;
mod columns;
mod fault;
mod given;
mod hashing;
mod kind;
pub mod laws;
mod names;
mod number;
mod reader;
mod rows;
mod section;
mod sense;

pub use bounds::{BoundCard, Bounds};
pub use columns::{Columns, RowCell};
pub use fault::{LineFault, ModelFault};
pub use given::RowNumbers;
pub use hashing::FileHash;
pub use kind::{Act, Role, What};
pub use names::Names;
pub use reader::{Reader, Whole};
pub use rows::{Rows, is_limited};

#[cfg(test)]
mod tests {
    use super::*;
    use std::alloc::Global;

    /// What the table looks at: the line of the end, or the fault and its line; then how many
    /// rows, columns, numbers and cards were said, and the mantissa of the right side of R.
    type Shape = (u32, Option<What>, [usize; 4], Option<i128>);

    fn shape(alloc: Global, text: &[u8]) -> Option<Shape> {
        if text.len() > 10_000 {
            return None;
        }
        match Reader::new(alloc, FileHash::of(text)).file(alloc, text) {
            Ok(whole) => {
                let said = &whole.said;
                let counts = [
                    said.rows().len(),
                    said.columns().names().len(),
                    said.columns().cells().len(),
                    said.bounds().cards().len(),
                ];
                let right = said.rhs().number(b"R").map(|d| d.mantissa);
                Some((whole.last, None, counts, right))
            }
            Err(ModelFault::At { line, what }) => Some((line, Some(what), [0; 4], None)),
            Err(ModelFault::Memory) => None,
        }
    }

    #[test]
    fn says_what_the_lines_say(rt: HostRuntime) {
        let rows: [(&[u8], Shape); 4] = [
            (b"", (1, Some(What::NoEnd), [0, 0, 0, 0], None)),
            (
                b"NAME\n* no rows yet\n\nROWS\n N C\n L R\n N D\nCOLUMNS\n X C 1 R 2.5\n Y D 7\nRHS\n S R 4\n T R 5\nBOUNDS\n UP X 3\n FR Y\nENDATA\nROWS\n",
                (17, None, [3, 2, 2, 2], Some(4)),
            ),
            (
                b"NAME\nROWS\n N C\nCOLUMNS\n X C 1 R 2\n",
                (5, Some(What::UnknownRow), [0, 0, 0, 0], None),
            ),
            (
                b"NAME\nROWS\n N C\n E R\nCOLUMNS\n X C 1\nRHS\n R 2\nRHS\n",
                (9, Some(What::Section), [0, 0, 0, 0], None),
            ),
        ];
        for (text, said) in rows {
            assert!(rt; shape(rt.alloc(), text) == Some(said));
        }
    }
}
