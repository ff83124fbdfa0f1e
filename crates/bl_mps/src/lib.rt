//! Formats: reads a problem from an MPS file: what the lines of a file say (`bl_cards`) means a
//! problem.
//!
//! `specs/Meaning.antt` says which problem what was said means, or which rule the whole breaks
//! at the ENDATA line: rows and objective in units of the least power of ten that makes their
//! numbers whole, the ends of rows by kind and range, the ends of columns by their cards.
//! `specs/Reading.antt` says what bytes mean: what their lines say, and what that means, or the
//! first fault. `specs/Laws.antt` says what this comes to, in other words.
//!
//! `read` answers `Ok` with exactly the problem that the bytes mean, and `At` with exactly the
//! first fault of the file and its line.
#![tactic(auto)]

ghost use Rattle.std.specs.Prelude.{◌+◌, ◌<◌, ◌^◌, length};
ghost use Rattle.bl_mps.specs.Reading.{read_of};
ghost use Rattle.bl_cards.specs.Views.{Reads};

mod ends;
mod entries;
mod finish;
pub mod laws;
mod scale;

pub use bl_cards::{ModelFault, What};
use bl_cards::{FileHash, LineFault, Reader};
use bl_problem::Problem;
use finish::finish;
use std::alloc::Global;

/// The problem that a file of fewer than 2^32 - 1 bytes means. `At` tells the first fault of the
/// file and its line, and comes exactly where the file has one; `Memory` comes only for want of
/// memory.
#[tactic(auto, unfolding(crate::specs::Reading::read_of, bl_cards::specs::Reading::said_in))]
pub fn read(alloc: Global, bytes: &[u8]) -> Result<Problem, ModelFault>
    requires { length bytes.now + 1 < 2 ^ 32 }
    ensures { Reads result (read_of bytes.now) }
{
    match Reader::new(alloc, FileHash::of(bytes)).file(alloc, bytes) {
        Ok(whole) => match finish(alloc, &whole.said) {
            Ok(problem) => Ok(problem),
            Err(LineFault::Memory) => Err(ModelFault::Memory),
            Err(LineFault::Broken(what)) => Err(ModelFault::At {
                line: whole.last,
                what,
            }),
        },
        Err(fault) => Err(fault),
    }
}

#[cfg(test)]
mod tests {
    use super::*;

    /// `read`, for the short texts of a table.
    fn read_short(alloc: Global, text: &[u8]) -> Result<Problem, ModelFault> {
        if text.len() > 10_000 {
            return Err(ModelFault::Memory);
        }
        read(alloc, text)
    }

    #[test]
    fn tells_the_first_fault(rt: HostRuntime) {
        let rows: [(&[u8], u32, What); 21] = [
            (b"", 1, What::NoEnd),
            (b"NAME\nROWS\n N  C\n", 4, What::NoEnd),
            (b" N C\n", 1, What::Section),
            (b"NAME\nCOLUMNS\n", 2, What::Section),
            (b"NAME\nROWS\n L R X\n N C D\n", 3, What::Words),
            (b"NAME\nROWS\n N C\n L C\n", 4, What::Twice),
            (b"NAME\nROWS\n L 'MARKER'\n", 3, What::Marker),
            (
                b"NAME\nROWS\n N C\nCOLUMNS\n X R 1..0\n",
                5,
                What::UnknownRow,
            ),
            (b"NAME\nROWS\n N C\nCOLUMNS\n X C 1e28x\n", 5, What::Number),
            (b"NAME\nROWS\n N C\nCOLUMNS\n X C 1e28\n", 5, What::TooWide),
            (b"NAME\nROWS\n N C\nCOLUMNS\n X C 1 C 2\n", 5, What::Twice),
            (
                b"NAME\nROWS\n N C\nCOLUMNS\n X C 1\n Y C 1\n X C 2\n",
                7,
                What::Twice,
            ),
            (
                b"NAME\nROWS\n N C\nCOLUMNS\n M 'MARKER' 'INTEND'\n",
                5,
                What::Marker,
            ),
            (
                b"NAME\nROWS\n N C\nCOLUMNS\n X C 1\nBOUNDS\n UP Y 1\n",
                7,
                What::UnknownColumn,
            ),
            (
                b"NAME\nROWS\n N C\nCOLUMNS\n X C 1\nBOUNDS\n UI X 1.5\n",
                7,
                What::FractionBound,
            ),
            (
                b"NAME\nROWS\n N C\nCOLUMNS\n X C 1\nBOUNDS\n UI X 1000000001\n",
                7,
                What::TooWide,
            ),
            (
                b"NAME\nROWS\n L R\nCOLUMNS\n X R 1\nENDATA\n",
                6,
                What::NoObjective,
            ),
            (
                b"NAME\nROWS\n N C\nCOLUMNS\n X C -1\nBOUNDS\n UP BND X 5\nENDATA\n",
                8,
                What::NotWhole,
            ),
            (
                b"NAME\nROWS\n N C\nCOLUMNS\n X C -1\nBOUNDS\n UI X -5\nENDATA\n",
                8,
                What::Unbounded,
            ),
            (
                b"NAME\nROWS\n N C\n G R\nCOLUMNS\n X C 1 R 1e-27\n Y R 3\nBOUNDS\n BV X\n BV Y\nENDATA\n",
                11,
                What::TooWide,
            ),
            (
                b"NAME\nROWS\n N C\n N D\n E R\nCOLUMNS\n X C 1 D .\n",
                7,
                What::Number,
            ),
        ];
        for (text, line, what) in rows {
            match read_short(rt.alloc(), text) {
                Err(ModelFault::At { line: l, what: w }) => {
                    assert_eq!(rt; l, line);
                    assert_eq!(rt; w, what);
                }
                _ => panic!(rt; "a fault was wanted"),
            }
        }
    }

    /// What the table of problems looks at: the scale, the offset, the first column's bounds and
    /// cost, the first row's ends.
    fn shape(problem: &Problem) -> (u32, i128, [i64; 3], Option<i128>, Option<i128>) {
        let mut column = [0, 0, 0];
        if !problem.columns().is_empty() {
            let first = &problem.columns()[0];
            column = [first.low, first.high, first.cost];
        }
        let mut low = None;
        let mut high = None;
        if !problem.rows().is_empty() {
            low = problem.rows()[0].low;
            high = problem.rows()[0].high;
        }
        (problem.scale(), problem.offset(), column, low, high)
    }

    #[test]
    fn reads_problems(rt: HostRuntime) {
        let rows: [(&[u8], u32, i128, [i64; 3], Option<i128>, Option<i128>); 8] = [
            (
                b"NAME          ROWA\r\nROWS\r\n N  COST\r\n G  R1\r\nCOLUMNS\r\n    MARKER                 'MARKER'                 'INTORG'\r\n    X         COST               2   R1                 2\r\n    Y         COST               3   R1                 3\r\n    MARKER                 'MARKER'                 'INTEND'\r\nRHS\r\n              R1                 7\r\nBOUNDS\r\n UP           X                 10\r\n UP           Y                 10\r\nENDATA\r\n",
                0,
                0,
                [0, 10, 2],
                Some(7),
                None,
            ),
            (
                b"NAME\nROWS\n N C\n G R\nCOLUMNS\n X C .25 R 0.1\n Y C 75e-2 R 0.2\nRHS\n R 0.3\nBOUNDS\n UI X 3\n UI Y 3\nENDATA\n",
                2,
                0,
                [0, 3, 25],
                Some(3),
                None,
            ),
            (
                b"NAME\nROWS\n N C\n E R\nCOLUMNS\n X R 1\nRHS\n R 5\nRANGES\n RNG R -2\n OTHER R 7\nBOUNDS\n BV X\nENDATA\n",
                0,
                0,
                [0, 1, 0],
                Some(3),
                Some(5),
            ),
            (
                b"NAME\nROWS\n N C\n E R\nCOLUMNS\n X R 1\nRHS\n R 5\nRANGES\n RNG R 2\nBOUNDS\n BV X\nENDATA\n",
                0,
                0,
                [0, 1, 0],
                Some(5),
                Some(7),
            ),
            (
                b"NAME\nROWS\n N C\n L R\nCOLUMNS\n X R 1\nRHS\n R 5 C 0.5\nRANGES\n R -2 C 9\nBOUNDS\n UI X -5\n LO X -9\nENDATA\n",
                1,
                -5,
                [-9, -5, 0],
                Some(3),
                Some(5),
            ),
            (
                b"NAME\nROWS\n N C\n G R\n N D\nCOLUMNS\n M 'MARKER' 'INTORG'\n X C -1 D 1e9\n X D 2\nRHS\n C 10\nRANGES\n R -2\nENDATA\nROWS\n",
                0,
                -10,
                [0, 1, -1],
                Some(0),
                Some(2),
            ),
            (
                b"NAME\nROWS\n N C\nCOLUMNS\n M 'MARKER' 'INTORG'\n X C -1\n M 'MARKER' 'INTEND'\nBOUNDS\n FX X 4\n UP X -3\nENDATA\n",
                0,
                0,
                [4, -3, -1],
                None,
                None,
            ),
            (
                b"NAME\nROWS\n N C\nCOLUMNS\nENDATA\n",
                0,
                0,
                [0, 0, 0],
                None,
                None,
            ),
        ];
        for (text, scale, offset, column, low, high) in rows {
            let problem = read_short(rt.alloc(), text).expect(&rt, "a problem was wanted");
            assert_eq!(rt; shape(&problem), (scale, offset, column, low, high));
        }
    }

    #[test]
    fn prints_faults_by_name(rt: HostRuntime) {
        let fault = ModelFault::At {
            line: 9,
            what: What::TooWide,
        };
        let text = fault.to_string(rt.alloc()).expect(&rt, "memory is left");
        assert_eq!(rt; text.as_str(), "At");
    }
}
