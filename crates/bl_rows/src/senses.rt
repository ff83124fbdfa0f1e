//! Tests: files that ask for the least or the greatest value.
use bl_mps::{ModelFault, What, read};
use bl_problem::Sense;
use std::alloc::{AllocError, Global};
use std::test::Fail;

/// What the table looks at: the sense, the offset and the first cost, or the fault and its line.
type Shape = Result<(Sense, i128, i64), (u32, What)>;

/// 2X + 3Y is at most 7, with these lines before ROWS and these after the right side.
fn file(alloc: Global, before: &[u8], after: &[u8]) -> Result<Vec<u8>, AllocError> {
    let mut text = Vec::new(alloc);
    for part in [
        b"NAME          ROWA\n".as_slice(),
        before,
        b"ROWS\n N  COST\n L  R1\nCOLUMNS\n M 'MARKER' 'INTORG'\n X COST 2 R1 2\n Y COST 3 R1 3\nRHS\n RHS R1 7\n",
        after,
        b"BOUNDS\n UP BND X 10\n UP BND Y 10\nENDATA\n",
    ] {
        text.extend_from_slice(part)?;
    }
    Ok(text)
}

fn shape(alloc: Global, text: &[u8]) -> Option<Shape> {
    if text.len() > 10_000 {
        return None;
    }
    match read(alloc, text) {
        Ok(problem) => {
            let first = problem.columns().first()?;
            Some(Ok((problem.sense(), problem.offset(), first.cost)))
        }
        Err(ModelFault::At { line, what }) => Some(Err((line, what))),
        Err(ModelFault::Memory) => None,
    }
}

#[test]
fn senses_are_read(rt: HostRuntime) -> Result<(), Fail> {
    let alloc = rt.alloc();
    let rows: [(&[u8], &[u8], Shape); 15] = [
        (b"", b"", Ok((Sense::Min, 0, 2))),
        (b"OBJSENSE\n    MAX\n", b"", Ok((Sense::Max, 0, -2))),
        (b"OBJSENSE MAX\n", b"", Ok((Sense::Max, 0, -2))),
        (b"OBJSENSE MAXIMIZE unread\n", b"", Ok((Sense::Max, 0, -2))),
        (b"OBJSENSE\n MIN\n", b"", Ok((Sense::Min, 0, 2))),
        (b"OBJSENSE MINIMIZE\n", b"", Ok((Sense::Min, 0, 2))),
        // the constant is 10
        (
            b"OBJSENSE\n    MAX\n",
            b" RHS COST -10\n",
            Ok((Sense::Max, -10, -2)),
        ),
        (b"", b" RHS COST -10\n", Ok((Sense::Min, 10, 2))),
        (b"OBJSENSE\n    BEST\n", b"", Err((3, What::Words))),
        (b"OBJSENSE BEST\n", b"", Err((2, What::Words))),
        (b"OBJSENSE\n MAX MIN\n", b"", Err((3, What::Words))),
        (b"OBJSENSE MAX\n BEST\n", b"", Err((3, What::Words))),
        (b"OBJSENSE MAX\n MAX\n", b"", Err((3, What::Twice))),
        (b"OBJSENSE\n", b"", Err((3, What::Words))),
        (b"OBJSENSE\nNAME\n", b"", Err((3, What::Section))),
    ];
    for (before, after, want) in rows {
        let text = file(alloc, before, after)?;
        assert!(rt; shape(alloc, &text) == Some(want));
    }
    Ok(())
}
