//! Tests: problems written as text, and read again.
use bl_gen::make;
use bl_mps::read;
use bl_problem::Problem;
use bl_write::write;
use std::alloc::{AllocError, Global};
use std::test::Fail;

/// The lines of a file with the objective `COST`, section by section.
#[derive(Clone, Copy)]
struct Model {
    before: &'static [u8],
    kind: &'static [u8],
    columns: &'static [u8],
    right: &'static [u8],
    bounds: &'static [u8],
}

/// 2X + 3Y is at least 7, at cost 2X + 3Y.
const COVER: Model = Model {
    before: b"",
    kind: b" G R1\n",
    columns: b" X COST 2 R1 2\n Y COST 3 R1 3\n",
    right: b" RHS R1 7\n",
    bounds: b" UP BND X 10\n UP BND Y 10\n",
};

fn file(alloc: Global, model: &Model) -> Result<Vec<u8>, AllocError> {
    let mut text = Vec::new(alloc);
    for part in [
        b"NAME ROWA\n".as_slice(),
        model.before,
        b"ROWS\n N COST\n",
        model.kind,
        b"COLUMNS\n M 'MARKER' 'INTORG'\n",
        model.columns,
        b"RHS\n",
        model.right,
        b"BOUNDS\n",
        model.bounds,
        b"ENDATA\n",
    ] {
        text.extend_from_slice(part)?;
    }
    Ok(text)
}

/// The problem that a short text means.
fn problem_of(alloc: Global, text: &[u8]) -> Option<Problem> {
    if text.len() > 100_000 {
        return None;
    }
    read(alloc, text).ok()
}

/// The scale, the offset and the first row's ends.
fn shape(problem: &Problem) -> Option<(u32, i128, Option<i128>, Option<i128>)> {
    let row = problem.rows().first()?;
    Some((problem.scale(), problem.offset(), row.low, row.high))
}

const COVER_TEXT: &[u8] = b"NAME          BLIS
ROWS
 N  COST
 G  R1
COLUMNS
    MARKER    'MARKER'                 'INTORG'
    X         COST      2
    X         R1        2
    Y         COST      3
    Y         R1        3
    MARKER    'MARKER'                 'INTEND'
RHS
    RHS       R1        7
BOUNDS
 LO BND       X         0
 UP BND       X         10
 LO BND       Y         0
 UP BND       Y         10
ENDATA
";

/// Decimals, a long name, a constant, two ends, and the greatest value.
const LONG_TEXT: &[u8] = b"NAME          BLIS
OBJSENSE
    MAX
ROWS
 N  COST
 L  R1
COLUMNS
    MARKER    'MARKER'                 'INTORG'
    LONGCOLUMN1 COST    0.25
    LONGCOLUMN1 R1      1
    Y         COST      0
    Y         R1        -2
    MARKER    'MARKER'                 'INTEND'
RHS
    RHS       COST      -10.5
    RHS       R1        3
RANGES
    RNG       R1        8
BOUNDS
 LO BND       LONGCOLUMN1 -1
 UP BND       LONGCOLUMN1 3
 LO BND       Y         0
 UP BND       Y         3
ENDATA
";

const MADE_TEXT: &[u8] = b"NAME          BLIS
ROWS
 N  COST
 L  R0001
COLUMNS
    MARKER    'MARKER'                 'INTORG'
    C0001     COST      -39
    C0001     R0001     3
    C0002     COST      -59
    C0002     R0001     5
    MARKER    'MARKER'                 'INTEND'
RHS
    RHS       R0001     4
BOUNDS
 LO BND       C0001     0
 UP BND       C0001     1
 LO BND       C0002     0
 UP BND       C0002     1
ENDATA
";

#[test]
fn problems_are_written(rt: HostRuntime) -> Result<(), Fail> {
    let alloc = rt.alloc();
    let long = Model {
        before: b"OBJSENSE MAX\n",
        kind: b" E R1\n",
        columns: b" LONGCOLUMN1 COST .25 R1 0.1\n Y COST 0 R1 -2e-1\n",
        right: b" RHS R1 -0.5 COST -10.5\nRANGES\n RNG R1 .8\n",
        bounds: b" LO BND LONGCOLUMN1 -1\n UP BND LONGCOLUMN1 3\n UP BND Y 3\n",
    };
    for (model, want) in [(COVER, COVER_TEXT), (long, LONG_TEXT)] {
        let problem = problem_of(alloc, &file(alloc, &model)?).expect(&rt, "a problem was wanted");
        assert!(rt; write(alloc, &problem)?.as_slice() == want);
    }
    assert!(rt; write(alloc, &make(alloc, 1, 2, 1)?)?.as_slice() == MADE_TEXT);
    Ok(())
}

/// Whether the problem of a text is written and read back as it was; none where there is no such
/// problem.
fn comes_back(alloc: Global, text: &[u8]) -> Option<bool> {
    let problem = problem_of(alloc, text)?;
    let written = write(alloc, &problem).ok()?;
    let again = problem_of(alloc, &written)?;
    let twice = write(alloc, &again).ok()?;
    Some(twice.as_slice() == written.as_slice() && shape(&again) == shape(&problem))
}

#[test]
fn written_problems_are_read_back(rt: HostRuntime) -> Result<(), Fail> {
    let alloc = rt.alloc();
    let rows: [Model; 6] = [
        COVER,
        // an equation
        Model {
            kind: b" E R1\n",
            ..COVER
        },
        // an upper end
        Model {
            kind: b" L R1\n",
            ..COVER
        },
        // decimals
        Model {
            columns: b" X COST 0.25 R1 0.1\n Y COST 0.75 R1 0.2\n",
            ..COVER
        },
        // an equation with a range
        Model {
            kind: b" E R1\n",
            right: b" RHS R1 5\nRANGES\n RNG R1 -2\n",
            ..COVER
        },
        // a constant
        Model {
            right: b" RHS R1 7 COST 0.5\n",
            ..COVER
        },
    ];
    for model in rows {
        assert!(rt; comes_back(alloc, &file(alloc, &model)?) == Some(true));
    }
    Ok(())
}
