//! Runs of the program: models and words, and what is written.
use bl_io::{MemorySink, MemorySource};
use bl_run::{Ended, OpenGate, run_one};
use std::alloc::{AllocError, Global};
use std::sync::Wait;
use std::test::Fail;
use std::thread::Threads;

/// A covering model with one row: 2X + 3Y is at least 7, at cost 2X + 3Y.
pub(crate) const COVER: [&[u8]; 15] = [
    b"NAME          ROWA",
    b"ROWS",
    b" N  COST",
    b" G  R1",
    b"COLUMNS",
    b"    MARKER                 'MARKER'                 'INTORG'",
    b"    X         COST               2   R1                 2",
    b"    Y         COST               3   R1                 3",
    b"    MARKER                 'MARKER'                 'INTEND'",
    b"RHS",
    b"    RHS       R1                 7",
    b"BOUNDS",
    b" UP BND       X                 10",
    b" UP BND       Y                 10",
    b"ENDATA",
];

const KNAPSACK: &[u8] = b"* three items
NAME          KNAP
ROWS
 N  PROFIT
 L  WEIGHT
COLUMNS
    MARKER    'MARKER'                 'INTORG'
    A         PROFIT             -60   WEIGHT              10
    B         PROFIT            -100   WEIGHT              20
    C         PROFIT            -120   WEIGHT              30
    MARKER    'MARKER'                 'INTEND'
RHS
    RHS       WEIGHT              50
ENDATA
";

/// The covering model as it is written.
const COVER_WRITTEN: &[u8] = b"NAME          BLIS
ROWS
 N  COST
 G  R1
COLUMNS
    MARKER    'MARKER'                 'INTORG'
    X         COST      2
    X         R1        2
    Y         COST      3
    Y         R1        3
    MARKER    'MARKER'                 'INTEND'
RHS
    RHS       R1        7
BOUNDS
 LO BND       X         0
 UP BND       X         10
 LO BND       Y         0
 UP BND       Y         10
ENDATA
";

/// The problem made of the number 1 with two columns and one row, as it is written.
const MADE_WRITTEN: &[u8] = b"NAME          BLIS
ROWS
 N  COST
 L  R0001
COLUMNS
    MARKER    'MARKER'                 'INTORG'
    C0001     COST      -39
    C0001     R0001     3
    C0002     COST      -59
    C0002     R0001     5
    MARKER    'MARKER'                 'INTEND'
RHS
    RHS       R0001     4
BOUNDS
 LO BND       C0001     0
 UP BND       C0001     1
 LO BND       C0002     0
 UP BND       C0002     1
ENDATA
";

pub(crate) type Edit = (usize, &'static [u8]);

/// The covering model with other lines at these numbers, and each line ended so.
fn cover_ended(alloc: Global, edits: &[Edit], ending: &[u8]) -> Result<Vec<u8>, AllocError> {
    let mut text = Vec::new(alloc);
    for i in 0..COVER.len() {
        let mut line = COVER[i];
        for edit in edits {
            if edit.0 == i + 1 {
                line = edit.1;
            }
        }
        text.extend_from_slice(line)?;
        text.extend_from_slice(ending)?;
    }
    Ok(text)
}

/// The covering model with other lines at these numbers.
pub(crate) fn cover(alloc: Global, edits: &[Edit]) -> Result<Vec<u8>, AllocError> {
    cover_ended(alloc, edits, b"\n")
}

/// The words of a list.
pub(crate) fn words_of(alloc: Global, list: &[&str]) -> Result<Vec<String>, AllocError> {
    let mut words = Vec::new(alloc);
    for word in list {
        words.push(String::from_str(alloc, word)?)?;
    }
    Ok(words)
}

/// The status of a run over these bytes, and what it wrote.
pub(crate) fn run(
    alloc: Global,
    bytes: Vec<u8>,
    words: &[String],
) -> Result<(u8, MemorySink), AllocError> {
    let mut source = MemorySource::new(bytes, 65_536, Vec::new(alloc));
    let mut sink = MemorySink::new(alloc, 65_536, 65_536, Vec::new(alloc))?;
    let ended = run_one(alloc, words, &mut source, &mut sink);
    Ok((ended.status, sink))
}

pub(crate) const BEST: &[u8] = b"status optimal\nobjective 7\ncol X 2\ncol Y 1\nend\n";

const NONE: &[u8] = b"status infeasible\nend\n";

#[test]
fn models_are_answered(rt: HostRuntime) -> Result<(), Fail> {
    let alloc = rt.alloc();
    let rows: [(&[Edit], u8, &[u8]); 29] = [
        (&[], 0, BEST),
        // an equation that no whole numbers meet
        (
            &[
                (4, b" E  R1"),
                (7, b"    X COST 2 R1 2"),
                (8, b"    Y COST 3 R1 2"),
                (11, b"    RHS R1 3"),
                (13, b" UP BND X 5"),
                (14, b" UP BND Y 5"),
            ],
            0,
            NONE,
        ),
        // decimals
        (
            &[
                (7, b"    X COST 0.25 R1 0.1"),
                (8, b"    Y COST 0.75 R1 0.2"),
                (11, b"    RHS R1 0.3"),
                (13, b" UP BND X 3"),
                (14, b" UP BND Y 3"),
            ],
            0,
            b"status optimal\nobjective 0.75\ncol X 3\ncol Y 0\nend\n",
        ),
        // an equation with a range
        (
            &[
                (4, b" E  R1"),
                (7, b"    X COST 1 R1 1"),
                (8, b"    Y COST 2 R1 1"),
                (11, b"    RHS R1 5\nRANGES\n    RNG R1 -2"),
            ],
            0,
            b"status optimal\nobjective 3\ncol X 3\ncol Y 0\nend\n",
        ),
        (
            &[
                (4, b" E  R1"),
                (7, b"    X COST 1 R1 1"),
                (8, b"    Y COST 2 R1 1"),
                (11, b"    RHS R1 5\nRANGES\n    RNG R1 2"),
            ],
            0,
            b"status optimal\nobjective 5\ncol X 5\ncol Y 0\nend\n",
        ),
        // no columns: the row's sum is 0
        (
            &[
                (7, b""),
                (8, b""),
                (12, b""),
                (13, b""),
                (14, b""),
                (11, b"    RHS R1 1"),
            ],
            0,
            NONE,
        ),
        (
            &[
                (4, b""),
                (7, b""),
                (8, b""),
                (10, b""),
                (11, b""),
                (12, b""),
                (13, b""),
                (14, b""),
            ],
            0,
            b"status optimal\nobjective 0\nend\n",
        ),
        // a low above its high leaves no point
        (&[(13, b" LO BND X 3\n UP BND X 2")], 0, NONE),
        // a column without a card is 0 or 1, and bounds of zero fix
        (
            &[(13, b" UP BND Y 2"), (14, b"* no card for X")],
            0,
            b"status optimal\nobjective 8\ncol X 1\ncol Y 2\nend\n",
        ),
        (
            &[(13, b" UP BND X -0"), (14, b" UP BND Y 10")],
            0,
            b"status optimal\nobjective 9\ncol X 0\ncol Y 3\nend\n",
        ),
        (
            &[(8, b"    Y COST -3 R1 0"), (14, b" UP BND Y 9")],
            0,
            b"status optimal\nobjective -19\ncol X 4\ncol Y 9\nend\n",
        ),
        // a constant of the objective
        (
            &[(11, b"    RHS R1 7\n    RHS COST -10")],
            0,
            b"status optimal\nobjective 17\ncol X 2\ncol Y 1\nend\n",
        ),
        (
            &[(11, b"    RHS R1 7\n    RHS COST 0.5")],
            0,
            b"status optimal\nobjective 6.5\ncol X 2\ncol Y 1\nend\n",
        ),
        (
            &[(11, b"    RHS COST 7")],
            0,
            b"status optimal\nobjective -7\ncol X 0\ncol Y 0\nend\n",
        ),
        // many points, another spelling of 2, another set, and what needs no mark
        (&[(13, b" UP BND X 9999"), (14, b" UP BND Y 1")], 0, BEST),
        (&[(7, b"    X COST 2.0 R1 2")], 0, BEST),
        (&[(14, b" UP BOUND Y 10")], 0, BEST),
        (&[(9, b"")], 0, BEST),
        (&[(15, b"ENDATA\nRANGES\n  what?")], 0, BEST),
        (
            &[(10, b"RANGES"), (11, b"    RNG R1 1")],
            0,
            b"status optimal\nobjective 0\ncol X 0\ncol Y 0\nend\n",
        ),
        // the first fault, and its line
        (&[(15, b"")], 3, b"fault model line 16 NoEnd\n"),
        (&[(7, b"    X R1 2 R1 2")], 3, b"fault model line 7 Twice\n"),
        (
            &[(8, b"    Y COST 3 R1 3\n    X COST 1")],
            3,
            b"fault model line 9 Twice\n",
        ),
        (
            &[(7, b"    X COST 2 NONE 2")],
            3,
            b"fault model line 7 UnknownRow\n",
        ),
        (
            &[(7, b"    X COST 2 R1 1e-27")],
            3,
            b"fault model line 15 TooWide\n",
        ),
        (
            &[(13, b" UP BND X -1")],
            3,
            b"fault model line 15 Unbounded\n",
        ),
        (
            &[(14, b" LO BND Y 1")],
            3,
            b"fault model line 15 Unbounded\n",
        ),
        (
            &[(13, b" UP BND X 1.5")],
            3,
            b"fault model line 13 FractionBound\n",
        ),
        (
            &[(13, b" UP BND Z 1")],
            3,
            b"fault model line 13 UnknownColumn\n",
        ),
    ];
    for (edits, status, text) in rows {
        let (got, sink) = run(alloc, cover(alloc, edits)?, &[])?;
        assert_eq!(rt; got, status);
        assert!(rt; sink.kept() == text);
    }
    // carriage returns, and no names of sets
    let bare: [Edit; 3] = [(11, b"    R1 7"), (13, b" UP X 10"), (14, b" UP Y 10")];
    let (_, sink) = run(alloc, cover_ended(alloc, &bare, b"\r\n")?, &[])?;
    assert!(rt; sink.kept() == BEST);
    let lists: [&[&str]; 4] = [
        &[],
        &["--cuts", "rows"],
        &["--cuts=covers"],
        &["--cuts", "both"],
    ];
    for list in lists {
        let (_, sink) = run(alloc, KNAPSACK.to_vec(alloc)?, &words_of(alloc, list)?)?;
        assert!(rt;
            sink.kept()
                == b"status optimal\nobjective -220\ncol A 0\ncol B 1\ncol C 1\nend\n".as_slice()
        );
    }
    Ok(())
}

/// One column of cost -1 without rows.
const SINGLE: [&[u8]; 10] = [
    b"NAME",
    b"ROWS",
    b" N  COST",
    b"COLUMNS",
    b"    M  'MARKER'  'INTORG'",
    b"    X  COST  -1",
    b"    M  'MARKER'  'INTEND'",
    b"BOUNDS",
    b" UP BND X 1000000000",
    b"ENDATA",
];

#[test]
fn single_columns_and_odd_files_are_answered(rt: HostRuntime) -> Result<(), Fail> {
    let alloc = rt.alloc();
    let rows: [(&[Edit], u8, &[u8]); 7] = [
        (
            &[],
            0,
            b"status optimal\nobjective -1000000000\ncol X 1000000000\nend\n",
        ),
        (
            &[(9, b" UP BND X 1000000001")],
            3,
            b"fault model line 9 TooWide\n",
        ),
        (
            &[(9, b" UP BND X -5")],
            3,
            b"fault model line 10 Unbounded\n",
        ),
        (
            &[(9, b" UP BND X -5\n LO BND X -9")],
            0,
            b"status optimal\nobjective 5\ncol X -5\nend\n",
        ),
        (
            &[(5, b"*"), (7, b"*"), (9, b" UP BND X 5")],
            3,
            b"fault model line 10 NotWhole\n",
        ),
        (
            &[(5, b"*"), (7, b"*"), (9, b" UI BND X 5")],
            0,
            b"status optimal\nobjective -5\ncol X 5\nend\n",
        ),
        (
            &[(9, b" UP BND X 1.5")],
            3,
            b"fault model line 9 FractionBound\n",
        ),
    ];
    for (edits, status, text) in rows {
        let mut bytes = Vec::new(alloc);
        for i in 0..SINGLE.len() {
            let mut line = SINGLE[i];
            for edit in edits {
                if edit.0 == i + 1 {
                    line = edit.1;
                }
            }
            bytes.extend_from_slice(line)?;
            bytes.extend_from_slice(b"\n")?;
        }
        let (got, sink) = run(alloc, bytes, &[])?;
        assert_eq!(rt; got, status);
        assert!(rt; sink.kept() == text);
    }
    for (size, text) in [
        (0usize, b"fault model line 1 NoEnd\n".as_slice()),
        (8_388_608, b"fault model line 2 NoEnd\n"),
        (8_388_609, b"fault model long\n"),
    ] {
        let (status, sink) = run(alloc, vec![in alloc; b'*'; size]?, &[])?;
        assert_eq!(rt; status, 3);
        assert!(rt; sink.kept() == text);
    }
    Ok(())
}

#[test]
fn words_are_followed(rt: HostRuntime) -> Result<(), Fail> {
    let alloc = rt.alloc();
    let limit = b"status limit\nbound 0\nobjective none\nend\n".as_slice();
    let words = b"fault words\n".as_slice();
    let rows: [(&[&str], u8, &[u8]); 23] = [
        (&["--nodes", "0"], 1, limit),
        (&["--nodes=000"], 1, limit),
        (&["--nodes", "241"], 0, BEST),
        (
            &["--span", "1", "--order=depth", "--branch", "half"],
            0,
            BEST,
        ),
        (&["--nodes", "100001"], 2, words),
        (&["--nodes", "00000000001"], 2, words),
        (&["--nodes", "x"], 2, words),
        (&["--nodes", "1", "--nodes", "1"], 2, words),
        (&["--nodes"], 2, words),
        (&["--"], 2, words),
        (&["--speed", "1"], 2, words),
        (&["--workers", "1"], 2, words),
        (&["--columns", "3"], 2, words),
        (&["x"], 2, words),
        (&["--log", "--write"], 2, words),
        (
            &["--nodes", "0", "--log"],
            1,
            b"held 7\nstatus limit\nbound 0\nobjective none\nend\n",
        ),
        (&["--cuts", "none"], 2, words),
        // the problem is written, and not solved
        (&["--write", "--nodes", "0"], 0, COVER_WRITTEN),
        (
            &["--gen", "1", "--columns", "2", "--rows", "1", "--write"],
            0,
            MADE_WRITTEN,
        ),
        // a problem that is made, whose columns are not told
        (
            &["--gen", "1", "--columns", "2", "--rows", "1"],
            0,
            b"status optimal\nobjective -39\nend\n",
        ),
        (
            &["--gen=1", "--rows=0", "--columns=2"],
            0,
            b"status optimal\nobjective -98\nend\n",
        ),
        (&["--gen=1"], 0, b"status optimal\nobjective -1064\nend\n"),
        (
            &["--gen", "1", "--branch=half", "--nodes", "0"],
            1,
            b"status limit\nbound -1527\nobjective none\nend\n",
        ),
    ];
    for (list, status, text) in rows {
        let (got, sink) = run(alloc, cover(alloc, &[])?, &words_of(alloc, list)?)?;
        assert_eq!(rt; got, status);
        assert!(rt; sink.kept() == text);
    }
    Ok(())
}

#[test]
fn greatest_values_are_answered(rt: HostRuntime) -> Result<(), Fail> {
    let alloc = rt.alloc();
    // 2X + 3Y is at most 7, and as great as can be
    let asked: Edit = (1, b"NAME          ROWA\nOBJSENSE\n    MAX");
    let row: Edit = (4, b" L  R1");
    let constant: Edit = (
        11,
        b"    RHS       R1                 7\n    RHS       COST             -10",
    );
    let none: [&str; 0] = [];
    let rows: [(&[Edit], &[&str], u8, &[u8]); 5] = [
        (&[asked, row], &none, 0, BEST),
        (
            &[asked, row],
            &["--nodes", "0"],
            1,
            b"status limit\nbound 50\nobjective none\nend\n",
        ),
        (
            &[(1, b"NAME          ROWA\nOBJSENSE MAX"), row],
            &none,
            0,
            BEST,
        ),
        (
            &[(1, b"NAME          ROWA\nOBJSENSE\n    BEST"), row],
            &none,
            3,
            b"fault model line 3 Words\n",
        ),
        (
            &[asked, row, constant],
            &none,
            0,
            b"status optimal\nobjective 17\ncol X 2\ncol Y 1\nend\n",
        ),
    ];
    for (edits, list, status, text) in rows {
        let (got, sink) = run(alloc, cover(alloc, edits)?, &words_of(alloc, list)?)?;
        assert_eq!(rt; got, status);
        assert!(rt; sink.kept() == text);
    }
    Ok(())
}

#[test]
fn gaps_are_told(rt: HostRuntime) -> Result<(), Fail> {
    let alloc = rt.alloc();
    let only: Edit = (11, b"    RHS       R1                50");
    let tenths: Edit = (
        11,
        b"    RHS       R1                50\n    RHS       COST            -0.5",
    );
    let within = b"status within\nbound 47\nobjective 50\ncol X 10\ncol Y 10\nend\n".as_slice();
    let none: [Edit; 5] = [
        (4, b" E  R1"),
        (8, b"    Y COST 3 R1 2"),
        (11, b"    RHS R1 3"),
        (13, b" UP BND X 5"),
        (14, b" UP BND Y 5"),
    ];
    let rows: [(&[Edit], &[&str], &[u8]); 4] = [
        (&[only], &["--gap", "3"], within),
        (
            &[only],
            &["--gap=0"],
            b"status optimal\nobjective 50\ncol X 10\ncol Y 10\nend\n",
        ),
        // the gap is in whole units of the objective
        (
            &[tenths],
            &["--gap", "3"],
            b"status within\nbound 47.5\nobjective 50.5\ncol X 10\ncol Y 10\nend\n",
        ),
        (&none, &["--gap", "5"], NONE),
    ];
    for (edits, list, text) in rows {
        let (got, sink) = run(alloc, cover(alloc, edits)?, &words_of(alloc, list)?)?;
        assert_eq!(rt; got, 0);
        assert!(rt; sink.kept() == text);
    }
    Ok(())
}

/// The status of a run by the words' workers over these bytes, what it wrote, and its journal.
fn run_many<R: Threads + Wait + Sync>(
    rt: &R,
    alloc: Global,
    bytes: Vec<u8>,
    words: &[String],
) -> Result<(Ended, MemorySink), AllocError> {
    let mut source = MemorySource::new(bytes, 65_536, Vec::new(alloc));
    let mut sink = MemorySink::new(alloc, 65_536, 65_536, Vec::new(alloc))?;
    let ended = bl_run::run(rt, alloc, words, &mut source, &mut sink, &OpenGate);
    Ok((ended, sink))
}

#[test]
fn workers_answer_alike(rt: HostRuntime) -> Result<(), Fail> {
    let alloc = rt.alloc();
    let none: [&str; 0] = [];
    let rows: [(&[&str], u8, &[u8]); 7] = [
        (&none, 0, BEST),
        (&["--workers", "1"], 0, BEST),
        (&["--workers=2"], 0, BEST),
        (&["--workers", "8", "--branch=half", "--span", "1"], 0, BEST),
        (
            &["--workers", "2", "--nodes", "0"],
            1,
            b"status limit\nbound 0\nobjective none\nend\n",
        ),
        (&["--workers", "65"], 2, b"fault words\n"),
        (
            &["--workers", "3", "--gen", "1"],
            0,
            b"status optimal\nobjective -1064\nend\n",
        ),
    ];
    for (list, status, text) in rows {
        let (ended, sink) = run_many(&rt, alloc, cover(alloc, &[])?, &words_of(alloc, list)?)?;
        assert_eq!(rt; ended.status, status);
        assert!(rt; sink.kept() == text);
        assert_eq!(rt; ended.journal.is_some(), status <= 1);
    }
    Ok(())
}

#[test]
fn workers_tell_what_is_wrong_alike(rt: HostRuntime) -> Result<(), Fail> {
    let alloc = rt.alloc();
    let two = words_of(alloc, &["--workers", "2"])?;
    // an equation that no whole numbers meet
    let even = cover(
        alloc,
        &[
            (4, b" E  R1"),
            (8, b"    Y COST 3 R1 2"),
            (11, b"    RHS R1 3"),
            (13, b" UP BND X 5"),
            (14, b" UP BND Y 5"),
        ],
    )?;
    let (ended, sink) = run_many(&rt, alloc, even, &two)?;
    assert_eq!(rt; ended.status, 0);
    assert!(rt; ended.journal.is_some());
    assert!(rt; sink.kept() == NONE);
    // a line that is no section
    let odd = cover(alloc, &[(15, b"ENDDATA")])?;
    let (ended, sink) = run_many(&rt, alloc, odd, &two)?;
    assert_eq!(rt; ended.status, 3);
    assert!(rt; ended.journal.is_none());
    assert!(rt; sink.kept() == b"fault model line 15 Section\n".as_slice());
    Ok(())
}
