//! Tests: the text of a journal.
use bl_journal::{Entry, Journal};
use bl_log::{LogFault, log_text, read_log};
use std::alloc::{AllocError, Global};
use std::test::Fail;

/// A line of each kind. The third has each of a change's seven lists.
const LINES: [&[u8]; 9] = [
    b"take 0 0\n",
    b"put 0 0 low 0 found none next split 0 4 lows 0 highs 0 drop 0 add 0 cols 0 rows 0 cuts 0\n",
    b"put 7 4294967295 low -12 found point 2 -3 0 next split 5 -4 lows 1 2 -9223372036854775808 highs 2 0 1 3 9223372036854775807 drop 2 0 3 add 2 1 4 -5 0 7 0 6 2 1 -1 0 2 cols 3 0 B 1 L 2 H rows 1 0 L cuts 1 0 B\n",
    b"put 1 2 low -170141183460469231731687303715884105728 found none next shut\n",
    b"back 1 2\n",
    b"encode 0 3 explicit\n",
    b"encode 0 3 relative\n",
    b"free 2 9 4 0\n",
    b"free 2\n",
];

/// The text of what is read of a text.
fn again(alloc: Global, text: &[u8]) -> Option<Vec<u8>> {
    if text.len() > 10_000 {
        return None;
    }
    let journal = read_log(alloc, text).ok()?;
    log_text(alloc, &journal).ok()
}

/// The line that is not read.
fn bad_line(alloc: Global, text: &[u8]) -> Option<u32> {
    if text.len() > 10_000 {
        return None;
    }
    match read_log(alloc, text) {
        Err(LogFault::Line { line }) => Some(line),
        _ => None,
    }
}

fn one_take(alloc: Global) -> Result<Vec<u8>, AllocError> {
    let mut journal = Journal::new(alloc);
    journal.reserve(1)?;
    journal.push_reserved(Entry::Take { seat: 0, id: 0 });
    log_text(alloc, &journal)
}

#[test]
fn entries_are_written_and_read(rt: HostRuntime) -> Result<(), Fail> {
    let alloc = rt.alloc();
    assert_eq!(rt; one_take(alloc)?.as_slice(), b"take 0 0\n".as_slice());
    let mut whole = Vec::new(alloc);
    for line in LINES {
        let text = again(alloc, line).expect(&rt, "the line spells an entry");
        assert_eq!(rt; text.as_slice(), line);
        whole.extend_from_slice(line)?;
    }
    let text = again(alloc, &whole).expect(&rt, "each line spells an entry");
    assert_eq!(rt; text.as_slice(), whole.as_slice());
    assert!(rt; again(alloc, b"").expect(&rt, "no line").is_empty());
    Ok(())
}

#[test]
fn other_lines_are_refused(rt: HostRuntime) -> Result<(), Fail> {
    let alloc = rt.alloc();
    let rows: [(&[u8], u32); 12] = [
        (b"take 0\n", 1),
        (b"take 0 0", 1),
        (b"take 0 0\r\n", 1),
        (b"take 0 0 \n", 1),
        (b"take 0\t0\n", 1),
        (b"take 0 0\ntake 0 01\n", 2),
        (b"take 0 0\nback 0 0\n\n", 3),
        (b"take 4294967296 0\n", 1),
        (b"put 0 0 low -0 found none next shut\n", 1),
        (b"put 0 0 low +1 found none next shut\n", 1),
        (b"put 0 0 low 1 found point 2 1 next shut\n", 1),
        (
            b"put 0 0 low 0 found none next split 0 4 lows 2 3 0 3 1 highs 0 drop 0 add 0 cols 0 rows 0 cuts 0\n",
            1,
        ),
    ];
    for (text, line) in rows {
        assert_eq!(rt; bad_line(alloc, text), Some(line), "line {line}");
    }
    Ok(())
}
