//! Runs whose source or sink fails, whose words are missing, or whose file is cut or odd.
use crate::runs::{BEST, COVER, cover, run, words_of};
use bl_io::{MemorySink, MemorySource, ReadEnd, StdSink, StdSource, read_all};
use bl_run::{WordsFault, end_without_words, run_one};
use std::alloc::{AllocError, Global};
use std::io;
use std::io::{Error, ErrorKind, Read, Write};
use std::test::Fail;

#[test]
fn faults_of_the_outside_are_told(rt: HostRuntime) -> Result<(), Fail> {
    let alloc = rt.alloc();
    // words, and then the source is left as it was
    let mut source = MemorySource::new(cover(alloc, &[])?, 65_536, Vec::new(alloc));
    let mut sink = MemorySink::new(alloc, 65_536, 65_536, Vec::new(alloc))?;
    let words = [String::from_str(alloc, "x")?];
    assert_eq!(rt; run_one(alloc, &words, &mut source, &mut sink).status, 2);
    assert!(rt; sink.kept() == b"fault words\n".as_slice());
    // and so it is where a problem is made
    let words = words_of(alloc, &["--gen", "1", "--columns", "2", "--rows", "1"])?;
    assert_eq!(rt; run_one(alloc, &words, &mut source, &mut sink).status, 0);
    assert_eq!(rt; run_one(alloc, &[], &mut source, &mut sink).status, 0);
    // the words can't be had
    for (fault, status, line) in [
        (WordsFault::Refused, 2u8, b"fault words\n".as_slice()),
        (WordsFault::Memory, 6, b"fault memory\n"),
    ] {
        let mut sink = MemorySink::new(alloc, 65_536, 65_536, Vec::new(alloc))?;
        assert_eq!(rt; end_without_words(&mut sink, fault).status, status);
        assert!(rt; sink.kept() == line);
    }
    // the second read fails
    let mut source = MemorySource::new(cover(alloc, &[])?, 65_536, vec![in alloc; 2u32]?);
    let mut sink = MemorySink::new(alloc, 65_536, 65_536, Vec::new(alloc))?;
    assert_eq!(rt; run_one(alloc, &[], &mut source, &mut sink).status, 4);
    assert!(rt; sink.kept() == b"fault read\n".as_slice());
    // the third write fails, and so does the finish alone
    for (failing, kept) in [
        (3u32, b"status o".as_slice()),
        (
            13,
            b"status optimal\nobjective 7\ncol X 2\ncol Y 1\nend\n".as_slice(),
        ),
    ] {
        let mut source = MemorySource::new(cover(alloc, &[])?, 7, Vec::new(alloc));
        let mut sink = MemorySink::new(alloc, 4, 65_536, vec![in alloc; failing]?)?;
        assert_eq!(rt; run_one(alloc, &[], &mut source, &mut sink).status, 5);
        assert!(rt; sink.kept() == kept);
    }
    // and where the problem is written
    let mut source = MemorySource::new(cover(alloc, &[])?, 7, Vec::new(alloc));
    let mut sink = MemorySink::new(alloc, 4, 65_536, vec![in alloc; 3u32]?)?;
    let ended = run_one(
        alloc,
        &words_of(alloc, &["--write"])?,
        &mut source,
        &mut sink,
    );
    assert_eq!(rt; ended.status, 5);
    assert!(rt; ended.journal.is_none());
    assert!(rt; sink.kept() == b"NAME    ".as_slice());
    Ok(())
}

#[test]
fn whole_reads_keep_the_limit(rt: HostRuntime) -> Result<(), Fail> {
    let alloc = rt.alloc();
    for (limit, want) in [(2usize, Err(ReadEnd::TooLong)), (3, Ok(3usize))] {
        let mut source = MemorySource::new(b"abc".to_vec(alloc)?, 2, Vec::new(alloc));
        let got = match read_all(alloc, &mut source, limit) {
            Ok(bytes) => Ok(bytes.len()),
            Err(end) => Err(end),
        };
        assert!(rt; got == want);
    }
    for (end, name) in [
        (ReadEnd::Fault, "Fault"),
        (ReadEnd::TooLong, "TooLong"),
        (ReadEnd::Memory, "Memory"),
    ] {
        let text = format!(in alloc; "{end}")?;
        assert!(rt; text.as_str() == name);
    }
    Ok(())
}

/// A reader whose reads fail.
#[derive(Drop)]
struct BrokenReader {}

impl Read for BrokenReader {
    fn read(&mut self, _buf: &mut [u8]) -> io::Result<usize> {
        Err(Error::from(ErrorKind::BrokenPipe))
    }
}

/// A writer whose writes take nothing or fail, or else whose flush fails.
#[derive(Drop)]
struct BrokenWriter {
    takes_nothing: bool,
    writes_fail: bool,
}

impl Write for BrokenWriter {
    fn write(&mut self, buf: &[u8]) -> io::Result<usize> {
        if self.writes_fail {
            return Err(Error::from(ErrorKind::BrokenPipe));
        }
        if self.takes_nothing {
            return Ok(0);
        }
        Ok(buf.len())
    }

    fn flush(&mut self) -> io::Result<()> {
        Err(Error::from(ErrorKind::BrokenPipe))
    }
}

#[test]
fn readers_and_writers_of_the_library_are_followed(rt: HostRuntime) -> Result<(), Fail> {
    let alloc = rt.alloc();
    let bytes = cover(alloc, &[])?;
    // what is read and written
    let mut source = StdSource::new(bytes.as_slice());
    let mut written = Vec::new(alloc);
    let mut sink = StdSink::new(&mut written);
    assert_eq!(rt; run_one(alloc, &[], &mut source, &mut sink).status, 0);
    assert!(rt; written.as_slice() == BEST);
    // a reader that fails
    let mut source = StdSource::new(BrokenReader {});
    let mut written = Vec::new(alloc);
    let mut sink = StdSink::new(&mut written);
    assert_eq!(rt; run_one(alloc, &[], &mut source, &mut sink).status, 4);
    assert!(rt; written.as_slice() == b"fault read\n".as_slice());
    // writers that fail
    for (takes_nothing, writes_fail) in [(true, false), (false, true), (false, false)] {
        let mut source = StdSource::new(bytes.as_slice());
        let mut sink = StdSink::new(BrokenWriter {
            takes_nothing,
            writes_fail,
        });
        assert_eq!(rt; run_one(alloc, &[], &mut source, &mut sink).status, 5);
    }
    Ok(())
}

#[test]
fn each_write_fails_once(rt: HostRuntime) -> Result<(), Fail> {
    let alloc = rt.alloc();
    // twelve writes of four bytes, and the finish; the call after that is not made
    for done in 0..14u32 {
        let mut source = MemorySource::new(cover(alloc, &[])?, 65_536, Vec::new(alloc));
        let mut sink = MemorySink::new(alloc, 4, 65_536, vec![in alloc; done + 1]?)?;
        let status = if done < 13 { 5 } else { 0 };
        assert_eq!(rt; run_one(alloc, &[], &mut source, &mut sink).status, status);
        let count = BEST.len().min(4 * done as usize);
        assert!(rt;
            Some(sink.kept()) == BEST.get(..count),
            "after {done} writes"
        );
    }
    Ok(())
}

#[test]
fn each_read_fails_once(rt: HostRuntime) -> Result<(), Fail> {
    let alloc = rt.alloc();
    let size = cover(alloc, &[])?.len();
    // each hundred bytes, and the end
    let reads = size.div_ceil(100).min(1_000) as u32 + 1;
    for read in 1..=reads + 1 {
        let mut source = MemorySource::new(cover(alloc, &[])?, 100, vec![in alloc; read]?);
        let mut sink = MemorySink::new(alloc, 65_536, 65_536, Vec::new(alloc))?;
        let ended = run_one(alloc, &[], &mut source, &mut sink);
        let (status, text) = if read <= reads {
            (4, b"fault read\n".as_slice())
        } else {
            (0, BEST)
        };
        assert_eq!(rt; ended.status, status, "read {read}");
        assert!(rt; sink.kept() == text);
    }
    Ok(())
}

/// The faults of the covering model where it is cut within a line: the line, from how many of
/// its bytes on, and the fault. Where none is named the end is missing.
const CUTS: [(usize, usize, &str); 38] = [
    (1, 1, "Section"),
    (1, 4, "NoEnd"),
    (2, 1, "Section"),
    (2, 4, "NoEnd"),
    (3, 2, "Words"),
    (3, 5, "NoEnd"),
    (4, 2, "Words"),
    (4, 5, "NoEnd"),
    (5, 1, "Section"),
    (5, 7, "NoEnd"),
    (6, 5, "Words"),
    (6, 35, "Marker"),
    (6, 60, "NoEnd"),
    (7, 5, "Words"),
    (7, 34, "NoEnd"),
    (7, 38, "Words"),
    (7, 57, "NoEnd"),
    (8, 5, "Words"),
    (8, 34, "NoEnd"),
    (8, 38, "Words"),
    (8, 57, "NoEnd"),
    (9, 5, "Words"),
    (9, 35, "Marker"),
    (9, 60, "NoEnd"),
    (10, 1, "Section"),
    (10, 3, "NoEnd"),
    (11, 5, "Words"),
    (11, 15, "UnknownRow"),
    (11, 34, "NoEnd"),
    (12, 1, "Section"),
    (12, 6, "NoEnd"),
    (13, 2, "Words"),
    (13, 15, "UnknownColumn"),
    (13, 33, "NoEnd"),
    (14, 2, "Words"),
    (14, 15, "UnknownColumn"),
    (14, 33, "NoEnd"),
    (15, 1, "Section"),
];

/// The fault of the covering model where so many bytes of a line, counted from 1, are its last
/// ones.
fn fault_of_cut(line: usize, taken: usize) -> &'static str {
    let mut fault = "NoEnd";
    for (of, from, name) in CUTS {
        if of == line && from <= taken {
            fault = name;
        }
    }
    fault
}

/// The line that tells the fault. A missing end is told at the line after the last one, and
/// bytes of a line make it one.
fn cut_text(alloc: Global, line: usize, taken: usize) -> Result<String, AllocError> {
    let fault = fault_of_cut(line, taken);
    let is_after = fault == "NoEnd" && taken > 0;
    let told = if is_after {
        line.saturating_add(1)
    } else {
        line
    };
    format!(in alloc; "fault model line {told} {fault}\n")
}

/// The first count of bytes of a line at which the covering model, cut there, is not told as it
/// is to be.
fn first_untold(
    alloc: Global,
    before: &[u8],
    line: usize,
    bytes: &[u8],
) -> Result<Option<usize>, AllocError> {
    for taken in 0..=bytes.len() {
        let mut text = before.to_vec(alloc)?;
        text.extend_from_slice(&bytes[..taken])?;
        let (status, sink) = run(alloc, text, &[])?;
        let want = cut_text(alloc, line, taken)?;
        if status != 3 || sink.kept() != want.as_bytes() {
            return Ok(Some(taken));
        }
    }
    Ok(None)
}

#[test]
fn cut_files_are_refused(rt: HostRuntime) -> Result<(), Fail> {
    let alloc = rt.alloc();
    let mut before = Vec::new(alloc);
    for line in 1..=15usize {
        let bytes = COVER[line - 1];
        // the last line without its last letter is the last cut
        let cut = if line < 15 {
            bytes
        } else {
            b"ENDAT".as_slice()
        };
        assert_eq!(rt;
            first_untold(alloc, &before, line, cut)?,
            None,
            "line {line}"
        );
        before.extend_from_slice(bytes)?;
        before.extend_from_slice(b"\n")?;
    }
    Ok(())
}

/// A file with so many columns of cost -1 and no row, named by the numbers from 1 on.
fn with_columns(alloc: Global, count: u32) -> Result<Vec<u8>, AllocError> {
    let mut text = b"NAME\nROWS\n N  COST\nCOLUMNS\n M 'MARKER' 'INTORG'\n".to_vec(alloc)?;
    for number in 1..=count {
        let line = format!(in alloc; " {number} COST -1\n")?;
        text.extend_from_slice(line.as_bytes())?;
    }
    text.extend_from_slice(b" M 'MARKER' 'INTEND'\nENDATA\n")?;
    Ok(text)
}

#[test]
fn long_lines_and_many_columns_are_told(rt: HostRuntime) -> Result<(), Fail> {
    let alloc = rt.alloc();
    let (status, sink) = run(alloc, with_columns(alloc, 1001)?, &[])?;
    assert_eq!(rt; status, 3);
    assert!(rt; sink.kept() == b"fault model line 1006 TooMany\n".as_slice());
    let (status, sink) = run(alloc, with_columns(alloc, 1000)?, &[])?;
    assert_eq!(rt; status, 0);
    assert!(rt;
        sink.kept()
            .starts_with(b"status optimal\nobjective -1000\ncol 1 1\n")
    );
    // a line of 100,000 words
    let mut text = Vec::new(alloc);
    for line in COVER[..6].iter() {
        text.extend_from_slice(line)?;
        text.extend_from_slice(b"\n")?;
    }
    for _ in 0..100_000 {
        text.extend_from_slice(b" X")?;
    }
    let (status, sink) = run(alloc, text, &[])?;
    assert_eq!(rt; status, 3);
    assert!(rt; sink.kept() == b"fault model line 7 Words\n".as_slice());
    Ok(())
}
