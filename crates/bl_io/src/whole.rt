//! Whole reads and whole writes.
ghost use Rattle.std.specs.Prelude.{◌≡◌, ◌+◌, ◌≤◌, ◌<◌, length, vec_len, OnOk, OnErr, IfOk};
ghost use Rattle.std.specs.Prelude.{IfErr, MatchResult};
ghost use Rattle.std.specs.Io.KnownBytes.{Appends, Keeps};
ghost use Rattle.bl_io.specs.Causes.{Rose, HasCause};
ghost use Rattle.bl_io.specs.Streams.{IsReadToEnd, TakesPiece, Takes, TakesAtMost, ReadsWithin};
ghost use Rattle.bl_io.specs.Streams.{AppendsPrefix};

use crate::{Failed, Sink, Source};
use std::alloc::{AllocError, Global};
use thiserror::Error;

/// Why a whole read ended early.
#[derive(Clone, Copy, Debug, PartialEq, Eq, Error)]
pub enum ReadEnd {
    /// The source failed: its count of faults rose.
    #[error("Fault")]
    Fault,
    /// One byte past the limit was taken.
    #[error("TooLong")]
    TooLong,
    /// There is not enough memory.
    #[error("Memory")]
    Memory,
}

impl From<Failed> for ReadEnd {
    ghost use Rattle.std.specs.Prelude.{◌≡◌};
    ghost use Rattle.bl_io.specs.declared.whole.ReadEnd.TheVariants.{Fault};

    ghost from_gives = { λ _ e. e ≡ Fault };

    fn from(_: Failed) -> Self {
        ReadEnd::Fault
    }
}

impl From<AllocError> for ReadEnd {
    ghost use Rattle.std.specs.Prelude.{◌≡◌};
    ghost use Rattle.bl_io.specs.declared.whole.ReadEnd.TheVariants.{Memory};

    ghost from_gives = { λ _ e. e ≡ Memory };

    fn from(_: AllocError) -> Self {
        ReadEnd::Memory
    }
}

/// How many bytes a read asks for at most.
const PIECE: usize = 65_536;

/// The bytes of a source, read to its end. It asks for at most 65,536 bytes at a time, and for
/// no more than one byte past the limit. `Fault` comes only where the source failed, `TooLong`
/// exactly where it has more bytes than the limit, and `Memory` only where neither is known: the
/// source may then have been read in part.
pub fn read_all<S: Source>(alloc: Global, source: &mut S, limit: usize) -> Result<Vec<u8>, ReadEnd>
    ensures whole { IfOk result (λ bytes. IsReadToEnd (S.left source.old) (S.left source.new)
        limit bytes.items) }
    ensures count { OnOk result (S.faults source.new ≡ S.faults source.old) }
    ensures long { IfErr result (λ e. e ≡ ReadEnd.TooLong
        → Takes (S.left source.old) (S.left source.new) (limit + 1)) }
    ensures short { IfErr result (λ e. e ≡ ReadEnd.Fault
        → TakesAtMost (S.left source.old) (S.left source.new) limit) }
    ensures fault { IfErr result
        (λ e. e ≡ ReadEnd.Fault → Rose (S.faults source.old) (S.faults source.new)) }
    ensures within { MatchResult result (λ _. ReadsWithin (S.left source.old) (S.left source.new)
        (S.faults source.old) (S.faults source.new) limit)
        (λ e. e ≡ ReadEnd.Memory → ReadsWithin (S.left source.old) (S.left source.new)
        (S.faults source.old) (S.faults source.new) limit) }
    ensures later { S.faults source.old ≤ S.faults source.new }
{
    let mut buf = zeros(alloc, PIECE)?;
    let mut bytes = Vec::new(alloc);
    loop {
        let room = limit - bytes.len();
        match read_piece(source, &mut buf, room, &mut bytes) {
            Ok(0) => return Ok(bytes),
            Ok(_) => {}
            Err(end) => return Err(end),
        }
    }
}

// A buffer. Its length stays a variable here: a list of 65,536 zeros is too long for a proof to
// look at.
fn zeros(alloc: Global, len: usize) -> Result<Vec<u8>, AllocError>
    ensures { IfOk result (λ buf. vec_len buf ≡ len) }
{
    vec![in alloc; 0u8; len]
}

// Appends the next bytes, where they fit into the room.
fn read_piece<S: Source>(
    source: &mut S,
    buf: &mut [u8],
    room: usize,
    bytes: &mut Vec<u8>,
) -> Result<usize, ReadEnd>
    requires some { 0 < length buf.old }
    ensures fits { IfOk result (λ n. n ≤ room) }
    ensures piece { IfOk result (λ n. TakesPiece (S.left source.old) (S.left source.new)
        bytes.old.items bytes.new.items n) }
    ensures count { OnOk result (S.faults source.new ≡ S.faults source.old) }
    ensures later { S.faults source.old ≤ S.faults source.new }
    ensures unread { IfErr result
        (λ e. e ≡ ReadEnd.Fault → Keeps (S.left source.old) (S.left source.new)) }
    ensures fault { IfErr result
        (λ e. e ≡ ReadEnd.Fault → Rose (S.faults source.old) (S.faults source.new)) }
    ensures long { IfErr result (λ e. e ≡ ReadEnd.TooLong
        → Takes (S.left source.old) (S.left source.new) (room + 1)) }
    ensures memory { IfErr result (λ e. e ≡ ReadEnd.Memory
        → ReadsWithin (S.left source.old) (S.left source.new) (S.faults source.old)
        (S.faults source.new) room) }
{
    let ask = room.min(buf.len() - 1) + 1;
    let piece = &mut buf[..ask];
    let count = source.read(piece)?;
    if count > room {
        return Err(ReadEnd::TooLong);
    }
    bytes.extend_from_slice(&piece[..count])?;
    Ok(count)
}

/// Hands the sink the whole text, each time all that is left of it. Where the sink fails, a
/// prefix of the text stands. Takes no memory, and does not finish the sink.
pub fn write_all<K: Sink>(sink: &mut K, text: &[u8]) -> Result<(), Failed>
    ensures whole { OnOk result (Appends (K.kept sink.old) (K.kept sink.new) text.now) }
    ensures part { OnErr result (AppendsPrefix (K.kept sink.old) (K.kept sink.new) text.now) }
    ensures cause { HasCause (K.faults sink.old) (K.faults sink.new) result }
{
    let mut done = 0;
    while done < text.len() {
        done += sink.write(&text[done..])?;
    }
    Ok(())
}
