//! Texts that are read as journals.
ghost use Rattle.std.specs.Prelude.{◌⊎◌, ◌≡◌, ◌≢◌, ◌<◌, ◌^◌, ◌++◌, ◌∷◌, ℕ, List, length, All};
ghost use Rattle.std.specs.Prelude.{Err, IfOk, MatchOption, MatchResult};
ghost use Rattle.bl_journal.specs.declared.entry.Entry.{Entry as AnyEntry};
ghost use Rattle.bl_log.specs.declared.fault.LogFault.TheVariants.{Line, Memory};
ghost use Rattle.bl_log.specs.declared.fault.Miss.TheVariants.{Words};
ghost use Rattle.bl_log.specs.Log.{line_of, text_of};
ghost use Rattle.bl_log.specs.Fits.{Fits};
ghost use Rattle.bl_log.specs.Laws.{IsFirstBad, SpellsNone};

use crate::fault::{LogFault, Miss};
use crate::text::push_line;
use crate::values::read_entry;
use bl_journal::{Entry, Journal};
use bl_text::lines;
use std::alloc::{AllocError, Global};

/// The journal whose text this is, of fewer than 2^32 bytes. `Line` tells the first line that
/// spells no entry, counted from 1, and comes exactly where there is one; a last line without
/// its line feed spells none. `Memory` comes only for want of memory.
pub fn read_log(alloc: Global, bytes: &[u8]) -> Result<Journal, LogFault>
    requires short { length bytes.now < 2 ^ 32 }
    ensures text { IfOk result (λ journal. bytes.now ≡ text_of journal.entries) }
    ensures fits { IfOk result (λ journal. All Fits journal.entries) }
    ensures line { (n : ℕ) → result ≡ Err (Line n) → IsFirstBad bytes.now n }
    ensures exact { (n : ℕ) → IsFirstBad bytes.now n
        → MatchResult result (λ _. ⊥) (λ fault. (fault ≡ Line n) ⊎ (fault ≡ Memory)) }
    ensures back { (entries : List AnyEntry) → All Fits entries → bytes.now ≡ text_of entries
        → MatchResult result (λ journal. journal.entries ≡ entries) (λ fault. fault ≡ Memory) }
{
    read_lines(alloc, bytes)
}

// The journal of the lines.
fn read_lines(alloc: Global, bytes: &[u8]) -> Result<Journal, LogFault>
    requires short { length bytes.now < 2 ^ 32 }
    ensures text { IfOk result (λ journal. bytes.now ≡ text_of journal.entries) }
    ensures fits { IfOk result (λ journal. All Fits journal.entries) }
    ensures line { (n : ℕ) → result ≡ Err (Line n) → IsFirstBad bytes.now n }
{
    let mut journal = Journal::new(alloc);
    let mut text = String::new(alloc);
    let mut rest = bytes;
    while !rest.is_empty() {
        match read_line(alloc, &mut text, rest) {
            Ok((entry, tail)) => {
                if journal.reserve(1).is_err() {
                    return Err(LogFault::Memory);
                }
                journal.push_reserved(entry);
                rest = tail;
            }
            Err(Miss::Words) => {
                return Err(LogFault::Line {
                    line: journal.len() as u32 + 1,
                });
            }
            Err(Miss::Memory) => return Err(LogFault::Memory),
        }
    }
    Ok(journal)
}

// The entry that the first line spells, and what comes behind this line. `text` is room for a line.
fn read_line<'a>(
    alloc: Global,
    text: &mut String,
    rest: &'a [u8],
) -> Result<(Entry, &'a [u8]), Miss>
    requires short { length rest.now < 2 ^ 32 }
    ensures line { IfOk result (λ read. rest.now ≡ line_of read.0 ++ 10 ∷ read.1.now) }
    ensures fits { IfOk result (λ read. Fits read.0) }
    ensures none { result ≡ Err Words → SpellsNone rest.now }
{
    let mut walk = lines(rest);
    let Some(line) = walk.next() else {
        return Err(Miss::Words);
    };
    let entry = read_entry(alloc, line.bytes)?;
    match behind(text, &entry, rest)? {
        Some(tail) => Ok((entry, tail)),
        None => Err(Miss::Words),
    }
}

// What comes behind the line of an entry, where the bytes begin with it.
fn behind<'a>(
    text: &mut String,
    entry: &Entry,
    rest: &'a [u8],
) -> Result<Option<&'a [u8]>, AllocError>
    ensures { IfOk result (λ found. MatchOption found
        ((tail : List ℕ) → rest.now ≢ line_of entry.now ++ 10 ∷ tail)
        (λ tail. rest.now ≡ line_of entry.now ++ 10 ∷ tail.now)) }
{
    text.clear();
    push_line(text, entry)?;
    text.push_str("\n")?;
    Ok(rest.strip_prefix(text.as_bytes()))
}
