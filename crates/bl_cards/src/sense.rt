//! The OBJSENSE section.
ghost use Rattle.std.specs.Prelude.{◌≡◌, map};
ghost use Rattle.bl_cards.specs.Lines.{sense_of, sense_word, sense_line, sense_or_min};
ghost use Rattle.bl_cards.specs.Lines.{lacks_word, opened_sense};
ghost use Rattle.bl_cards.specs.Views.{Gives};

use crate::fault::LineFault;
use crate::kind::{Section, What};
use bl_problem::Sense;

/// What a word asks for.
fn sense_of(word: &[u8]) -> Option<Sense>
    ensures { result ≡ sense_of word.now }
{
    if word == b"MAX".as_slice() || word == b"MAXIMIZE".as_slice() {
        Some(Sense::Max)
    } else if word == b"MIN".as_slice() || word == b"MINIMIZE".as_slice() {
        Some(Sense::Min)
    } else {
        None
    }
}

/// The sense that a word names.
fn sense_word(word: &[u8]) -> Result<Option<Sense>, LineFault>
    ensures { Gives result (sense_word word.now) }
{
    match sense_of(word) {
        Some(sense) => Ok(Some(sense)),
        None => Err(LineFault::Broken(What::Words)),
    }
}

/// The sense behind a data line of the section, which has one word.
pub fn sense_line(said: Option<Sense>, words: &[&[u8]]) -> Result<Option<Sense>, LineFault>
    ensures { Gives result (sense_line said (map (λ w. w.now) words.now)) }
{
    match words {
        [word] => match sense_word(word) {
            Ok(_) if said.is_some() => Err(LineFault::Broken(What::Twice)),
            Ok(sense) => Ok(sense),
            Err(fault) => Err(fault),
        },
        _ => Err(LineFault::Broken(What::Words)),
    }
}

/// The sense behind a section line, from the words behind the section's name.
pub fn opened_sense(
    section: Section,
    said: Option<Sense>,
    words: &[&[u8]],
) -> Result<Option<Sense>, LineFault>
    ensures { Gives result (opened_sense section said (map (λ w. w.now) words.now)) }
{
    match words {
        [word, ..] if matches!(section, Section::Objsense) => sense_word(word),
        _ => Ok(said),
    }
}

/// Whether OBJSENSE is open and its word did not come.
pub fn lacks_word(section: Section, said: Option<Sense>) -> bool
    ensures { result ≡ lacks_word section said }
{
    matches!(section, Section::Objsense) && said.is_none()
}

/// What was asked for: the least value without OBJSENSE.
pub fn sense_or_min(said: Option<Sense>) -> Sense
    ensures { result ≡ sense_or_min said }
{
    said.unwrap_or(Sense::Min)
}
