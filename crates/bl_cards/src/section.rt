//! The sections in their order.
ghost use Rattle.std.specs.Prelude.{◌≡◌};
ghost use Rattle.bl_cards.specs.Lines.{section_of, may_follow, rank};
ghost use Rattle.bl_cards.specs.Reading.{is_end};

use crate::kind::Section;

/// The section that a word opens.
pub fn section_of(word: &[u8]) -> Option<Section>
    ensures { result ≡ section_of word.now }
{
    if word == b"NAME".as_slice() {
        Some(Section::Name)
    } else if word == b"OBJSENSE".as_slice() {
        Some(Section::Objsense)
    } else if word == b"ROWS".as_slice() {
        Some(Section::Rows)
    } else if word == b"COLUMNS".as_slice() {
        Some(Section::Columns)
    } else if word == b"RHS".as_slice() {
        Some(Section::Rhs)
    } else if word == b"RANGES".as_slice() {
        Some(Section::Ranges)
    } else if word == b"BOUNDS".as_slice() {
        Some(Section::Bounds)
    } else if word == b"ENDATA".as_slice() {
        Some(Section::End)
    } else {
        None
    }
}

/// Whether a section comes behind the one that is open, with no required one left out.
pub fn may_follow(now: Section, next: Section) -> bool
    ensures { result ≡ may_follow now next }
{
    match next {
        Section::Start => false,
        Section::Name => matches!(now, Section::Start),
        Section::Objsense => matches!(now, Section::Name),
        Section::Rows => matches!(now, Section::Name | Section::Objsense),
        Section::Columns => matches!(now, Section::Rows),
        Section::Rhs => matches!(now, Section::Columns),
        Section::Ranges => matches!(now, Section::Columns | Section::Rhs),
        Section::Bounds => matches!(now, Section::Columns | Section::Rhs | Section::Ranges),
        Section::End => {
            matches!(
                now,
                Section::Columns | Section::Rhs | Section::Ranges | Section::Bounds
            )
        }
    }
}

/// Whether the section is that of the ENDATA line.
pub fn is_end(section: Section) -> bool
    ensures { result ≡ is_end section }
{
    matches!(section, Section::End)
}
