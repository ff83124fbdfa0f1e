//! The ROWS section.
ghost use Rattle.std.specs.Prelude.{◌≡◌, map, [], ◌∷◌, ◌++◌, None, length, OnOk, OnErr};
ghost use Rattle.std.specs.Prelude.{slice_index_or, ◌<◌, true, nat_le, if◌then◌else◌, is_some};
ghost use Rattle.std.specs.Prelude.{IfSome};
ghost use Rattle.bl_cards.specs.Said.{RowLine};
ghost use Rattle.bl_cards.specs.Lines.{role_of, role_for, rows_line, is_limited, is_objective};
ghost use Rattle.bl_cards.specs.Lines.{has_objective, count_limited, objective_in};
ghost use Rattle.bl_cards.specs.Views.{Follows};

use crate::fault::LineFault;
use crate::hashing::FileHash;
use crate::kind::{Role, What};
use crate::names::Names;
use std::alloc::{AllocError, Global};
use std::marker::Model;

/// The rows of a file so far, the objective and further rows without ends among them.
#[derive(Drop)]
pub struct Rows<'a> {
    names: Names<'a>,
    roles: Vec<Role>,
    /// How many rows have ends.
    limited: usize,
    had_objective: bool,
}

impl<'a> Model for Rows<'a> {
    ghost use Rattle.std.specs.Prelude.{List};
    ghost use Rattle.bl_cards.specs.Said.{RowLine};
    ghost use Rattle.bl_cards.specs.Views.{row_lines, AreKept};

    ghost Value = { List RowLine };

    ghost view = { λ r. row_lines r.names r.roles.items };

    ghost invariant = { λ r. AreKept r.names r.roles.items r.limited r.had_objective };
}

/// What a row of this kind is for.
fn role_for(kind: &[u8], had_objective: bool) -> Option<Role>
    ensures { result ≡ role_for kind.now had_objective }
{
    if kind == b"N".as_slice() {
        Some(if had_objective {
            Role::Extra
        } else {
            Role::Objective
        })
    } else if kind == b"L".as_slice() {
        Some(Role::AtMost)
    } else if kind == b"G".as_slice() {
        Some(Role::AtLeast)
    } else if kind == b"E".as_slice() {
        Some(Role::Equal)
    } else {
        None
    }
}

/// Whether a row is the objective.
pub fn is_objective(role: Role) -> bool
    ensures { result ≡ is_objective role }
{
    matches!(role, Role::Objective)
}

/// Whether a row has ends.
pub fn is_limited(role: Role) -> bool
    ensures { result ≡ is_limited role }
{
    !matches!(role, Role::Objective | Role::Extra)
}

/// One for a row with ends, else none.
fn limited_by(role: Role) -> usize
    ensures { result ≡ (if is_limited role then 1 else 0) }
{
    if is_limited(role) { 1 } else { 0 }
}

impl<'a> Rows<'a> {
    pub(crate) fn new(alloc: Global, hash: FileHash) -> Rows<'a>
        ensures { result ≡ [] }
    {
        Rows {
            names: Names::new(alloc, hash),
            roles: Vec::new(alloc),
            limited: 0,
            had_objective: false,
        }
    }

    /// What the row of this name is for.
    pub(crate) fn role(&self, name: &[u8]) -> Option<Role>
        ensures { result ≡ role_of self.now name.now }
    {
        let place = self.names.find(name)?;
        Some(self.roles[place])
    }

    /// The names, in order.
    pub fn names(&self) -> &Names<'a>
        ensures { result.now ≡ map (λ r. r.name) self.now }
    {
        &self.names
    }

    /// The name of the row at a place.
    pub fn name(&self, place: usize) -> &'a [u8]
        requires { place < length self.now }
        ensures { (d : RowLine) → result.now ≡ (slice_index_or self.now place d).name }
    {
        self.names.name(place)
    }

    /// What the row at a place is for.
    pub fn role_at(&self, place: usize) -> Role
        requires { place < length self.now }
        ensures { (d : RowLine) → result ≡ (slice_index_or self.now place d).role }
    {
        self.roles[place]
    }

    /// How many rows there are.
    pub fn len(&self) -> usize
        ensures { result ≡ length self.now }
    {
        self.names.len()
    }

    /// The place of the objective.
    pub fn objective(&self) -> Option<usize>
        ensures test { is_some result ≡ has_objective self.now }
        ensures place { IfSome result (λ place. place < length self.now) }
        ensures name { IfSome result (λ place. (d : RowLine)
            → (slice_index_or self.now place d).name ≡ objective_in self.now) }
    {
        for place in 0..self.len() {
            if is_objective(self.role_at(place)) {
                return Some(place);
            }
        }
        None
    }

    /// What a further row of this kind is for.
    fn next_role(&self, kind: &[u8]) -> Option<Role>
        ensures { result ≡ role_for kind.now (has_objective self.now) }
    {
        role_for(kind, self.had_objective)
    }

    /// Whether no further row with ends fits.
    fn is_full(&self) -> bool
        ensures { result ≡ nat_le 1000 (count_limited self.now) }
    {
        self.limited >= 1000
    }

    /// Puts a new row at the end.
    fn push(&mut self, name: &'a [u8], role: Role) -> Result<(), AllocError>
        requires new { role_of self.old name.now ≡ None }
        requires few { is_limited role ≡ true → count_limited self.old < 1000 }
        ensures ok { OnOk result (self.new ≡ self.old ++ record { name = name.now; role = role }
            ∷ []) }
        ensures err { OnErr result (self.new ≡ self.old) }
    {
        self.roles.reserve(1)?;
        self.names.add(name)?;
        self.roles.push_reserved(role);
        self.limited += limited_by(role);
        self.had_objective |= is_objective(role);
        Ok(())
    }

    /// Takes a kind and a name.
    fn take(&mut self, kind: &[u8], name: &'a [u8]) -> Result<(), LineFault>
        ensures { Follows result (rows_line self.old (kind.now ∷ name.now ∷ [])) self.new }
    {
        let Some(role) = self.next_role(kind) else {
            return Err(LineFault::Broken(What::Words));
        };
        if self.role(name).is_some() {
            return Err(LineFault::Broken(What::Twice));
        }
        if name == b"'MARKER'".as_slice() {
            return Err(LineFault::Broken(What::Marker));
        }
        if is_limited(role) && self.is_full() {
            return Err(LineFault::Broken(What::TooMany));
        }
        self.push(name, role)?;
        Ok(())
    }

    /// Takes the words of a line of the section.
    pub(crate) fn line(&mut self, words: &[&'a [u8]]) -> Result<(), LineFault>
        ensures { Follows result (rows_line self.old (map (λ w. w.now) words.now)) self.new }
    {
        match words {
            [kind, name] => self.take(kind, name),
            _ => Err(LineFault::Broken(What::Words)),
        }
    }
}
