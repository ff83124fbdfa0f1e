//! Mathematics: the factor of a basis: a square matrix, kept with a product of elementary factors
//! that solves for it.
#![tactic(auto)]

mod anew;
mod division;
mod eta;
mod ordering;
mod others;
mod pattern;
mod sparse;
mod support;

use crate::eta::Eta;
pub use crate::sparse::Entry;
use bl_fixed::Fixed;
use std::alloc::{AllocError, Global};
use std::marker::Model;

/// After this many replacements the product is made anew.
const MOST_REPLACEMENTS: usize = 100;

/// After this many it is made anew where it has grown much.
const SOME_REPLACEMENTS: usize = 20;

/// Grown much: more than so many times the entries that it had when it was last made anew, and
/// more than so many per row.
const GROWTH: usize = 4;

const ENTRIES_PER_ROW: usize = 20;

/// A square matrix with a product of elementary factors. Each factor swaps two entries, divides
/// one by its pivot and takes its multiples off the others, and a number that leaves its range
/// becomes the nearest end of it.
#[derive(Drop)]
pub struct Factor {
    alloc: Global,
    // None for the unit column of its place.
    columns: Vec<Option<Vec<Entry>>>,
    etas: Vec<Eta>,
    // How many factors and entries the product had when it was last made anew, or that was last
    // tried.
    fresh: usize,
    fresh_entries: usize,
}

impl Model for Factor {
    ghost use Rattle.bl_factor.specs.Factored.{Factored};

    ghost Value = { Factored };

    ghost use Rattle.bl_factor.specs.Kept.{factored_of, IsKept};

    ghost view = { factored_of };

    ghost invariant = { IsKept };
}

#[tactic(auto, using(crate::proofs::KeptLemmas::wholes_length))]
impl Factor {
    ghost use Rattle.std.specs.Prelude.{◌≡◌, ◌<◌, ◌^◌, ◌⊎◌, ◌++◌, ◌∷◌, [], List, length, vec_len};
    ghost use Rattle.std.specs.Prelude.{slice_set, IfOk, IfSome, IfNone, OnOk, OnErr};
    ghost use Rattle.bl_factor.specs.Sparse.{IsSparse, AreColumns, dense, matrix_of};
    ghost use Rattle.bl_fixed.specs.declared.Fixed.{Fixed};
    ghost use Rattle.bl_factor.specs.Vectors.{at, IsPivot};
    ghost use Rattle.bl_factor.specs.Etas.{IsEta};
    ghost use Rattle.bl_factor.specs.Factored.{size_of, image_of, transposed_image_of, unit_matrix};

    /// The unit matrix with that many columns.
    pub fn identity(alloc: Global, size: u32) -> Result<Factor, AllocError>
        ensures value { IfOk result
            (λ factor. factor ≡ record { matrix = unit_matrix size; steps = [] }) }
        ensures size { IfOk result (λ factor. size_of factor ≡ size) }
        ensures image { IfOk result (λ factor. (right : List Fixed) → image_of factor right
            ≡ right) }
    {
        let mut columns = Vec::with_capacity(alloc, size as usize)?;
        for place in 0..size {
            columns.push(None)?;
        }
        Ok(Factor {
            alloc,
            columns,
            etas: Vec::new(alloc),
            fresh: 0,
            fresh_entries: 0,
        })
    }

    /// The matrix with these columns, each by its entries, of rising places below their number
    /// and without zeros, or None for the unit column of its place. The answer is None where no
    /// product is found for the matrix: this is free.
    pub fn from_columns(
        alloc: Global,
        columns: Vec<Option<Vec<Entry>>>,
    ) -> Result<Option<Factor>, AllocError>
        requires short { vec_len columns < 2 ^ 32 }
        requires sparse { AreColumns (vec_len columns) columns.items }
        ensures matrix { IfOk result (λ made. IfSome made
            (λ factor. factor.matrix ≡ matrix_of (vec_len columns) columns.items)) }
    {
        match anew::made_anew(alloc, columns.as_slice())? {
            Some(etas) => {
                let fresh = etas.len();
                let fresh_entries = eta::entry_count(etas.as_slice());
                Ok(Some(Factor {
                    alloc,
                    columns,
                    etas,
                    fresh,
                    fresh_entries,
                }))
            }
            None => Ok(None),
        }
    }

    /// How many columns the matrix has.
    pub fn size(&self) -> usize
        ensures { result ≡ size_of self.now }
    {
        self.columns.len()
    }

    /// Leaves in `right`, which has one entry per row, its image, which has one per column: but
    /// for rounding the matrix times the image is `right`.
    pub fn solve(&self, right: &mut [Fixed]) -> Result<(), AllocError>
        requires { length right.old ≡ size_of self.now }
        ensures { OnOk result (right.new ≡ image_of self.now right.old) }
    {
        eta::apply_all(self.etas.as_slice(), right);
        Ok(())
    }

    /// The same for the transposed matrix: `right` has one entry per column, and its image one
    /// per row.
    pub fn solve_transposed(&self, right: &mut [Fixed]) -> Result<(), AllocError>
        requires { length right.old ≡ size_of self.now }
        ensures { OnOk result (right.new ≡ transposed_image_of self.now right.old) }
    {
        eta::apply_all_transposed(self.etas.as_slice(), right);
        Ok(())
    }

    /// Puts `column`, whose image has at `place` a raw size of at least 2^20, into the matrix at
    /// that place. The product gets a factor for it, or is made anew from the matrix.
    pub fn replace(&mut self, place: u32, column: &[Fixed]) -> Result<(), AllocError>
        requires place_in { place < size_of self.old }
        requires long { length column.now ≡ size_of self.old }
        requires pivot { IsPivot (at (image_of self.old column.now) place) }
        ensures matrix { OnOk result
            (self.new.matrix ≡ slice_set self.old.matrix place column.now) }
        ensures size { size_of self.new ≡ size_of self.old }
        ensures err { OnErr result (self.new ≡ self.old) }
    {
        let entries = sparse::entries_of(self.alloc, column)?;
        let mut image = Vec::from_slice(self.alloc, column)?;
        self.solve(image.as_mut_slice())?;
        self.replace_solved(place, entries, image.as_slice())
    }

    /// The same for a column by its entries, where `image` is its image, or near it: nothing is
    /// solved for again.
    pub fn replace_solved(
        &mut self,
        place: u32,
        entries: Vec<Entry>,
        image: &[Fixed],
    ) -> Result<(), AllocError>
        requires place_in { place < size_of self.old }
        requires sparse { IsSparse 0 (size_of self.old) entries.items }
        requires image_long { length image.now ≡ size_of self.old }
        requires pivot { IsPivot (at image.now place) }
        ensures matrix { OnOk result (self.new.matrix
            ≡ slice_set self.old.matrix place (dense (size_of self.old) entries.items)) }
        ensures size { size_of self.new ≡ size_of self.old }
        ensures err { OnErr result (self.new ≡ self.old) }
    {
        self.extend(place as usize, entries, image)?;
        if self.is_due() {
            self.renew();
            self.count_as_fresh();
        }
        Ok(())
    }

    // Puts the column in, and adds a factor for it.
    fn extend(
        &mut self,
        place: usize,
        entries: Vec<Entry>,
        image: &[Fixed],
    ) -> Result<(), AllocError>
        requires place_in { place < size_of self.old }
        requires sparse { IsSparse 0 (size_of self.old) entries.items }
        requires image_long { length image.now ≡ size_of self.old }
        requires pivot { IsPivot (at image.now place) }
        ensures matrix { OnOk result (self.new.matrix
            ≡ slice_set self.old.matrix place (dense (size_of self.old) entries.items)) }
        ensures size { size_of self.new ≡ size_of self.old }
        ensures err { OnErr result (self.new ≡ self.old) }
    {
        let eta = self.replacing(place, image)?;
        self.etas.push(eta)?;
        self.columns[place] = Some(entries);
        Ok(())
    }

    // The factor for a column that is put in, of which this is the image.
    fn replacing(&self, place: usize, image: &[Fixed]) -> Result<Eta, AllocError>
        requires place_in { place < size_of self.now }
        requires image_long { length image.now ≡ size_of self.now }
        requires pivot { IsPivot (at image.now place) }
        ensures { IfOk result (IsEta (size_of self.now)) }
    {
        let places = support::places_of(self.alloc, image)?;
        eta::make(self.alloc, image, places.as_slice(), place, place)
    }

    // Whether the product is to be made anew.
    fn is_due(&self) -> bool {
        let replacements = self.etas.len().saturating_sub(self.fresh);
        replacements >= MOST_REPLACEMENTS || (replacements >= SOME_REPLACEMENTS && self.has_grown())
    }

    // Whether the product has grown much since it was last made anew, or that was last tried.
    fn has_grown(&self) -> bool {
        let fresh = self.fresh.min(self.etas.len());
        let added = eta::entry_count(&self.etas.as_slice()[fresh..]);
        let entries = self.fresh_entries.saturating_add(added);
        entries > self.fresh_entries.saturating_mul(GROWTH)
            && entries > self.columns.len().saturating_mul(ENTRIES_PER_ROW)
    }

    // Makes the product anew from the matrix; it stays where that finds no pivot or no memory.
    fn renew(&mut self)
        ensures { self.new.matrix ≡ self.old.matrix }
    {
        if let Ok(Some(etas)) = anew::made_anew(self.alloc, self.columns.as_slice()) {
            self.etas = etas;
        }
    }

    // Counts replacements and entries from here on.
    fn count_as_fresh(&mut self)
        ensures { self.new ≡ self.old }
    {
        self.fresh = self.etas.len();
        self.fresh_entries = eta::entry_count(self.etas.as_slice());
    }
}

#[cfg(test)]
mod tests;
