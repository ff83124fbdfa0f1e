//! Coefficients line by line: those of each row, or of each column.
use bl_fixed::Fixed;
use std::alloc::{AllocError, Global};

/// A coefficient, in units of 2^-40 once it is scaled, and the place of its column or row.
#[derive(Clone, Copy)]
pub struct Coefficient {
    pub raw: i64,
    pub place: u32,
}

impl Coefficient {
    pub fn negated(&self) -> Fixed {
        Fixed {
            raw: -i128::from(self.raw),
        }
    }
}

#[derive(Drop)]
pub struct Lines {
    // Where each line begins, and where the last one ends.
    starts: Vec<usize>,
    coefficients: Vec<Coefficient>,
}

impl Lines {
    // No line, with room for that many lines and coefficients.
    pub fn with_room(
        alloc: Global,
        lines: usize,
        coefficients: usize,
    ) -> Result<Lines, AllocError> {
        let mut starts = Vec::with_capacity(alloc, lines.saturating_add(1))?;
        starts.push(0)?;
        Ok(Lines {
            starts,
            coefficients: Vec::with_capacity(alloc, coefficients)?,
        })
    }

    // Adds a coefficient to the line that is not ended yet.
    pub fn push(&mut self, coefficient: Coefficient) -> Result<(), AllocError> {
        self.coefficients.push(coefficient)?;
        Ok(())
    }

    pub fn end_line(&mut self) -> Result<(), AllocError> {
        self.starts.push(self.coefficients.len())?;
        Ok(())
    }

    // How many lines there are.
    pub fn len(&self) -> usize {
        self.starts.len().saturating_sub(1)
    }

    pub fn coefficients(&self) -> &[Coefficient] {
        self.coefficients.as_slice()
    }

    pub fn line_mut(&mut self, number: usize) -> &mut [Coefficient] {
        let start = start_of(self.starts.as_slice(), number);
        let end = start_of(self.starts.as_slice(), number.saturating_add(1));
        match self.coefficients.as_mut_slice().get_mut(start..end) {
            Some(line) => line,
            None => &mut [],
        }
    }

    // The coefficients of a line; none past the last line.
    pub fn line(&self, number: usize) -> &[Coefficient] {
        let starts = self.starts.as_slice();
        let start = start_of(starts, number);
        let end = start_of(starts, number.saturating_add(1));
        self.coefficients.as_slice().get(start..end).unwrap_or(&[])
    }

    // The same coefficients with lines and places exchanged; `first` is the place of the first
    // line.
    pub fn transposed(
        &self,
        alloc: Global,
        lines: usize,
        first: usize,
    ) -> Result<Lines, AllocError> {
        let starts = starts_of(alloc, self.coefficients.as_slice(), lines)?;
        let mut next = Vec::from_slice(alloc, starts.as_slice())?;
        let none = Coefficient { raw: 0, place: 0 };
        let mut coefficients = Vec::from_elem(alloc, none, self.coefficients.len())?;
        for number in 0..self.len() {
            deal(
                self.line(number),
                first.saturating_add(number),
                next.as_mut_slice(),
                coefficients.as_mut_slice(),
            );
        }
        Ok(Lines {
            starts,
            coefficients,
        })
    }
}

fn start_of(starts: &[usize], number: usize) -> usize {
    starts.get(number).copied().unwrap_or(0)
}

// Where each of the lines begins that the places of these coefficients name.
fn starts_of(
    alloc: Global,
    coefficients: &[Coefficient],
    lines: usize,
) -> Result<Vec<usize>, AllocError> {
    let mut starts = Vec::from_elem(alloc, 0usize, lines.saturating_add(1))?;
    for coefficient in coefficients {
        let line = coefficient.place as usize;
        if let Some(count) = starts.get_mut(line.saturating_add(1)) {
            *count = count.saturating_add(1);
        }
    }
    let mut sum = 0usize;
    for start in starts.iter_mut() {
        sum = sum.saturating_add(*start);
        *start = sum;
    }
    Ok(starts)
}

// Puts each coefficient of a line, which gets that place, into the next position of its own new
// line.
fn deal(line: &[Coefficient], place: usize, next: &mut [usize], to: &mut [Coefficient]) {
    let place = u32::try_from(place).unwrap_or(u32::MAX);
    for coefficient in line {
        if let Some(position) = next.get_mut(coefficient.place as usize) {
            if let Some(slot) = to.get_mut(*position) {
                *slot = Coefficient {
                    raw: coefficient.raw,
                    place,
                };
            }
            *position = position.saturating_add(1);
        }
    }
}
