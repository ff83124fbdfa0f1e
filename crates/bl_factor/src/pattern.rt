// A square pattern of entries as bits, by rows and by columns.
use std::alloc::{AllocError, Global};

/// The bits of some lines, and how many each line has.
#[derive(Drop)]
pub(crate) struct Lines {
    // The words of a line.
    words: usize,
    bits: Vec<u64>,
    pub counts: Vec<u32>,
    // The words of the line that is being eliminated.
    source: Vec<u64>,
}

impl Lines {
    fn new(alloc: Global, size: usize) -> Result<Lines, AllocError> {
        let words = size.div_ceil(64);
        Ok(Lines {
            words,
            bits: Vec::from_elem(alloc, 0u64, size.saturating_mul(words))?,
            counts: Vec::from_elem(alloc, 0u32, size)?,
            source: Vec::from_elem(alloc, 0u64, words)?,
        })
    }

    // Adds a bit that is not there.
    fn insert(&mut self, line: usize, place: usize) {
        let index = self.word_of(line, place);
        if let Some(word) = self.bits.get_mut(index) {
            *word |= 1u64 << (place & 63);
        }
        if let Some(count) = self.counts.get_mut(line) {
            *count = count.wrapping_add(1);
        }
    }

    fn clear(&mut self, line: usize, place: usize) {
        let index = self.word_of(line, place);
        if let Some(word) = self.bits.get_mut(index) {
            *word &= !(1u64 << (place & 63));
        }
    }

    // Where the word of a place stands.
    fn word_of(&self, line: usize, place: usize) -> usize {
        line.wrapping_mul(self.words).wrapping_add(place >> 6)
    }

    // Puts the places of a line's bits into a list.
    pub(crate) fn members(&self, line: usize, list: &mut Vec<usize>) -> Result<(), AllocError> {
        list.clear();
        let start = line.wrapping_mul(self.words);
        for index in 0..self.words {
            push_bits(list, index, self.word_at(start.wrapping_add(index)))?;
        }
        Ok(())
    }

    fn word_at(&self, index: usize) -> u64 {
        self.bits.get(index).copied().unwrap_or(0)
    }

    // Takes a place out of a line and out of the others that have it, which get the bits that
    // are left in the line. The line counts no longer.
    fn eliminate(&mut self, line: usize, place: usize, others: &[usize]) {
        self.clear(line, place);
        copy_line(
            self.source.as_mut_slice(),
            line_at(self.bits.as_slice(), line, self.words),
        );
        for other in others {
            if *other != line {
                self.clear(*other, place);
                self.merge(*other);
            }
        }
        if let Some(count) = self.counts.get_mut(line) {
            *count = u32::MAX;
        }
    }

    // Gives a line the bits of the one that is being eliminated.
    fn merge(&mut self, line: usize) {
        let start = line.wrapping_mul(self.words);
        let end = start.wrapping_add(self.words);
        if let Some(target) = self.bits.as_mut_slice().get_mut(start..end) {
            let ones = unite(target, self.source.as_slice());
            if let Some(count) = self.counts.get_mut(line) {
                *count = ones;
            }
        }
    }
}

// The words of a line.
fn line_at(bits: &[u64], line: usize, words: usize) -> &[u64] {
    let start = line.wrapping_mul(words);
    bits.get(start..start.wrapping_add(words)).unwrap_or(&[])
}

fn copy_line(to: &mut [u64], from: &[u64]) {
    for (word, source) in to.iter_mut().zip(from.iter()) {
        *word = *source;
    }
}

// Gives a line the bits of another one, and tells how many it has then.
fn unite(to: &mut [u64], from: &[u64]) -> u32 {
    let mut ones = 0u32;
    for (word, source) in to.iter_mut().zip(from.iter()) {
        *word |= *source;
        ones = ones.wrapping_add(word.count_ones());
    }
    ones
}

fn push_bits(list: &mut Vec<usize>, index: usize, word: u64) -> Result<(), AllocError> {
    let mut left = word;
    for _ in 0..word.count_ones() {
        list.push((index << 6) | left.trailing_zeros() as usize)?;
        left &= left.wrapping_sub(1);
    }
    Ok(())
}

/// The entries, of which the rows and the columns are lines.
#[derive(Drop)]
pub(crate) struct Pattern {
    pub rows: Lines,
    pub columns: Lines,
}

impl Pattern {
    // The pattern of a size without entries.
    pub(crate) fn new(alloc: Global, size: usize) -> Result<Pattern, AllocError> {
        Ok(Pattern {
            rows: Lines::new(alloc, size)?,
            columns: Lines::new(alloc, size)?,
        })
    }

    // Adds an entry that is not there.
    pub(crate) fn insert(&mut self, row: usize, column: usize) {
        self.rows.insert(row, column);
        self.columns.insert(column, row);
    }

    // Takes out a row and a column, of which the members are given, and gives the other rows of
    // the column the entries of the row.
    pub(crate) fn eliminate(
        &mut self,
        row: usize,
        column: usize,
        rows: &[usize],
        columns: &[usize],
    ) {
        self.rows.eliminate(row, column, rows);
        self.columns.eliminate(column, row, columns);
    }

    // Takes out a column without entries.
    pub(crate) fn drop_column(&mut self, column: usize) {
        self.columns.eliminate(column, 0, &[]);
    }
}
