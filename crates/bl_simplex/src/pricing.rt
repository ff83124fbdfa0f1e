// Which place is to leave the basis.
use crate::basis::Basis;
use bl_fixed::{Fixed, saturating_mul, saturating_sub};
use bl_linear::Form;
use bl_linear::numbers::{ONE, ZERO, at, exact_product, greater, quotient};
use std::alloc::{AllocError, Global};

/// A basic value that is outside its ends by no more than this many units is left there.
const TOLERANCE: i128 = 1 << 16;

/// From this many rows on the distances of basic values from their ends are weighed.
const LEAST_WEIGHED: usize = 60;

/// Where a weight passes 2^20 all weights begin anew, so that distances still count.
const MOST_WEIGHT: i128 = 1 << 60;

/// Larger distances count as this one.
const MOST_DISTANCE: i128 = 1 << 80;

/// A place whose item is outside its ends, whether its value must rise, and how far.
#[derive(Clone, Copy)]
pub struct Leaving {
    pub place: usize,
    pub rises: bool,
    pub distance: Fixed,
}

/// A weight for each place, by which the squares of distances are divided (dual devex, after
/// Forrest and Goldfarb 1992).
#[derive(Drop)]
pub struct Pricing {
    // None where there are few rows.
    weights: Vec<Fixed>,
}

impl Pricing {
    pub fn new(alloc: Global, height: usize) -> Result<Pricing, AllocError> {
        let weights = if height < LEAST_WEIGHED {
            Vec::new(alloc)
        } else {
            Vec::from_elem(alloc, ONE, height)?
        };
        Ok(Pricing { weights })
    }

    // The place with the greatest weighed distance.
    pub fn best(&self, form: &Form<'_>, basis: &Basis, values: &[Fixed]) -> Option<Leaving> {
        let mut best = None;
        let mut most = -1;
        for (place, head) in basis.heads().iter().enumerate() {
            let Some(found) = outside_of(form, *head as usize, at(values, place)) else {
                continue;
            };
            let score = self.score_of(place, found.distance);
            if most < score {
                most = score;
                best = Some(Leaving {
                    place,
                    rises: found.rises,
                    distance: Fixed {
                        raw: found.distance,
                    },
                });
            }
        }
        best
    }

    fn score_of(&self, place: usize, distance: i128) -> i128 {
        match self.weights.get(place) {
            Some(weight) => quotient(square_of(distance), *weight).raw,
            None => distance,
        }
    }

    // The weights after a pivot at that place, of which this is the image of the entering column.
    pub fn update(&mut self, place: usize, image: &[Fixed]) {
        if self.weights.is_empty() {
            return;
        }
        let pivot = at(image, place);
        let old = at(self.weights.as_slice(), place);
        let new = greater(
            quotient(old, greater(saturating_mul(pivot, pivot), ONE_UNIT)),
            ZERO,
        );
        let mut most = new;
        for (weight, entry) in self.weights.iter_mut().zip(image.iter()) {
            if entry.raw != 0 {
                *weight = greater(*weight, saturating_mul(saturating_mul(*entry, *entry), new));
                most = greater(most, *weight);
            }
        }
        if let Some(weight) = self.weights.get_mut(place) {
            *weight = greater(new, ONE);
        }
        if MOST_WEIGHT < most.raw {
            self.weights.as_mut_slice().fill(ONE);
        }
    }
}

const ONE_UNIT: Fixed = Fixed { raw: 1 };

// How far a value is outside its item's ends, and whether it must rise.
#[derive(Clone, Copy)]
struct Outside {
    distance: i128,
    rises: bool,
}

// None where the value is between the ends, but for the tolerance.
fn outside_of(form: &Form<'_>, item: usize, value: Fixed) -> Option<Outside> {
    let (low, high) = (form.low(item), form.high(item));
    let (distance, rises) = if value < low {
        (saturating_sub(low, value).raw, true)
    } else if high < value {
        (saturating_sub(value, high).raw, false)
    } else {
        return None;
    };
    if distance <= TOLERANCE {
        return None;
    }
    Some(Outside { distance, rises })
}

fn square_of(distance: i128) -> Fixed {
    let size = Fixed {
        raw: distance.min(MOST_DISTANCE) >> 8,
    };
    Fixed {
        raw: exact_product(size, size) >> 30,
    }
}

// Among the places whose items are outside their ends the one with the least item.
pub fn first(form: &Form<'_>, basis: &Basis, values: &[Fixed]) -> Option<Leaving> {
    let mut best = None;
    let mut least = u32::MAX;
    for (place, head) in basis.heads().iter().enumerate() {
        if let Some(found) = outside_of(form, *head as usize, at(values, place)) {
            if *head < least {
                least = *head;
                best = Some(Leaving {
                    place,
                    rises: found.rises,
                    distance: Fixed {
                        raw: found.distance,
                    },
                });
            }
        }
    }
    best
}
