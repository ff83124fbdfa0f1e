// The dual simplex method: reduced costs fit the ends at which items stand, and pivots bring the
// basic values between their ends.
ghost use Rattle.std.specs.Prelude.{◌≤◌, IfOk};

use crate::basis::{Basis, is_basic};
use crate::passing::pass;
use crate::pricing::{self, Leaving, Pricing};
use crate::ratio::{self, COST_TOLERANCE, Candidate};
use crate::row::PivotRow;
use bl_desc::Status;
use bl_fixed::{Fixed, saturating_add, saturating_mul, saturating_sub};
use bl_linear::numbers::{ZERO, at, multiple, negated, put, quotient};
use bl_linear::{Coefficient, Form, add_multiple};
use std::alloc::{AllocError, Global};

/// After this many pivots reduced costs and values are made anew.
const MOST_PIVOTS: u32 = 100;

/// After this many pivots in a row that change no reduced cost, and one more per row, items are
/// chosen by their numbers (Bland 1977).
const MOST_STALLED: usize = 200;

/// So often at most a run goes on after reduced costs that were taken for 0.
const MOST_ENDS: u32 = 6;

/// How a run ends.
#[derive(Clone, Copy, PartialEq, Eq)]
pub enum Ending {
    /// All values are between their ends.
    Optimal,
    /// The row that was made last shows that no point is left; its item's value had to rise, or to
    /// fall.
    Infeasible { rises: bool },
    /// No pivot is left, or the next one would be too small.
    Stopped,
}

/// A run: how it ended, and how many pivots it made.
#[derive(Clone, Copy)]
pub struct Run {
    pub ending: Ending,
    pub pivots: u32,
}

#[derive(Clone, Copy)]
enum Step {
    Pivoted,
    // Reduced costs and values were made anew: with the problem's own costs, or with a new factor.
    Refreshed,
    Ended(Ending),
}

#[derive(Drop)]
pub struct Simplex<'a> {
    pub form: Form<'a>,
    pub basis: Basis,
    /// Where each item stands.
    pub status: Vec<Status>,
    /// The value of each item that is not basic.
    pub values: Vec<Fixed>,
    /// The value of the basic item at each place.
    pub basics: Vec<Fixed>,
    /// The reduced cost of each item.
    pub reduced: Vec<Fixed>,
    pub row: PivotRow,
    pricing: Pricing,
    candidates: Vec<Candidate>,
    // The items that go to their other ends before the next pivot.
    passed: Vec<u32>,
    // The multipliers of the rows by which reduced costs are made anew.
    multipliers: Vec<Fixed>,
    // The image of the column of the item that enters.
    image: Vec<Fixed>,
    stalled: usize,
    // Whether a reduced cost was taken for 0 that is not.
    is_shifted: bool,
    // How often all values were between their ends.
    ends: u32,
    // How many pivots were made since the factor was last made anew on demand.
    since_renewal: u32,
}

impl<'a> Simplex<'a> {
    // Begins with the basis that the statuses show, or that of all activities. There is one status
    // per item.
    pub fn new(
        alloc: Global,
        form: Form<'a>,
        mut status: Vec<Status>,
    ) -> Result<Simplex<'a>, AllocError> {
        let basis = match Basis::of_statuses(alloc, &form, status.as_slice())? {
            Some(basis) => basis,
            None => {
                make_activities_basic(status.as_mut_slice(), form.width);
                Basis::of_activities(alloc, &form)?
            }
        };
        let (items, height) = (form.items(), form.height());
        let mut simplex = Simplex {
            row: PivotRow::new(alloc, &form)?,
            form,
            basis,
            status,
            values: Vec::from_elem(alloc, ZERO, items)?,
            basics: Vec::from_elem(alloc, ZERO, height)?,
            reduced: Vec::from_elem(alloc, ZERO, items)?,
            pricing: Pricing::new(alloc, height)?,
            candidates: Vec::with_capacity(alloc, items)?,
            passed: Vec::with_capacity(alloc, items)?,
            multipliers: Vec::from_elem(alloc, ZERO, height)?,
            image: Vec::from_elem(alloc, ZERO, height)?,
            stalled: 0,
            is_shifted: false,
            ends: 0,
            since_renewal: 0,
        };
        simplex.refresh()?;
        Ok(simplex)
    }

    // Makes at most that many pivots.
    pub fn run(&mut self, most: u32) -> Result<Run, AllocError>
        ensures { IfOk result (λ run. run.pivots ≤ most) }
    {
        let mut pivots = 0u32;
        for step in 0..most {
            match self.step()? {
                Step::Pivoted => pivots += 1,
                Step::Refreshed => {}
                Step::Ended(ending) => return Ok(Run { ending, pivots }),
            }
            if step % MOST_PIVOTS == MOST_PIVOTS - 1 {
                self.refresh()?;
            }
        }
        let ending = self.ending_without_pivots();
        Ok(Run { ending, pivots })
    }

    fn ending_without_pivots(&self) -> Ending {
        match self.leaving() {
            Some(_) => Ending::Stopped,
            None => Ending::Optimal,
        }
    }

    // Puts the values of basic items among the others.
    pub fn settle(&mut self) {
        for (place, head) in self.basis.heads().iter().enumerate() {
            put(
                self.values.as_mut_slice(),
                *head as usize,
                at(self.basics.as_slice(), place),
            );
        }
    }

    fn step(&mut self) -> Result<Step, AllocError> {
        let Some(leaving) = self.leaving() else {
            return self.end();
        };
        self.make_row(leaving.place)?;
        let Some(entering) = self.entering(leaving)? else {
            let rises = leaving.rises;
            return Ok(Step::Ended(Ending::Infeasible { rises }));
        };
        self.move_passed()?;
        if !self.pivot(leaving, entering.item as usize)? {
            return self.renew();
        }
        self.since_renewal = self.since_renewal.saturating_add(1);
        Ok(Step::Pivoted)
    }

    // Goes on with the problem's own costs and with reduced costs made anew, or ends the run.
    fn end(&mut self) -> Result<Step, AllocError> {
        let goes_on = self.is_shifted && self.ends < MOST_ENDS;
        self.ends = self.ends.saturating_add(1);
        if !self.form.has_substitutes() && !goes_on {
            return Ok(Step::Ended(Ending::Optimal));
        }
        self.form.take_own_costs();
        self.refresh()?;
        Ok(Step::Refreshed)
    }

    // Makes the factor anew where the row and the column do not agree on the pivot; ends the run
    // where that was done just now.
    fn renew(&mut self) -> Result<Step, AllocError> {
        if self.since_renewal == 0 || !self.basis.renew(&self.form)? {
            return Ok(Step::Ended(Ending::Stopped));
        }
        self.since_renewal = 0;
        self.refresh()?;
        Ok(Step::Refreshed)
    }

    pub fn make_row(&mut self, place: usize) -> Result<(), AllocError> {
        self.row
            .make(&self.form, &self.basis, self.status.as_slice(), place)
    }

    // Whether the method makes no progress, and chooses items by their numbers.
    fn is_stalled(&self) -> bool {
        self.form.height().saturating_add(MOST_STALLED) < self.stalled
    }

    fn leaving(&self) -> Option<Leaving> {
        let basics = self.basics.as_slice();
        if self.is_stalled() {
            pricing::first(&self.form, &self.basis, basics)
        } else {
            self.pricing.best(&self.form, &self.basis, basics)
        }
    }

    fn entering(&mut self, leaving: Leaving) -> Result<Option<Candidate>, AllocError> {
        let has_shifted = ratio::list_candidates(
            &self.form,
            &self.row,
            self.status.as_slice(),
            self.reduced.as_mut_slice(),
            leaving.rises,
            &mut self.candidates,
        )?;
        self.is_shifted = self.is_shifted || has_shifted;
        self.passed.clear();
        if self.is_stalled() {
            return Ok(ratio::first_of(self.candidates.as_slice()));
        }
        pass(
            &self.form,
            self.status.as_slice(),
            leaving.distance,
            &mut self.candidates,
            &mut self.passed,
        )?;
        Ok(ratio::best_of(self.candidates.as_slice()))
    }

    // Moves the passed items to their other ends, and the basic values with them.
    fn move_passed(&mut self) -> Result<(), AllocError> {
        if self.passed.is_empty() {
            return Ok(());
        }
        self.image.as_mut_slice().fill(ZERO);
        for item in self.passed.iter() {
            let item = *item as usize;
            let (side, end) = other_end(&self.form, self.status.as_slice(), item);
            let step = saturating_sub(end, at(self.values.as_slice(), item));
            self.form.add_step(item, step, self.image.as_mut_slice());
            put(self.values.as_mut_slice(), item, end);
            set_status(self.status.as_mut_slice(), item, side);
        }
        self.basis.solve(self.image.as_mut_slice())?;
        for (basic, step) in self.basics.iter_mut().zip(self.image.iter()) {
            *basic = saturating_add(*basic, *step);
        }
        Ok(())
    }

    // Exchanges the leaving item for the entering one, unless the pivot is too small. Whether it
    // did.
    fn pivot(&mut self, leaving: Leaving, entering: usize) -> Result<bool, AllocError> {
        let head = self.basis.head(leaving.place) as usize;
        let entered = self.basis.enter(
            &self.form,
            leaving.place,
            entering,
            self.image.as_mut_slice(),
            if self.since_renewal == 0 {
                None
            } else {
                Some(self.row.entry(entering))
            },
        )?;
        if entered {
            self.step_costs(head, entering);
            self.step_values(leaving, head, entering);
            self.pricing.update(leaving.place, self.image.as_slice());
        }
        Ok(entered)
    }

    // Takes the multiple of the row off the reduced costs that makes that of the entering item 0.
    fn step_costs(&mut self, head: usize, entering: usize) {
        let reduced = self.reduced.as_mut_slice();
        let ratio = quotient(at(reduced, entering), self.row.entry(entering));
        if ratio.raw == 0 {
            self.stalled = self.stalled.saturating_add(1);
        } else {
            self.stalled = 0;
            self.row.subtract(reduced, ratio);
        }
        put(reduced, entering, ZERO);
        put(reduced, head, negated(ratio));
    }

    // Moves the leaving item to its end, and the other basic values with it.
    fn step_values(&mut self, leaving: Leaving, head: usize, entering: usize) {
        let end = if leaving.rises {
            self.form.low(head)
        } else {
            self.form.high(head)
        };
        let place = leaving.place;
        let excess = saturating_sub(at(self.basics.as_slice(), place), end);
        let step = quotient(excess, at(self.image.as_slice(), place));
        subtract_multiple(self.basics.as_mut_slice(), self.image.as_slice(), step);
        let value = saturating_add(at(self.values.as_slice(), entering), step);
        put(self.basics.as_mut_slice(), place, value);
        put(self.values.as_mut_slice(), head, end);
        let side = if leaving.rises {
            Status::AtLow
        } else {
            Status::AtHigh
        };
        set_status(self.status.as_mut_slice(), head, side);
        set_status(self.status.as_mut_slice(), entering, Status::Basic);
    }

    // Makes reduced costs and values anew from the basis.
    fn refresh(&mut self) -> Result<(), AllocError> {
        self.refresh_costs()?;
        self.choose_sides();
        self.refresh_values()
    }

    fn refresh_costs(&mut self) -> Result<(), AllocError> {
        self.is_shifted = false;
        for (place, multiplier) in self.multipliers.iter_mut().enumerate() {
            *multiplier = self.form.cost(self.basis.head(place) as usize);
        }
        self.basis
            .solve_transposed(self.multipliers.as_mut_slice())?;
        let reduced = self.reduced.as_mut_slice();
        for item in 0..self.form.width {
            put(reduced, item, self.form.cost(item));
        }
        for (row, multiplier) in self.multipliers.iter().enumerate() {
            put(reduced, self.form.activity(row), negated(*multiplier));
            if multiplier.raw != 0 {
                add_multiple(reduced, self.form.row(row), *multiplier);
            }
        }
        Ok(())
    }

    // Puts each item that is not basic at the end that its reduced cost asks for.
    fn choose_sides(&mut self) {
        for (item, status) in self.status.iter_mut().enumerate() {
            if *status == Status::Basic {
                put(self.reduced.as_mut_slice(), item, ZERO);
            } else {
                *status = side_of(&self.form, item, *status, at(self.reduced.as_slice(), item));
                let end = if *status == Status::AtLow {
                    self.form.low(item)
                } else {
                    self.form.high(item)
                };
                put(self.values.as_mut_slice(), item, end);
            }
        }
    }

    fn refresh_values(&mut self) -> Result<(), AllocError> {
        let status = self.status.as_slice();
        let values = self.values.as_slice();
        for (row, basic) in self.basics.iter_mut().enumerate() {
            let activity = self.form.activity(row);
            let start = if is_basic(status, activity) {
                ZERO
            } else {
                negated(at(values, activity))
            };
            *basic = row_value(self.form.row(row), status, values, start);
        }
        self.basis.solve(self.basics.as_mut_slice())
    }
}

// `start` and the sum of a row over the columns that are not basic.
fn row_value(line: &[Coefficient], status: &[Status], values: &[Fixed], start: Fixed) -> Fixed {
    let mut sum = start;
    for coefficient in line {
        let column = coefficient.place as usize;
        let value = at(values, column);
        if value.raw != 0 && !is_basic(status, column) {
            sum = saturating_add(sum, multiple(coefficient.raw, value));
        }
    }
    sum
}

// Takes a multiple of `image` off `values`.
fn subtract_multiple(values: &mut [Fixed], image: &[Fixed], step: Fixed) {
    for (value, entry) in values.iter_mut().zip(image.iter()) {
        if entry.raw != 0 {
            *value = saturating_sub(*value, saturating_mul(step, *entry));
        }
    }
}

fn set_status(status: &mut [Status], item: usize, new: Status) {
    if let Some(slot) = status.get_mut(item) {
        *slot = new;
    }
}

// The end at which an item does not stand.
fn other_end(form: &Form<'_>, status: &[Status], item: usize) -> (Status, Fixed) {
    if ratio::is_at_low(status, item) {
        (Status::AtHigh, form.high(item))
    } else {
        (Status::AtLow, form.low(item))
    }
}

fn make_activities_basic(status: &mut [Status], width: usize) {
    for (item, slot) in status.iter_mut().enumerate() {
        if width <= item {
            *slot = Status::Basic;
        } else if *slot == Status::Basic {
            *slot = Status::AtLow;
        }
    }
}

// The end for a reduced cost; near 0 the one at which the item stands, if that is its own.
fn side_of(form: &Form<'_>, item: usize, status: Status, reduced: Fixed) -> Status {
    if COST_TOLERANCE < reduced.raw {
        Status::AtLow
    } else if reduced.raw < -COST_TOLERANCE {
        Status::AtHigh
    } else if status == Status::AtLow && !form.has_low(item) {
        Status::AtHigh
    } else if status == Status::AtHigh && !form.has_high(item) {
        Status::AtLow
    } else {
        status
    }
}
