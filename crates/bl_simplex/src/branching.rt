//! Penalties: what the first pivot after a side's bound shows, for each fractional column (Driebeek
//! 1966, Tomlin 1971). By them the column to branch on is chosen, and sides are found that reach no
//! value below the cutoff.
ghost use Rattle.std.specs.Prelude.{◌≡◌, ℕ, ◌<◌, length, All, IfOk, IfSome};
ghost use Rattle.bl_simplex.specs.Sides.{IsChoice, IsSideProposal};

use crate::answer::{Source, multipliers_of};
use crate::basis::LEAST_PIVOT;
use crate::ratio::{is_at_low, may_move};
use crate::simplex::Simplex;
use bl_fixed::{Fixed, saturating_add, saturating_mul, saturating_sub};
use bl_linear::numbers::{
    ONE, UNITS, at, greater, is_less_ratio, lesser, negated, quotient, scaled, scaled_number,
    size_of,
};
use bl_mods::Items;
use bl_problem::Side;
use std::alloc::{AllocError, Global};

/// The gain of a side that has no point.
const MOST_GAIN: Fixed = Fixed { raw: 1 << 90 };

/// The weaker side's gain counts so many times.
const WEAKER: Fixed = Fixed { raw: 5 << 40 };

/// By so much a gain is to pass what is missing, since multipliers are rounded.
const TOLERANCE: Fixed = Fixed { raw: 1 << 20 };

/// At most so many sides are proposed.
const MOST_SIDES: usize = 20;

/// Multipliers that may show that one side of a column has no point below the cutoff: the bound
/// that they give in the box with that side's bound alone decides.
#[derive(Drop)]
pub struct SideProposal {
    /// The column's number.
    pub column: u32,
    /// The side: that of the points whose entry is at most `at`, or at least `at + 1`.
    pub side: Side,
    /// The entry of the proposal's point, rounded down.
    pub at: i64,
    /// A multiplier for each row and then for each cut, within ±2^40.
    pub y: Items<i64>,
    /// Their common denominator, from 1 to 2^20.
    pub d: i64,
}

/// What the penalties show.
#[derive(Drop)]
pub struct Choice {
    /// The column to branch on.
    pub branch: Option<u32>,
    // Its score.
    most: i128,
    pub sides: Vec<SideProposal>,
}

impl Choice {
    pub fn none(alloc: Global) -> Choice
        ensures { (columns lines : ℕ) → IsChoice columns lines result }
    {
        Choice {
            branch: None,
            most: -1,
            sides: Vec::new(alloc),
        }
    }

    // Weighs a column, whose row was made last.
    fn weigh(
        &mut self,
        alloc: Global,
        simplex: &Simplex<'_>,
        tried: Tried,
        missing: Option<Fixed>,
    ) -> Result<(), AllocError>
        requires inside { tried.column < tried.columns }
        requires choice { IsChoice tried.columns tried.height self.old }
        ensures { IfOk result (λ _. IsChoice tried.columns tried.height self.new) }
    {
        let penalties = Penalties::new(simplex, tried);
        if self.most < penalties.score() {
            self.most = penalties.score();
            self.branch = Some(tried.column);
        }
        if let Some(missing) = missing {
            push_side(
                alloc,
                &mut self.sides,
                simplex,
                tried,
                penalties.up,
                missing,
            )?;
            push_side(
                alloc,
                &mut self.sides,
                simplex,
                tried,
                penalties.down,
                missing,
            )?;
        }
        Ok(())
    }
}

// How far a value must move to one side, and what it costs a unit: None where nothing can move it.
#[derive(Clone, Copy)]
struct Penalty {
    side: Side,
    distance: Fixed,
    cost: Option<Fixed>,
}

impl Penalty {
    fn gain(&self) -> Fixed {
        match self.cost {
            Some(cost) => lesser(saturating_mul(cost, self.distance), MOST_GAIN),
            None => MOST_GAIN,
        }
    }

    // The step of the reduced costs along the row that shows the gain, or twice what is missing.
    fn step(&self, missing: Fixed) -> Fixed {
        let twice = saturating_add(missing, missing);
        let cost = match self.cost {
            Some(cost) => cost,
            None => greater(quotient(twice, self.distance), ONE),
        };
        match self.side {
            Side::AtLeast => negated(cost),
            Side::AtMost => cost,
        }
    }
}

#[derive(Clone, Copy)]
struct Penalties {
    up: Penalty,
    down: Penalty,
}

impl Penalties {
    fn new(simplex: &Simplex<'_>, tried: Tried) -> Penalties {
        let power = simplex.form.column_exponent(tried.column as usize);
        let fraction = fraction_of(tried.entry);
        let costs = least_costs(simplex);
        Penalties {
            up: Penalty {
                side: Side::AtLeast,
                distance: scaled_number(UNITS.saturating_sub(fraction), power),
                cost: costs.up.map(|ratio| ratio.quotient()),
            },
            down: Penalty {
                side: Side::AtMost,
                distance: scaled_number(fraction, power),
                cost: costs.down.map(|ratio| ratio.quotient()),
            },
        }
    }

    // The weaker side's gain five times, and the other's.
    fn score(&self) -> i128 {
        let (up, down) = (self.up.gain(), self.down.gain());
        saturating_add(saturating_mul(WEAKER, lesser(up, down)), greater(up, down)).raw
    }
}

// The sizes of a reduced cost and of an entry of a row.
#[derive(Clone, Copy)]
struct Ratio {
    cost: Fixed,
    entry: Fixed,
}

impl Ratio {
    fn quotient(&self) -> Fixed {
        quotient(self.cost, self.entry)
    }

    // The lesser of the two.
    fn lesser(self, other: Option<Ratio>) -> Ratio {
        match other {
            Some(other) if !is_less_ratio(self.cost, self.entry, other.cost, other.entry) => other,
            _ => self,
        }
    }
}

#[derive(Clone, Copy)]
struct LeastCosts {
    up: Option<Ratio>,
    down: Option<Ratio>,
}

// The least ratios of reduced cost and entry over the items that let the row's item rise, or fall.
fn least_costs(simplex: &Simplex<'_>) -> LeastCosts {
    let status = simplex.status.as_slice();
    let mut least = LeastCosts {
        up: None,
        down: None,
    };
    for item in simplex.row.filled() {
        let number = *item as usize;
        let entry = simplex.row.entry(number);
        if LEAST_PIVOT <= entry.raw.unsigned_abs() && may_move(&simplex.form, number) {
            let ratio = Ratio {
                cost: size_of(at(simplex.reduced.as_slice(), number)),
                entry: size_of(entry),
            };
            if is_at_low(status, number) == (entry.raw < 0) {
                least.up = Some(ratio.lesser(least.up));
            } else {
                least.down = Some(ratio.lesser(least.down));
            }
        }
    }
    least
}

// The column to branch on, of the basic columns whose entries in the point are not whole the one
// with the greatest score; and multipliers, of that many rows and cuts, for sides that gain what is
// missing to the cutoff.
pub fn weigh_columns(
    alloc: Global,
    simplex: &mut Simplex<'_>,
    point: &[Fixed],
    height: usize,
    missing: Option<Fixed>,
) -> Result<Choice, AllocError>
    ensures { IfOk result (IsChoice (length point.now) height) }
{
    let mut choice = Choice::none(alloc);
    for place in 0..simplex.form.height() {
        if let Some(tried) = tried_at(simplex, place, point, height) {
            simplex.make_row(place)?;
            choice.weigh(alloc, simplex, tried, missing)?;
        }
    }
    Ok(choice)
}

// The column of a place, where its entry is not whole.
fn tried_at(simplex: &Simplex<'_>, place: usize, point: &[Fixed], height: usize) -> Option<Tried>
    ensures { IfSome result (λ t. (t.column < length point.now) × (t.columns ≡ length point.now)
        × (t.height ≡ height)) }
{
    let column = simplex.basis.head(place);
    let entry = *point.get(column as usize)?;
    if fraction_of(entry) == 0 {
        return None;
    }
    Some(Tried {
        column,
        entry,
        columns: point.len(),
        height,
    })
}

// A column whose sides are tried, and its entry in the point; how many columns there are, and how
// many rows and cuts.
#[derive(Clone, Copy)]
struct Tried {
    column: u32,
    entry: Fixed,
    columns: usize,
    height: usize,
}

// Appends the proposal for a side that gains what is missing.
fn push_side(
    alloc: Global,
    sides: &mut Vec<SideProposal>,
    simplex: &Simplex<'_>,
    tried: Tried,
    penalty: Penalty,
    missing: Fixed,
) -> Result<(), AllocError>
    requires inside { tried.column < tried.columns }
    requires sides { All (IsSideProposal tried.columns tried.height) sides.old.items }
    ensures { All (IsSideProposal tried.columns tried.height) sides.new.items }
{
    if sides.len() < MOST_SIDES && saturating_add(missing, TOLERANCE) <= penalty.gain() {
        let step = penalty.step(missing);
        sides.push(proposal_of(alloc, simplex, tried, penalty.side, step)?)?;
    }
    Ok(())
}

// The proposal for a side, by the multipliers after a step of the reduced costs along the row.
fn proposal_of(
    alloc: Global,
    simplex: &Simplex<'_>,
    tried: Tried,
    side: Side,
    step: Fixed,
) -> Result<SideProposal, AllocError>
    requires { tried.column < tried.columns }
    ensures { IfOk result (IsSideProposal tried.columns tried.height) }
{
    let multipliers = multipliers_of(alloc, simplex, Source::Moved { step }, tried.height)?;
    Ok(SideProposal {
        column: tried.column,
        side,
        at: i64::try_from(tried.entry.raw >> 40).unwrap_or(0),
        y: Items::from_vec(multipliers.y),
        d: multipliers.d,
    })
}

// How much of the value is missing to the cutoff, in scaled units, where the values are those of an
// optimum. A bound above the cutoff less 1 reaches it, since values are whole numbers.
pub fn missing_to(simplex: &Simplex<'_>, offset: i128, cutoff: i128) -> Fixed {
    let power = 40i32.saturating_sub(simplex.form.cost_exponent());
    let wanted = cutoff.saturating_sub(1).saturating_sub(offset);
    saturating_sub(scaled_number(wanted, power), value_of(simplex))
}

// The sum of the columns' scaled costs and values.
fn value_of(simplex: &Simplex<'_>) -> Fixed {
    let mut sum = Fixed { raw: 0 };
    for column in 0..simplex.form.width {
        let value = at(simplex.values.as_slice(), column);
        sum = saturating_add(sum, saturating_mul(simplex.form.cost(column), value));
    }
    sum
}

// How far an entry is above a whole number, in units.
fn fraction_of(entry: Fixed) -> i128 {
    entry.raw & (UNITS - 1)
}
