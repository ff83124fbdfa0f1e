//! Proposals for the worked problem (two columns X and Y from 0 to 10, costs 2 and 3, and the row
//! 2X + 3Y >= 7), and for larger models made here.
ghost use Rattle.std.specs.Prelude.{◌≡◌, [], ◌∷◌, Some, None, pos, length, IfOk};

use bl_bound::{bound, empty};
use bl_desc::{Desc, Status};
use bl_fixed::from_int;
use bl_mods::Items;
use bl_mps::read;
use bl_problem::{Column, Cut, Name, Problem, Row, Sense, Side, Term};
use bl_simplex::{Prepared, Proposal, propose, propose_below};
use std::alloc::{AllocError, Global};
use std::process::Abort;
use std::test::Fail;

fn columns(alloc: Global) -> Result<Vec<Column>, AllocError>
    ensures { IfOk result (λ columns. columns.items ≡
        record { name = 88 ∷ []; low = pos 0; high = pos 10; cost = pos 2 } ∷ record { name = 89 ∷ []; low = pos 0; high = pos 10; cost = pos 3 } ∷ []) }
{
    let x = Name::new(vec![in alloc; b'X']?);
    let y = Name::new(vec![in alloc; b'Y']?);
    let columns = vec![in alloc;
        Column {
            name: x,
            low: 0,
            high: 10,
            cost: 2
        },
        Column {
            name: y,
            low: 0,
            high: 10,
            cost: 3
        },
    ]?;
    Ok(columns)
}

fn rows(alloc: Global) -> Result<Vec<Row>, AllocError>
    ensures { IfOk result (λ rows. rows.items ≡
        record { name = 82 ∷ []; terms = record { column = 0; coefficient = pos 2 } ∷ record { column = 1; coefficient = pos 3 } ∷ []; low = Some (pos 7); high = None } ∷ []) }
{
    let name = Name::new(vec![in alloc; b'R']?);
    let x = Term {
        column: 0,
        coefficient: 2,
    };
    let y = Term {
        column: 1,
        coefficient: 3,
    };
    let terms = Items::from_vec(vec![in alloc; x, y]?);
    Ok(vec![in alloc;
        Row {
            name,
            terms,
            low: Some(7),
            high: None
        },
    ]?)
}

fn problem(alloc: Global) -> Result<Problem, AllocError>
    ensures columns { IfOk result (λ p. length p.columns ≡ 2) }
    ensures rows { IfOk result (λ p. length p.rows ≡ 1) }
{
    let columns = columns(alloc)?;
    let rows = rows(alloc)?;
    let objective = Name::new(vec![in alloc; b'C']?);
    Ok(Problem::new(columns, rows, objective, 0, 0, Sense::Min))
}

fn description(alloc: Global, high: i64) -> Result<Desc<Cut>, AllocError>
    ensures lows { IfOk result (λ d. d.lows ≡ pos 0 ∷ pos 0 ∷ []) }
    ensures highs { IfOk result (λ d. d.highs ≡ high ∷ high ∷ []) }
    ensures cuts { IfOk result (λ d. d.cuts ≡ []) }
{
    Ok(Desc {
        lows: Items::from_vec(vec![in alloc; 0, 0]?),
        highs: Items::from_vec(vec![in alloc; high, high]?),
        cuts: Items::new(alloc),
        column_status: Items::new(alloc),
        row_status: Items::new(alloc),
        cut_status: Items::new(alloc),
    })
}

#[test]
fn proposals_for_the_worked_problem(rt: HostRuntime) -> Result<(), Fail> {
    let problem = problem(rt.alloc())?;
    let root = description(rt.alloc(), 10)?;
    let none = propose(rt.alloc(), &problem, &root, 0)?;
    assert_eq!(rt; none.y.as_slice(), [0].as_slice());
    assert_eq!(rt;
        none.point.as_slice(),
        [from_int(0), from_int(0)].as_slice()
    );
    let best = propose(rt.alloc(), &problem, &root, 100)?;
    assert_eq!(rt; bound(&problem, &root, best.y.as_slice(), best.d), Some(7));
    Ok(())
}

#[test]
fn shows_that_no_point_is_left(rt: HostRuntime) -> Result<(), Fail> {
    let problem = problem(rt.alloc())?;
    let tight = description(rt.alloc(), 1)?;
    let ray = propose(rt.alloc(), &problem, &tight, 100)?;
    assert!(rt; empty(&problem, &tight, ray.y.as_slice()));
    Ok(())
}

// What a model is like: rows of ones that cover; the same with a row that allows too few columns;
// rows with large coefficients that pack; sums that are wanted exactly, without costs.
#[derive(Clone, Copy, PartialEq, Eq)]
enum Kind {
    Cover,
    TooFew,
    Packing,
    NoCosts,
}

#[derive(Clone, Copy)]
struct Model {
    kind: Kind,
    rows: u32,
    columns: u32,
}

// A number that is mixed from two others, from 0 to 1,023.
fn mixed(a: u32, b: u32) -> u32 {
    let mut state = u64::from(a).wrapping_mul(0x9e37_79b9_7f4a_7c15);
    state = state.wrapping_add(u64::from(b).wrapping_mul(0xc2b2_ae3d_27d4_eb4f));
    state = (state ^ (state >> 29)).wrapping_mul(0xbf58_476d_1ce4_e5b9);
    state = (state ^ (state >> 32)).wrapping_mul(0x94d0_49bb_1331_11eb);
    (state >> 54) as u32
}

impl Model {
    fn cost(&self, column: u32) -> i64 {
        let number = mixed(column, 5000);
        match self.kind {
            Kind::Cover | Kind::TooFew => i64::from(number % 20).saturating_add(1),
            Kind::Packing => i64::from(number).saturating_add(100).saturating_neg(),
            Kind::NoCosts => 0,
        }
    }

    fn coefficient(&self, row: u32, column: u32) -> i64 {
        let number = mixed(row, column);
        let share = 5120 / self.rows.max(1);
        match self.kind {
            Kind::TooFew if row == 0 => 1,
            Kind::Cover | Kind::TooFew if number < share => 1,
            Kind::Packing if number < 500 => i64::from(number).saturating_add(1),
            Kind::NoCosts if number < share / 5 * 4 && number % 2 == 0 => 1,
            Kind::NoCosts if number < share / 5 * 4 => -1,
            _ => 0,
        }
    }

    fn row_kind(&self, row: u32) -> char {
        match self.kind {
            Kind::Packing => 'L',
            Kind::TooFew if row == 0 => 'L',
            Kind::NoCosts => 'E',
            _ => 'G',
        }
    }

    fn right(&self, row: u32) -> i64 {
        let mut sum = 0i64;
        for column in 0..self.columns {
            if mixed(column, 7000) < 300 {
                sum = sum.saturating_add(self.coefficient(row, column));
            }
        }
        match self.kind {
            Kind::Cover => 1,
            Kind::TooFew if row == 0 => 2,
            Kind::TooFew => 1,
            Kind::Packing => sum,
            Kind::NoCosts => sum,
        }
    }

    // The file that says it.
    fn text(&self, alloc: Global) -> Result<Vec<u8>, AllocError> {
        let mut text = Vec::new(alloc);
        text.extend_from_slice(b"NAME\nROWS\n N C\n")?;
        for row in 0..self.rows {
            let kind = self.row_kind(row);
            text.extend_from_slice(format!(in alloc; " {kind} R{row}\n")?.as_bytes())?;
        }
        text.extend_from_slice(b"COLUMNS\n M 'MARKER' 'INTORG'\n")?;
        for column in 0..self.columns {
            self.push_column(alloc, &mut text, column)?;
        }
        text.extend_from_slice(b" M 'MARKER' 'INTEND'\nRHS\n")?;
        for row in 0..self.rows {
            let right = self.right(row);
            text.extend_from_slice(format!(in alloc; " RHS R{row} {right}\n")?.as_bytes())?;
        }
        text.extend_from_slice(b"ENDATA\n")?;
        Ok(text)
    }

    fn push_column(
        &self,
        alloc: Global,
        text: &mut Vec<u8>,
        column: u32,
    ) -> Result<(), AllocError> {
        let cost = self.cost(column);
        text.extend_from_slice(format!(in alloc; " X{column} C {cost}\n")?.as_bytes())?;
        for row in 0..self.rows {
            let coefficient = self.coefficient(row, column);
            if coefficient != 0 {
                let line = format!(in alloc; " X{column} R{row} {coefficient}\n")?;
                text.extend_from_slice(line.as_bytes())?;
            }
        }
        Ok(())
    }
}

// A box, by the low and the high end of each column.
#[derive(Drop)]
struct Bounds {
    lows: Vec<i64>,
    highs: Vec<i64>,
}

fn bounds_of(alloc: Global, problem: &Problem) -> Result<Bounds, AllocError> {
    let mut bounds = Bounds {
        lows: Vec::new(alloc),
        highs: Vec::new(alloc),
    };
    for column in problem.columns() {
        bounds.lows.push(column.low)?;
        bounds.highs.push(column.high)?;
    }
    Ok(bounds)
}

// The description of a box, with these statuses.
fn boxed(
    alloc: Global,
    bounds: &Bounds,
    columns: &[Status],
    rows: &[Status],
) -> Result<Desc<Cut>, AllocError>
    ensures { IfOk result (λ d. d.cuts ≡ []) }
{
    Ok(Desc {
        lows: Items::from_vec(Vec::from_slice(alloc, bounds.lows.as_slice())?),
        highs: Items::from_vec(Vec::from_slice(alloc, bounds.highs.as_slice())?),
        cuts: Items::new(alloc),
        column_status: Items::from_vec(Vec::from_slice(alloc, columns)?),
        row_status: Items::from_vec(Vec::from_slice(alloc, rows)?),
        cut_status: Items::new(alloc),
    })
}

// What the multipliers show for a box: `d` times a bound, and where `d` is 0 and the sum is
// positive, that no point is left.
fn sum_shown(problem: &Problem, bounds: &Bounds, y: &[i64], d: i64) -> i128 {
    let mut sum = 0i128;
    for (number, column) in problem.columns().iter().enumerate() {
        let cost = i128::from(d).saturating_mul(i128::from(column.cost));
        let rest = cost.saturating_sub(taken_off(problem.rows(), y, number));
        let low = bounds.lows.get(number).copied().unwrap_or(0);
        let high = bounds.highs.get(number).copied().unwrap_or(0);
        let low = rest.saturating_mul(i128::from(low));
        let high = rest.saturating_mul(i128::from(high));
        sum = sum.saturating_add(low.min(high));
    }
    for (row, multiplier) in problem.rows().iter().zip(y.iter()) {
        let end = if 0 < *multiplier { row.low } else { row.high };
        sum = sum.saturating_add(i128::from(*multiplier).saturating_mul(end.unwrap_or(0)));
    }
    sum
}

// The sum of multipliers times a column's coefficients.
fn taken_off(rows: &[Row], y: &[i64], column: usize) -> i128 {
    let mut sum = 0i128;
    for (row, multiplier) in rows.iter().zip(y.iter()) {
        for term in row.terms.as_slice() {
            if term.column as usize == column {
                let part = i128::from(*multiplier).saturating_mul(i128::from(term.coefficient));
                sum = sum.saturating_add(part);
            }
        }
    }
    sum
}

// A thousand times the value that a proposal shows, rounded toward 0; None where it shows that
// no point is left.
fn value_shown(problem: &Problem, bounds: &Bounds, proposal: &Proposal) -> Option<i128> {
    let y = proposal.y.as_slice();
    if 0 < sum_shown(problem, bounds, y, 0) && proposal.branch.is_none() && proposal.d == 1 {
        return None;
    }
    let sum = sum_shown(problem, bounds, y, proposal.d).saturating_mul(1000);
    sum.checked_div(i128::from(proposal.d))
}

// How many of the sides that are proposed have no value below the cutoff.
fn sides_shut(
    alloc: Global,
    problem: &Problem,
    proposal: &Proposal,
    cutoff: i64,
) -> Result<usize, AllocError> {
    let mut shut = 0usize;
    for side in proposal.sides.as_slice() {
        let mut bounds = bounds_of(alloc, problem)?;
        match side.side {
            Side::AtMost => set(bounds.highs.as_mut_slice(), side.column, side.at),
            Side::AtLeast => set(
                bounds.lows.as_mut_slice(),
                side.column,
                side.at.saturating_add(1),
            ),
        }
        let sum = sum_shown(problem, &bounds, side.y.as_slice(), side.d);
        if i128::from(cutoff.saturating_sub(1)).saturating_mul(i128::from(side.d)) < sum {
            shut = shut.saturating_add(1);
        }
    }
    Ok(shut)
}

fn set(ends: &mut [i64], column: u32, end: i64) {
    if let Some(slot) = ends.get_mut(column as usize) {
        *slot = end;
    }
}

// What is expected of a model: a range of the pivots from its rows' basis on, what is shown
// a thousandfold, and a cutoff that so many sides reach.
#[derive(Clone, Copy)]
struct Expected {
    least: u32,
    most: u32,
    value: Option<i128>,
    cutoff: i64,
    sides: usize,
}

fn look_at(
    rt: &impl Abort,
    alloc: Global,
    problem: &Problem,
    expected: Expected,
) -> Result<(), AllocError> {
    let bounds = bounds_of(alloc, problem)?;
    let cold = boxed(alloc, &bounds, &[], &[])?;
    let first = propose(alloc, problem, &cold, 10_000)?;
    let pivots = first.pivots;
    assert!(rt;
        expected.least <= pivots && pivots <= expected.most,
        "{pivots} pivots"
    );
    assert_eq!(rt; value_shown(problem, &bounds, &first), expected.value);
    let (columns, rows) = (&first.column_status, &first.row_status);
    let warm = boxed(alloc, &bounds, columns.as_slice(), rows.as_slice())?;
    let again = propose_to(alloc, problem, &warm, expected.cutoff)?;
    assert_eq!(rt; again.pivots, 0);
    let shut = sides_shut(alloc, problem, &again, expected.cutoff)?;
    assert!(rt; expected.sides <= shut, "{shut} sides");
    Ok(())
}

fn propose_to(
    alloc: Global,
    problem: &Problem,
    desc: &Desc<Cut>,
    cutoff: i64,
) -> Result<Proposal, AllocError>
    requires { desc.now.cuts ≡ [] }
{
    let prepared = Prepared::new(alloc, problem)?;
    let cutoff = Some(i128::from(cutoff));
    propose_below(alloc, problem, &prepared, desc, 10_000, cutoff)
}

#[test]
fn proposals_for_models(rt: HostRuntime) -> Result<(), Fail> {
    for (kind, rows, columns, least, most, value, cutoff, sides) in [
        (Kind::Cover, 10, 30, 2, 4, Some(4000), 5, 0),
        (Kind::Cover, 60, 150, 55, 95, Some(53000), 54, 0),
        (Kind::Cover, 180, 360, 160, 260, Some(181359), 182, 1),
        (Kind::Cover, 400, 800, 550, 950, Some(456447), 457, 5),
        (Kind::Cover, 600, 1000, 850, 1400, Some(792344), 793, 5),
        (Kind::Packing, 15, 40, 20, 40, Some(-6761558), -6740, 3),
        (Kind::Packing, 30, 100, 50, 90, Some(-23056449), -23040, 2),
        (
            Kind::Packing,
            100,
            300,
            150,
            260,
            Some(-68009851),
            -67990,
            1,
        ),
        (Kind::NoCosts, 100, 200, 110, 210, Some(0), 1, 0),
        (Kind::NoCosts, 300, 600, 400, 700, Some(0), 1, 0),
        (Kind::TooFew, 20, 60, 15, 40, None, 0, 0),
    ] {
        let model = Model {
            kind,
            rows,
            columns,
        };
        let text = model.text(rt.alloc())?;
        let expected = Expected {
            least,
            most,
            value,
            cutoff,
            sides,
        };
        if text.len() < 10_000_000 {
            match read(rt.alloc(), text.as_slice()) {
                Ok(problem) => look_at(&rt, rt.alloc(), &problem, expected)?,
                Err(_) => panic!(rt; "this is no model"),
            }
        }
    }
    Ok(())
}
