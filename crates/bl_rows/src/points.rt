//! Places of a split, points tried and bounds fixed, of problems with two columns X and Y, costs
//! 2 and 3, and the row 2X + 3Y >= 7.
ghost use Rattle.std.specs.Prelude.{◌≡◌, ℕ, ◌<◌, ◌^◌, ◌≤ℤ◌, ◌<ℤ◌, [], ◌∷◌, Some, None, pos};
ghost use Rattle.std.specs.Prelude.{length, All, IfOk, IsTrue};
ghost use Rattle.bl_num.specs.Exact.{at};
ghost use Rattle.bl_problem.specs.Sums.{IsWithin};
ghost use Rattle.bl_problem.specs.Rows.{AreEnds};
ghost use Rattle.bl_desc.specs.Changes.{IsWhole};
ghost use Rattle.bl_rows.specs.Points.{has_point, has_two};

use bl_bound::{ReducedCosts, bound};
use bl_branch::{BranchRule, half, most_fractional};
use bl_desc::{Desc, Status};
use bl_fix::{fix, fix_by};
use bl_fixed::Fixed;
use bl_heur::{RowMultiplier, best_row_multiplier, dive, has_large_numbers, round_point};
use bl_mods::Items;
use bl_problem::{Column, Cut, Decision, Name, Problem, Row, Sense, Side, Term};
use std::alloc::{AllocError, Global};
use std::test::Fail;

fn columns(alloc: Global) -> Result<Vec<Column>, AllocError>
    ensures { IfOk result (λ columns. columns.items ≡
        record { name = 88 ∷ []; low = pos 0; high = pos 10; cost = pos 2 } ∷ record { name = 89 ∷ []; low = pos 0; high = pos 10; cost = pos 3 } ∷ []) }
{
    let x = Name::new(vec![in alloc; b'X']?);
    let y = Name::new(vec![in alloc; b'Y']?);
    let columns = vec![in alloc;
        Column {
            name: x,
            low: 0,
            high: 10,
            cost: 2
        },
        Column {
            name: y,
            low: 0,
            high: 10,
            cost: 3
        },
    ]?;
    Ok(columns)
}

// The row 2X + 3Y from 7 to `high`.
fn rows(alloc: Global, high: Option<i128>) -> Result<Vec<Row>, AllocError>
    ensures { IfOk result (λ rows. rows.items ≡
        record { name = 82 ∷ []; terms = record { column = 0; coefficient = pos 2 } ∷ record { column = 1; coefficient = pos 3 } ∷ []; low = Some (pos 7); high = high } ∷ []) }
{
    let name = Name::new(vec![in alloc; b'R']?);
    let x = Term {
        column: 0,
        coefficient: 2,
    };
    let y = Term {
        column: 1,
        coefficient: 3,
    };
    let terms = Items::from_vec(vec![in alloc; x, y]?);
    Ok(vec![in alloc;
        Row {
            name,
            terms,
            low: Some(7),
            high
        },
    ]?)
}

fn problem(alloc: Global, high: Option<i128>) -> Result<Problem, AllocError>
    requires { AreEnds (Some (pos 7)) high }
    ensures columns { IfOk result (λ p. length p.columns ≡ 2) }
    ensures rows { IfOk result (λ p. length p.rows ≡ 1) }
{
    let columns = columns(alloc)?;
    let rows = rows(alloc, high)?;
    let objective = Name::new(vec![in alloc; b'C']?);
    Ok(Problem::new(columns, rows, objective, 0, 0, Sense::Min))
}

fn description(alloc: Global, lows: [i64; 2], highs: [i64; 2]) -> Result<Desc<Cut>, AllocError>
    ensures lows { IfOk result (λ d. d.lows ≡ lows) }
    ensures highs { IfOk result (λ d. d.highs ≡ highs) }
    ensures cuts { IfOk result (λ d. d.cuts ≡ []) }
    ensures whole { IfOk result IsWhole }
{
    Ok(Desc {
        lows: Items::from_vec(Vec::from_array(alloc, lows)?),
        highs: Items::from_vec(Vec::from_array(alloc, highs)?),
        cuts: Items::new(alloc),
        column_status: Items::from_vec(vec![in alloc; Status::AtLow, Status::AtLow]?),
        row_status: Items::from_vec(vec![in alloc; Status::Basic]?),
        cut_status: Items::new(alloc),
    })
}

// A number in units of 2^-40, given in quarters.
fn quarters(number: i64) -> Fixed {
    Fixed {
        raw: number as i128 * (1 << 38),
    }
}

// The places that the rules answer at a point, given in quarters: `half`, then `most_fractional`.
fn places(
    alloc: Global,
    lows: [i64; 2],
    highs: [i64; 2],
    x: i64,
    y: i64,
) -> Result<String, AllocError>
    requires lows { All (IsWithin (10 ^ 9)) lows }
    requires highs { All (IsWithin (10 ^ 9)) highs }
    requires points { IsTrue (has_two lows highs) }
{
    let desc = description(alloc, lows, highs)?;
    let point = [quarters(x), quarters(y)];
    let halving = BranchRule::new(|desc: &Desc<Cut>, point: &[Fixed]| half(desc, point));
    let fractional = BranchRule::new(|desc: &Desc<Cut>, point: &[Fixed]| most_fractional(
        desc, point,
    ));
    let middle = halving.choose(&desc, point.as_slice());
    let nearest = fractional.choose(&desc, point.as_slice());
    let (j, v) = (middle.column, middle.at);
    let (k, w) = (nearest.column, nearest.at);
    format!(in alloc; "{j} at {v}, {k} at {w}")
}

#[test]
fn rules_split(rt: HostRuntime) -> Result<(), Fail> {
    let alloc = rt.alloc();
    let root = places(alloc, [0, 0], [10, 10], 6, 1)?;
    assert_eq!(rt; root.as_str(), "0 at 5, 0 at 1");
    let nearer = places(alloc, [0, 0], [4, 10], 5, 14)?;
    assert_eq!(rt; nearer.as_str(), "1 at 5, 1 at 3");
    let equally_near = places(alloc, [0, 0], [10, 10], 1, 7)?;
    assert_eq!(rt; equally_near.as_str(), "0 at 5, 0 at 0");
    let whole = places(alloc, [-3, 0], [2, 4], 4, 8)?;
    assert_eq!(rt; whole.as_str(), "0 at -1, 0 at -1");
    let one_value = places(alloc, [3, 0], [3, 10], 6, 1)?;
    assert_eq!(rt; one_value.as_str(), "1 at 5, 1 at 0");
    let one_value_whole = places(alloc, [3, 0], [3, 10], 6, 8)?;
    assert_eq!(rt; one_value_whole.as_str(), "1 at 5, 1 at 5");
    let negative = places(alloc, [-10, 0], [0, 10], -14, 0)?;
    assert_eq!(rt; negative.as_str(), "0 at -5, 0 at -4");
    let below = places(alloc, [0, 0], [10, 10], -6, 0)?;
    assert_eq!(rt; below.as_str(), "0 at 5, 0 at 0");
    let above = places(alloc, [0, 0], [10, 10], 42, 0)?;
    assert_eq!(rt; above.as_str(), "0 at 5, 0 at 9");
    Ok(())
}

// A point, or that there is none.
fn told(alloc: Global, point: Option<Items<i64>>) -> Result<String, AllocError> {
    let mut text = String::new(alloc);
    let Some(point) = point else {
        return String::from_str(alloc, "none");
    };
    for entry in point.as_slice() {
        let gap = if text.is_empty() { "" } else { " " };
        let told = format!(in alloc; "{gap}{entry}")?;
        text.push_str(told.as_str())?;
    }
    Ok(text)
}

// The rounded point, of entries in units of 2^-40, from the box of all columns from 0 to 10.
fn rounded(alloc: Global, x: i128, y: i128) -> Result<String, AllocError> {
    let problem = problem(alloc, None)?;
    let root = description(alloc, [0, 0], [10, 10])?;
    let point = [Fixed { raw: x }, Fixed { raw: y }];
    told(
        alloc,
        round_point(alloc, &problem, &root, point.as_slice())?,
    )
}

// Where a dive ends.
fn dived(
    alloc: Global,
    high: Option<i128>,
    lows: [i64; 2],
    highs: [i64; 2],
) -> Result<String, AllocError>
    requires end { AreEnds (Some (pos 7)) high }
    requires lows { All (IsWithin (10 ^ 9)) lows }
    requires highs { All (IsWithin (10 ^ 9)) highs }
    requires point { IsTrue (has_point lows highs) }
{
    let problem = problem(alloc, high)?;
    let desc = description(alloc, lows, highs)?;
    told(alloc, dive(alloc, &problem, &desc)?)
}

#[test]
fn points_are_found(rt: HostRuntime) -> Result<(), Fail> {
    let alloc = rt.alloc();
    let one: i128 = 1 << 40;
    let near = rounded(alloc, one * 8 / 5, one * 9 / 10)?;
    assert_eq!(rt; near.as_str(), "2 1");
    let broken = rounded(alloc, 0, 0)?;
    assert_eq!(rt; broken.as_str(), "none");
    let half_up = rounded(alloc, one / 2, one * 3 / 2)?;
    assert_eq!(rt; half_up.as_str(), "1 2");
    let outside = rounded(alloc, i128::MAX, i128::MIN)?;
    assert_eq!(rt; outside.as_str(), "10 0");
    let root = dived(alloc, None, [0, 0], [10, 10])?;
    assert_eq!(rt; root.as_str(), "0 3");
    let no_point = dived(alloc, None, [0, 0], [1, 1])?;
    assert_eq!(rt; no_point.as_str(), "none");
    let two_ends = dived(alloc, Some(8), [0, 0], [10, 10])?;
    assert_eq!(rt; two_ends.as_str(), "1 2");
    let missed = dived(alloc, Some(7), [0, 0], [1, 10])?;
    assert_eq!(rt; missed.as_str(), "none");
    let met = dived(alloc, Some(7), [0, 0], [10, 10])?;
    assert_eq!(rt; met.as_str(), "2 1");
    Ok(())
}

fn decisions_told(alloc: Global, decisions: &[Decision]) -> Result<String, AllocError> {
    let mut text = String::new(alloc);
    for decision in decisions {
        let gap = if text.is_empty() { "" } else { " " };
        let column = if decision.column == 0 { "X" } else { "Y" };
        let side = if decision.side == Side::AtMost {
            "<="
        } else {
            ">="
        };
        let value = decision.value;
        let told = format!(in alloc; "{gap}{column}{side}{value}")?;
        text.push_str(told.as_str())?;
    }
    Ok(text)
}

// Decisions, or that a number on the way left `i128`.
fn outcome(alloc: Global, decisions: Option<Items<Decision>>) -> Result<String, AllocError> {
    match decisions {
        Some(decisions) => decisions_told(alloc, decisions.as_slice()),
        None => String::from_str(alloc, "too wide"),
    }
}

// What the multiplier y over d fixes in the box of all columns from 0 to 10, where its bound is
// below the cutoff.
fn fixed(alloc: Global, y: i64, d: i64, cutoff: i128) -> Result<String, AllocError>
    requires { pos 1 ≤ℤ d }
{
    let problem = problem(alloc, None)?;
    let root = description(alloc, [0, 0], [10, 10])?;
    let y = [y];
    match bound(&problem, &root, y.as_slice(), d) {
        Some(least) if least < cutoff => outcome(
            alloc,
            fix(alloc, &problem, &root, y.as_slice(), d, cutoff)?,
        ),
        _ => String::from_str(alloc, "no gap"),
    }
}

// The same in one pass over the rows.
fn fixed_at_once(alloc: Global, y: i64, d: i64, cutoff: i128) -> Result<String, AllocError>
    requires { pos 1 ≤ℤ d }
{
    let problem = problem(alloc, None)?;
    let root = description(alloc, [0, 0], [10, 10])?;
    let reduced = ReducedCosts::new(alloc, &problem, &root, [y].as_slice(), d)?;
    match reduced.bound() {
        Some(least) if least < cutoff => {
            outcome(alloc, fix_by(alloc, &problem, &root, &reduced, cutoff)?)
        }
        _ => String::from_str(alloc, "no gap"),
    }
}

#[test]
fn bounds_are_fixed(rt: HostRuntime) -> Result<(), Fail> {
    let alloc = rt.alloc();
    for (y, d, cutoff, want) in [
        (0, 1, 8, "X<=3 Y<=2"),
        (1, 1, 8, ""),
        (0, 1, 21, "Y<=6"),
        (0, 1, 22, "Y<=7"),
        (0, 1, 1, "X<=0 Y<=0"),
        (0, 1, 0, "no gap"),
        (1, 2, 5, "X<=0 Y<=0"),
        (2, 1, -20, "X>=3 Y>=5"),
        (2, 1, -35, "X>=10 Y>=10"),
        (2, 1, i128::MAX, "too wide"),
        (0, 2, i128::MAX, "too wide"),
        (0, 1, i128::MAX, ""),
        (-1, 1, 8, "no gap"),
    ] {
        let told = fixed(alloc, y, d, cutoff)?;
        assert_eq!(rt; told.as_str(), want, "at {y}, {d}, {cutoff}");
        let at_once = fixed_at_once(alloc, y, d, cutoff)?;
        assert_eq!(rt; at_once.as_str(), want, "at {y}, {d}, {cutoff}");
    }
    Ok(())
}

// 2 X + 3 Y in all over the row 2^23 X + 2^24 Y of at least 6 * 2^23, with columns from 0 to 10.
const LARGE_ROW: &[u8] =
    b"NAME\nROWS\n N C\n G R\nCOLUMNS\n M 'MARKER' 'INTORG'\n X C 2 R 8388608\n Y C 3 R 16777216\n M 'MARKER' 'INTEND'\nRHS\n B R 50331648\nBOUNDS\n UP B X 10\n UP B Y 10\nENDATA\n";

// Over the large row alone a unit of Y is the cheapest: 3 of it cost 9.
#[test]
fn large_rows_have_multipliers(rt: HostRuntime) -> Result<(), Fail> {
    let alloc = rt.alloc();
    let root = description(alloc, [0, 0], [10, 10])?;
    let small = problem(alloc, None)?;
    assert!(rt; !has_large_numbers(&small));
    let large = bl_mps::read(alloc, LARGE_ROW).ok().expect(&rt, "a problem");
    assert!(rt; has_large_numbers(&large));
    let want = RowMultiplier {
        row: 0,
        value: 3,
        denominator: 16_777_216,
        gain: 9,
    };
    assert_eq!(rt; best_row_multiplier(alloc, &large, &root)?, Some(want));
    Ok(())
}
