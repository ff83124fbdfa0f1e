//! Passes over problems with two columns X and Y, one row, and cuts X + Y <= right.
ghost use Rattle.std.specs.Prelude.{◌≡◌, ◌≤◌, ◌^◌, All, [], ◌∷◌, Some, None, pos, length, IfOk};
ghost use Rattle.bl_problem.specs.Sums.{IsWithin};
ghost use Rattle.bl_problem.specs.Rows.{AreTerms, AreEnds};
ghost use Rattle.bl_problem.specs.Program.{Program};
ghost use Rattle.bl_problem.specs.Cuts.{SuitsProblem};

use crate::{Decision, Side, Tightened, tighten};
use bl_desc::Desc;
use bl_mods::{ItemId, Items, Shared};
use bl_problem::{Column, Cut, Name, Problem, Row, Sense, Term};
use std::alloc::{AllocError, Global};
use std::test::Fail;

fn columns(alloc: Global) -> Result<Vec<Column>, AllocError>
    ensures { IfOk result (λ columns. columns.items ≡
        record { name = 88 ∷ []; low = pos 0; high = pos 10; cost = pos 2 } ∷ record { name = 89 ∷ []; low = pos 0; high = pos 10; cost = pos 3 } ∷ []) }
{
    let x = Name::new(vec![in alloc; b'X']?);
    let y = Name::new(vec![in alloc; b'Y']?);
    let columns = vec![in alloc;
        Column {
            name: x,
            low: 0,
            high: 10,
            cost: 2
        },
        Column {
            name: y,
            low: 0,
            high: 10,
            cost: 3
        },
    ]?;
    Ok(columns)
}

// The row a X + b Y from `low` to `high`.
fn rows(
    alloc: Global,
    a: i64,
    b: i64,
    low: Option<i128>,
    high: Option<i128>,
) -> Result<Vec<Row>, AllocError>
    ensures { IfOk result (λ rows. rows.items ≡
        record { name = 82 ∷ []; terms = record { column = 0; coefficient = a } ∷ record { column = 1; coefficient = b } ∷ []; low = low; high = high } ∷ []) }
{
    let name = Name::new(vec![in alloc; b'R']?);
    let x = Term {
        column: 0,
        coefficient: a,
    };
    let y = Term {
        column: 1,
        coefficient: b,
    };
    let terms = Items::from_vec(vec![in alloc; x, y]?);
    Ok(vec![in alloc;
        Row {
            name,
            terms,
            low,
            high
        },
    ]?)
}

fn problem(
    alloc: Global,
    a: i64,
    b: i64,
    low: Option<i128>,
    high: Option<i128>,
) -> Result<Problem, AllocError>
    requires terms { AreTerms 2 (record { column = 0; coefficient = a }
        ∷ record { column = 1; coefficient = b } ∷ []) }
    requires ends { AreEnds low high }
    ensures { IfOk result (λ p. length p.columns ≡ 2) }
{
    let columns = columns(alloc)?;
    let rows = rows(alloc, a, b, low, high)?;
    let objective = Name::new(vec![in alloc; b'C']?);
    Ok(Problem::new(columns, rows, objective, 0, 0, Sense::Min))
}

// The cut X + Y <= right.
fn cut(alloc: Global, right: u8) -> Result<Shared<Cut>, AllocError>
    ensures { IfOk result (λ cut. (p : Program) → length p.columns ≡ 2 → SuitsProblem p cut) }
{
    let id = ItemId { seat: 0, serial: 0 };
    let x = Term {
        column: 0,
        coefficient: 1,
    };
    let y = Term {
        column: 1,
        coefficient: 1,
    };
    let terms = Items::from_vec(vec![in alloc; x, y]?);
    let right = right as i128;
    Shared::new(alloc, Cut { id, terms, right })
}

fn cuts(alloc: Global, rights: &[u8]) -> Result<Items<Shared<Cut>>, AllocError>
    ensures count { IfOk result (λ cuts. length cuts ≡ length rights.now) }
    ensures suit { IfOk result (λ cuts. (p : Program) → length p.columns ≡ 2
        → All (SuitsProblem p) cuts) }
{
    let mut cuts = Items::new(alloc);
    for right in rights {
        cuts.push(cut(alloc, *right)?)?;
    }
    Ok(cuts)
}

fn description(alloc: Global, highs: [i64; 2], rights: &[u8]) -> Result<Desc<Cut>, AllocError>
    requires few { length rights.now ≤ 200 }
    ensures lows { IfOk result (λ d. d.lows ≡ pos 0 ∷ pos 0 ∷ []) }
    ensures highs { IfOk result (λ d. d.highs ≡ highs) }
    ensures few { IfOk result (λ d. length d.cuts ≤ 200) }
    ensures suit { IfOk result (λ d. (p : Program) → length p.columns ≡ 2
        → All (SuitsProblem p) d.cuts) }
{
    Ok(Desc {
        lows: Items::from_vec(vec![in alloc; 0, 0]?),
        highs: Items::from_vec(Vec::from_array(alloc, highs)?),
        cuts: cuts(alloc, rights)?,
        column_status: Items::new(alloc),
        row_status: Items::new(alloc),
        cut_status: Items::new(alloc),
    })
}

fn decisions_told(alloc: Global, decisions: &[Decision]) -> Result<String, AllocError> {
    let mut text = String::new(alloc);
    for decision in decisions {
        let gap = if text.is_empty() { "" } else { " " };
        let column = if decision.column == 0 { "X" } else { "Y" };
        let side = if decision.side == Side::AtMost {
            "<="
        } else {
            ">="
        };
        let value = decision.value;
        let told = format!(in alloc; "{gap}{column}{side}{value}")?;
        text.push_str(told.as_str())?;
    }
    Ok(text)
}

// What a pass answers: all decisions in order, or the line that no point meets. The row is a X +
// b Y from `low` to `high`, the columns go from 0 to `highs`, and each of `rights` has its cut.
fn told(
    alloc: Global,
    a: i64,
    b: i64,
    low: Option<i128>,
    high: Option<i128>,
    highs: [i64; 2],
    rights: &[u8],
) -> Result<String, AllocError>
    requires terms { AreTerms 2 (record { column = 0; coefficient = a }
        ∷ record { column = 1; coefficient = b } ∷ []) }
    requires ends { AreEnds low high }
    requires highs { All (IsWithin (10 ^ 9)) highs }
    requires few { length rights.now ≤ 200 }
{
    let problem = problem(alloc, a, b, low, high)?;
    let desc = description(alloc, highs, rights)?;
    match tighten(alloc, &problem, &desc)? {
        Tightened::Empty { row } => format!(in alloc; "none at line {row}"),
        Tightened::Changed(decisions) => decisions_told(alloc, decisions.as_slice()),
        Tightened::Same => String::from_str(alloc, "same"),
    }
}

// The numbers from 199 down to 50.
fn falling() -> [u8; 150]
    ensures { length result ≡ 150 }
{
    let mut rights = [0; 150];
    for k in 0..150 {
        rights[k] = 199 - k as u8;
    }
    rights
}

// The first 256 decisions of the row X + Y <= 220 and of cuts whose right sides fall from 199 by 1.
fn first_256(alloc: Global) -> Result<String, AllocError> {
    let mut text = String::from_str(alloc, "Y<=220")?;
    for k in 0u8..127 {
        let right = 199 - k;
        let two = format!(in alloc; " X<={right} Y<={right}")?;
        text.push_str(two.as_str())?;
    }
    text.push_str(" X<=72")?;
    Ok(text)
}

#[test]
fn tightens_small_problems(rt: HostRuntime) -> Result<(), Fail> {
    let alloc = rt.alloc();
    let loose = told(alloc, 2, 3, Some(7), None, [10, 10], [].as_slice())?;
    assert_eq!(rt; loose.as_str(), "same");
    let row_too_high = told(alloc, 2, 3, Some(7), None, [1, 1], [].as_slice())?;
    assert_eq!(rt; row_too_high.as_str(), "none at line 0");
    let low_end = told(alloc, 2, 3, Some(7), None, [2, 10], [].as_slice())?;
    assert_eq!(rt; low_end.as_str(), "Y>=1");
    let both_ends = told(alloc, 2, 3, Some(8), Some(9), [10, 1], [].as_slice())?;
    assert_eq!(rt; both_ends.as_str(), "X<=4 X>=3");
    let equation = told(alloc, 3, 2, Some(17), Some(17), [6, 4], [].as_slice())?;
    assert_eq!(rt; equation.as_str(), "X<=5 X>=3 Y>=1");
    let negative = told(alloc, 2, -3, None, Some(-6), [10, 10], [].as_slice())?;
    assert_eq!(rt; negative.as_str(), "Y>=2");
    let negated = told(alloc, -2, 5, Some(11), None, [10, 4], [].as_slice())?;
    assert_eq!(rt; negated.as_str(), "X<=4 Y>=3");
    let cut = told(alloc, 2, 3, Some(7), None, [10, 10], [4].as_slice())?;
    assert_eq!(rt; cut.as_str(), "X<=4 Y<=4");
    let cut_too_low = told(alloc, 2, 3, Some(7), None, [2, 10], [9, 0].as_slice())?;
    assert_eq!(rt; cut_too_low.as_str(), "none at line 2");
    let twice = told(alloc, 1, 1, None, Some(8), [10, 10], [5].as_slice())?;
    assert_eq!(rt; twice.as_str(), "X<=8 Y<=8 X<=5 Y<=5");
    let full = told(
        alloc,
        1,
        1,
        None,
        Some(220),
        [200, 250],
        falling().as_slice(),
    )?;
    assert_eq!(rt; full.as_str(), first_256(alloc)?.as_str());
    Ok(())
}
