//! Bounds of a problem with two columns X and Y from 0 to 10, costs 2 and 3, and the row 2X + 3Y
//! >= 7, and with the cut X + Y <= 1.
ghost use Rattle.std.specs.Prelude.{◌≡◌, [], ◌∷◌, Some, None, pos, length, IfOk};

use crate::{bound, empty, greatest_unit_bound};
use bl_desc::Desc;
use bl_mods::{ItemId, Items, Shared};
use bl_problem::{Column, Cut, Name, Problem, Row, Sense, Term};
use std::alloc::{AllocError, Global};
use std::test::Fail;

fn columns(alloc: Global) -> Result<Vec<Column>, AllocError>
    ensures { IfOk result (λ columns. columns.items ≡
        record { name = 88 ∷ []; low = pos 0; high = pos 10; cost = pos 2 } ∷ record { name = 89 ∷ []; low = pos 0; high = pos 10; cost = pos 3 } ∷ []) }
{
    let x = Name::new(vec![in alloc; b'X']?);
    let y = Name::new(vec![in alloc; b'Y']?);
    let columns = vec![in alloc;
        Column {
            name: x,
            low: 0,
            high: 10,
            cost: 2
        },
        Column {
            name: y,
            low: 0,
            high: 10,
            cost: 3
        },
    ]?;
    Ok(columns)
}

fn rows(alloc: Global) -> Result<Vec<Row>, AllocError>
    ensures { IfOk result (λ rows. rows.items ≡
        record { name = 82 ∷ []; terms = record { column = 0; coefficient = pos 2 } ∷ record { column = 1; coefficient = pos 3 } ∷ []; low = Some (pos 7); high = None } ∷ []) }
{
    let name = Name::new(vec![in alloc; b'R']?);
    let x = Term {
        column: 0,
        coefficient: 2,
    };
    let y = Term {
        column: 1,
        coefficient: 3,
    };
    let terms = Items::from_vec(vec![in alloc; x, y]?);
    Ok(vec![in alloc;
        Row {
            name,
            terms,
            low: Some(7),
            high: None
        },
    ]?)
}

fn problem(alloc: Global) -> Result<Problem, AllocError>
    ensures columns { IfOk result (λ p. length p.columns ≡ 2) }
    ensures rows { IfOk result (λ p. length p.rows ≡ 1) }
{
    let columns = columns(alloc)?;
    let rows = rows(alloc)?;
    let objective = Name::new(vec![in alloc; b'C']?);
    Ok(Problem::new(columns, rows, objective, 0, 0, Sense::Min))
}

fn description(alloc: Global, high: i64) -> Result<Desc<Cut>, AllocError>
    ensures lows { IfOk result (λ d. d.lows ≡ pos 0 ∷ pos 0 ∷ []) }
    ensures highs { IfOk result (λ d. d.highs ≡ high ∷ high ∷ []) }
    ensures cuts { IfOk result (λ d. d.cuts ≡ []) }
{
    Ok(Desc {
        lows: Items::from_vec(vec![in alloc; 0, 0]?),
        highs: Items::from_vec(vec![in alloc; high, high]?),
        cuts: Items::new(alloc),
        column_status: Items::new(alloc),
        row_status: Items::new(alloc),
        cut_status: Items::new(alloc),
    })
}

fn cut(alloc: Global) -> Result<Shared<Cut>, AllocError>
    ensures { IfOk result (λ cut. cut ≡ record {
      id = record { seat = 0; serial = 0 };
      terms = record { column = 0; coefficient = pos 1 } ∷ record { column = 1; coefficient = pos 1 } ∷ [];
      right = pos 1;
    }) }
{
    let id = ItemId { seat: 0, serial: 0 };
    let x = Term {
        column: 0,
        coefficient: 1,
    };
    let y = Term {
        column: 1,
        coefficient: 1,
    };
    let terms = Items::from_vec(vec![in alloc; x, y]?);
    let right = 1;
    Shared::new(alloc, Cut { id, terms, right })
}

#[test]
fn bounds_of_the_worked_problem(rt: HostRuntime) -> Result<(), Fail> {
    let problem = problem(rt.alloc())?;
    let root = description(rt.alloc(), 10)?;
    assert_eq!(rt; bound(&problem, &root, [1].as_slice(), 1), Some(7));
    assert_eq!(rt; bound(&problem, &root, [-1].as_slice(), 1), None);
    assert_eq!(rt; bound(&problem, &root, [0].as_slice(), 1), Some(0));
    assert!(rt; !empty(&problem, &root, [1].as_slice()));
    let tight = description(rt.alloc(), 1)?;
    assert!(rt; empty(&problem, &tight, [1].as_slice()));
    assert_eq!(rt; greatest_unit_bound(&problem, &root), 7);
    Ok(())
}

fn description_with_cut(alloc: Global) -> Result<Desc<Cut>, AllocError>
    ensures lows { IfOk result (λ d. d.lows ≡ pos 0 ∷ pos 0 ∷ []) }
    ensures highs { IfOk result (λ d. d.highs ≡ pos 10 ∷ pos 10 ∷ []) }
    ensures cuts { IfOk result (λ d. d.cuts ≡ record {
      id = record { seat = 0; serial = 0 };
      terms = record { column = 0; coefficient = pos 1 } ∷ record { column = 1; coefficient = pos 1 } ∷ [];
      right = pos 1;
    } ∷ []) }
{
    let mut desc = description(alloc, 10)?;
    desc.cuts.push(cut(alloc)?)?;
    Ok(desc)
}

#[test]
fn bounds_with_a_cut(rt: HostRuntime) -> Result<(), Fail> {
    let problem = problem(rt.alloc())?;
    let desc = description_with_cut(rt.alloc())?;
    assert_eq!(rt; bound(&problem, &desc, [1, -3].as_slice(), 1), Some(4));
    assert_eq!(rt; bound(&problem, &desc, [0, -1].as_slice(), 1), Some(-1));
    assert_eq!(rt; bound(&problem, &desc, [0, 1].as_slice(), 1), None);
    assert!(rt; empty(&problem, &desc, [1, -3].as_slice()));
    assert_eq!(rt; greatest_unit_bound(&problem, &desc), 7);
    Ok(())
}
