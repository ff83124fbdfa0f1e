//! Cuts of worked problems: what `derive`, `separate`, `cover_cut` and `find_cover` give.
ghost use Rattle.std.specs.Prelude.{◌≡◌, ◌+◌, ◌<◌, ◌^◌, replicate, length, [], pos, All, IfOk};
ghost use Rattle.std.specs.Prelude.{OnOk, IfSome};
ghost use Rattle.bl_problem.specs.Sums.{IsWithin};
ghost use Rattle.bl_problem.specs.Cuts.{SuitsProblem};
ghost use Rattle.bl_bound.specs.Descriptions.{Describes};

use bl_bound::empty;
use bl_cover::{CoverFault, CutKinds, KindSeparator, Separate, Try, cover_cut, find_cover};
use bl_cuts::{CutFault, derive, separate};
use bl_desc::Desc;
use bl_fixed::Fixed;
use bl_mods::{ItemId, Items, Shared};
use bl_problem::{Cut, Problem};
use std::alloc::{AllocError, Global};
use std::test::Fail;

const ONE: i128 = 1 << 40;

// 2 X + 2 Y = 3, with columns from 0 to 5.
fn odd(alloc: Global) -> Option<Problem> {
    bl_mps::read(
        alloc,
        b"NAME\nROWS\n N C\n E R\nCOLUMNS\n M 'MARKER' 'INTORG'\n X C 2 R 2\n Y C 3 R 2\n M 'MARKER' 'INTEND'\nRHS\n B R 3\nBOUNDS\n UP B X 5\n UP B Y 5\nENDATA\n",
    )
    .ok()
}

// 2 X + 3 Y at least 7, with columns from 0 to 10.
fn at_least(alloc: Global) -> Option<Problem> {
    bl_mps::read(
        alloc,
        b"NAME\nROWS\n N C\n G R\nCOLUMNS\n M 'MARKER' 'INTORG'\n X C 2 R 2\n Y C 3 R 3\n M 'MARKER' 'INTEND'\nRHS\n B R 7\nBOUNDS\n UP B X 10\n UP B Y 10\nENDATA\n",
    )
    .ok()
}

// Weights 10, 20 and 30 in a knapsack of 50, with columns 0 or 1.
fn knapsack(alloc: Global) -> Option<Problem> {
    bl_mps::read(
        alloc,
        b"NAME\nROWS\n N C\n L R\nCOLUMNS\n M 'MARKER' 'INTORG'\n A C -60 R 10\n B C -100 R 20\n D C -120 R 30\n M 'MARKER' 'INTEND'\nRHS\n B R 50\nENDATA\n",
    )
    .ok()
}

// The box of each column from 0 to a high, with these cuts.
fn desc(alloc: Global, highs: Vec<i64>, cuts: Vec<Shared<Cut>>) -> Result<Desc<Cut>, AllocError>
    ensures lows { IfOk result (λ d. d.lows ≡ replicate (length highs.items) (pos 0)) }
    ensures highs { IfOk result (λ d. d.highs ≡ highs.items) }
    ensures cuts { IfOk result (λ d. d.cuts ≡ cuts.items) }
{
    Ok(Desc {
        lows: Items::from_vec(Vec::from_elem(alloc, 0, highs.len())?),
        highs: Items::from_vec(highs),
        cuts: Items::from_vec(cuts),
        column_status: Items::new(alloc),
        row_status: Items::new(alloc),
        cut_status: Items::new(alloc),
    })
}

fn fixed(raw: i128) -> Fixed
    ensures { result.raw ≡ raw }
{
    Fixed { raw }
}

// Whether a cut has this right side and, on each column from 0 on, this coefficient.
fn is_cut(cut: &Cut, coefficient: i64, columns: usize, right: i128) -> bool {
    let mut all = cut.terms.len() == columns && cut.right == right;
    for (column, term) in cut.terms.as_slice().iter().enumerate() {
        all = all && term.column as usize == column && term.coefficient == coefficient;
    }
    all
}

// The box of so many columns from 0 to a high, without cuts.
fn box_to(alloc: Global, high: i64, columns: usize) -> Result<Desc<Cut>, AllocError>
    ensures lows { IfOk result (λ d. d.lows ≡ replicate columns (pos 0)) }
    ensures highs { IfOk result (λ d. d.highs ≡ replicate columns high) }
    ensures cuts { IfOk result (λ d. d.cuts ≡ []) }
{
    let highs = Vec::from_elem(alloc, high, columns)?;
    desc(alloc, highs, Vec::new(alloc))
}

// The cut of one row by this weight, divided by 2.
fn halved(alloc: Global, problem: &Problem, weight: i64) -> Result<Cut, CutFault>
    requires row { length problem.now.rows ≡ 1 }
    ensures suits { IfOk result (SuitsProblem problem.now) }
{
    let id = ItemId { seat: 0, serial: 0 };
    derive(alloc, problem, &[], &[weight], 2, id)
}

// Adds the cut of one row by this weight to a description.
fn add_halved(
    alloc: Global,
    problem: &Problem,
    desc: &mut Desc<Cut>,
    weight: i64,
) -> Result<(), Fail>
    requires suits { Describes problem.now desc.old }
    requires few { length desc.old.cuts < 200 }
    requires row { length problem.now.rows ≡ 1 }
    ensures suits { OnOk result (Describes problem.now desc.new) }
    ensures cuts { OnOk result (length desc.new.cuts ≡ length desc.old.cuts + 1) }
{
    let cut = halved(alloc, problem, weight)?;
    desc.cuts.push(Shared::new(alloc, cut)?)?;
    Ok(())
}

// The weight 1 and the weight -1 on the row 2 X + 2 Y = 3, divided by 2, give X + Y at most 1
// and at least 2, and with both cuts no point is left.
#[test]
fn derived_cuts(rt: HostRuntime) -> Result<(), Fail> {
    let alloc = rt.alloc();
    let problem = odd(alloc).expect(&rt, "a problem");
    assert_eq!(rt; problem.rows().len(), 1);
    assert_eq!(rt; problem.columns().len(), 2);
    assert!(rt; is_cut(&halved(alloc, &problem, 1)?, 1, 2, 1));
    assert!(rt; is_cut(&halved(alloc, &problem, -1)?, -1, 2, -2));
    let mut both = box_to(alloc, 5, 2)?;
    add_halved(alloc, &problem, &mut both, 1)?;
    add_halved(alloc, &problem, &mut both, -1)?;
    assert!(rt; empty(&problem, &both, &[0, -1, -1]));
    Ok(())
}

// A weight at an end that is missing is refused.
#[test]
fn missing_end(rt: HostRuntime) -> Result<(), Fail> {
    let alloc = rt.alloc();
    let problem = at_least(alloc).expect(&rt, "a problem");
    assert_eq!(rt; problem.rows().len(), 1);
    let id = ItemId { seat: 0, serial: 0 };
    assert!(rt; derive(alloc, &problem, &[], &[1], 2, id).err() == Some(CutFault::Weights));
    Ok(())
}

// At X = 3/2 and Y = 0 the cut of weight 1 is broken, at 0 and 0 that of weight -1.
#[test]
fn separated_rows(rt: HostRuntime) -> Result<(), Fail> {
    let alloc = rt.alloc();
    let problem = odd(alloc).expect(&rt, "a problem");
    assert_eq!(rt; problem.columns().len(), 2);
    let root = box_to(alloc, 5, 2)?;
    for (x, weight) in [(3 << 39, 1), (0, -1)] {
        let pick = separate(alloc, &problem, &root, &[fixed(x), fixed(0)])?.expect(&rt, "a pick");
        assert!(rt; pick.weights.as_slice() == [weight].as_slice() && pick.q == 2);
    }
    Ok(())
}

// Weights 10, 20 and 30 are above 50, 20 and 30 alone are not.
#[test]
fn covers_of_rows(rt: HostRuntime) -> Result<(), Fail> {
    let alloc = rt.alloc();
    let problem = knapsack(alloc).expect(&rt, "a problem");
    assert!(rt; problem.rows().len() == 1 && problem.columns().len() == 3);
    let id = ItemId { seat: 0, serial: 0 };
    match cover_cut(alloc, &problem, 0, &[0, 1, 2], id) {
        Ok(cut) => assert!(rt; is_cut(&cut, 1, 3, 2)),
        Err(_) => assert!(rt; false),
    }
    for (columns, want) in [
        ([1, 2].as_slice(), CoverFault::Fits { slack: 0 }),
        ([1, 0].as_slice(), CoverFault::Column { place: 1 }),
        ([0, 0].as_slice(), CoverFault::Column { place: 1 }),
    ] {
        assert!(rt; cover_cut(alloc, &problem, 0, columns, id).err() == Some(want));
    }
    let other = at_least(alloc).expect(&rt, "a problem");
    assert_eq!(rt; other.rows().len(), 1);
    assert!(rt; cover_cut(alloc, &other, 0, &[0], id).err() == Some(CoverFault::NoEnd));
    Ok(())
}

// What a separator answers, as a row and columns, or as weights.
fn asks<S: Separate>(
    alloc: Global,
    separator: &S,
    problem: &Problem,
    desc: &Desc<Cut>,
    point: &[Fixed],
) -> Result<Option<Try>, AllocError>
    requires suits { Describes problem.now desc.now }
    requires width { length point.now ≡ length problem.now.columns }
    requires near { All (λ x. IsWithin (2 ^ 70) x.raw) point.now }
    ensures { IfOk result (λ answer. IfSome answer (S.allows separator.now problem.now desc.now)) }
{
    separator.ask(alloc, problem, desc, point)
}

// Whether a cover of this row and these columns is proposed.
fn is_cover(answer: &Option<Try>, wanted_row: u32, wanted: &[u32]) -> bool {
    match answer {
        Some(Try::Cover { row, columns }) => *row == wanted_row && columns.as_slice() == wanted,
        _ => false,
    }
}

// At 1, 1 and 2/3 the cover of all three columns is broken, at 0, 1 and 1 none.
#[test]
fn found_covers(rt: HostRuntime) -> Result<(), Fail> {
    let alloc = rt.alloc();
    let problem = knapsack(alloc).expect(&rt, "a problem");
    assert_eq!(rt; problem.columns().len(), 3);
    let root = box_to(alloc, 1, 3)?;
    let broken = [fixed(ONE), fixed(ONE), fixed(733007751850)];
    let found = find_cover(alloc, &problem, &root, &broken)?;
    assert!(rt; is_cover(&found, 0, [0, 1, 2].as_slice()));
    let met = [fixed(0), fixed(ONE), fixed(ONE)];
    assert!(rt; find_cover(alloc, &problem, &root, &met)?.is_none());
    for (kinds, some) in [
        (CutKinds::Rows, false),
        (CutKinds::Covers, true),
        (CutKinds::Both, true),
    ] {
        let separator = KindSeparator::new(kinds);
        assert_eq!(rt;
            asks(alloc, &separator, &problem, &root, &broken)?.is_some(),
            some
        );
    }
    Ok(())
}

// Each fault is printed as its name.
#[test]
fn fault_names(rt: HostRuntime) -> Result<(), Fail> {
    for (fault, name) in [
        (CutFault::Weights, "Weights"),
        (CutFault::TooWide, "TooWide"),
        (CutFault::Memory, "Memory"),
    ] {
        assert_eq!(rt; format!(in rt.alloc(); "{fault}")?.as_str(), name);
    }
    Ok(())
}
