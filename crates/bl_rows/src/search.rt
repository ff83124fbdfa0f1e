//! The search of one seat: cuts at the root, and the tidying of the tree.
ghost use Rattle.std.specs.Prelude.{IfOk};
ghost use Rattle.bl_branch.specs.Rules.{IsSplittable, Splits};

use bl_branch::{BranchRule, Place, half};
use bl_cover::{CutKinds, KindSeparator, Separate, Try};
use bl_desc::{Desc, Form};
use bl_fixed::Fixed;
use bl_journal::{Entry, Journal, Order, Settings, Step};
use bl_mps::read;
use bl_problem::{Cut, Problem};
use bl_search::search_tree;
use std::alloc::{AllocError, Global};
use std::sync::Arc;
use std::test::Fail;

/// An equation that no whole numbers meet, since its right side is odd: two units of each of
/// three columns.
const ODD: &[u8] = b"NAME
ROWS
 N  COST
 E  R1
COLUMNS
    M  'MARKER'  'INTORG'
    X  COST  2  R1  2
    Y  COST  3  R1  2
    Z  COST  4  R1  2
    M  'MARKER'  'INTEND'
RHS
    RHS  R1  3
BOUNDS
 UP BND X 5
 UP BND Y 5
 UP BND Z 5
ENDATA
";

/// Six columns of two units each, whose sum is to be odd: without cuts there is much to search.
pub(crate) const ODDER: &[u8] = b"NAME
ROWS
 N  COST
 E  R1
COLUMNS
    M  'MARKER'  'INTORG'
    U  COST  2  R1  2
    V  COST  3  R1  2
    W  COST  4  R1  2
    X  COST  5  R1  2
    Y  COST  6  R1  2
    Z  COST  7  R1  2
    M  'MARKER'  'INTEND'
RHS
    RHS  R1  101
BOUNDS
 UP BND U 20
 UP BND V 20
 UP BND W 20
 UP BND X 20
 UP BND Y 20
 UP BND Z 20
ENDATA
";

/// Proposes nothing.
#[derive(Drop)]
pub(crate) struct Silent {}

impl Separate for Silent {
    ghost allows = { λ s p desc t. ⊥ };

    fn ask(
        &self,
        alloc: Global,
        problem: &Problem,
        desc: &Desc<Cut>,
        point: &[Fixed],
    ) -> Result<Option<Try>, AllocError> {
        Ok(None)
    }
}

/// Splits the first widest column in the middle.
pub(crate) fn by_half(desc: &Desc<Cut>, point: &[Fixed]) -> Place
    requires { IsSplittable desc.now point.now }
    ensures { Splits desc.now result }
{
    half(desc, point)
}

/// The problem of a text.
pub(crate) fn problem(alloc: Global, text: &[u8]) -> Result<Arc<Problem>, Fail> {
    if text.len() > 10_000 {
        return Err(Fail::new("the model is long"));
    }
    match read(alloc, text) {
        Ok(problem) => Ok(Arc::new(alloc, problem)?),
        Err(_) => Err(Fail::new("the model is refused")),
    }
}

/// Whether seat 0 stores the node whole or frees it after this place, before it takes another.
fn is_settled(journal: &Journal, place: usize, node: u32) -> bool {
    for later in place..journal.len() {
        match journal.get(later) {
            Some(Entry::Take { .. }) => return false,
            Some(
                Entry::Encode {
                    id,
                    form: Form::Explicit,
                    ..
                },
            ) => {
                if *id == node {
                    return true;
                }
            }
            Some(Entry::Free { ids, .. }) => {
                if ids.as_slice().contains(&node) {
                    return true;
                }
            }
            _ => {}
        }
    }
    false
}

/// How many puts split, and how many of those whose number four divides have a child that isn't
/// settled in time.
fn unsettled(journal: &Journal) -> (u32, u32) {
    let mut splits: u32 = 0;
    let mut late: u32 = 0;
    for place in 0..journal.len() {
        if let Some(
            Entry::Put {
                next: Step::Split { .. },
                ..
            },
        ) = journal.get(place)
        {
            splits = splits.saturating_add(1);
            let right = splits.saturating_mul(2);
            let is_due = splits % 4 == 0;
            if is_due && !is_settled(journal, place, right.saturating_sub(1)) {
                late = late.saturating_add(1);
            }
            if is_due && !is_settled(journal, place, right) {
                late = late.saturating_add(1);
            }
        }
    }
    (splits, late)
}

#[test]
fn cuts_close_the_root(rt: HostRuntime) -> Result<(), Fail> {
    let alloc = rt.alloc();
    let rule = BranchRule::new(by_half);
    let rows = KindSeparator::new(CutKinds::Rows);
    let settings = Settings {
        nodes: 1,
        span: 8,
        order: Order::Best,
        gap: 0,
    };
    let search = search_tree(alloc, &problem(alloc, ODD)?, settings, &rule, &rows)?;
    assert!(rt; !search.limited);
    assert_eq!(rt; search.tree.glance().best, None);
    Ok(())
}

#[test]
fn searches_tidy_up(rt: HostRuntime) -> Result<(), Fail> {
    let alloc = rt.alloc();
    let rule = BranchRule::new(by_half);
    let settings = Settings {
        nodes: 12,
        span: 8,
        order: Order::Best,
        gap: 0,
    };
    let search = search_tree(alloc, &problem(alloc, ODDER)?, settings, &rule, &Silent {})?;
    // in so short a search none of the children that are due is born whole
    let (splits, late) = unsettled(search.tree.journal());
    assert!(rt; splits >= 8);
    assert_eq!(rt; late, 0);
    Ok(())
}
