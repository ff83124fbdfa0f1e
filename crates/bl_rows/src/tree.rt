//! Trees of a problem with two columns X and Y, costs 2 and 3, and the row 2X + 3Y >= 7.
ghost use Rattle.std.specs.Prelude.{◌≡◌, [], ◌∷◌, pos, ◌⊎◌, ◌≤ℤ◌, IfOk, IfSome};
ghost use Rattle.bl_journal.specs.Covering.{covering, row, with_gap, split_root};
ghost use Rattle.bl_journal.specs.declared.entry.Entry.TheVariants.{Take};
ghost use Rattle.bl_tree.specs.Views.{IsLeaseOf};
ghost use Rattle.bl_tree.specs.Jobs.{IsJobOf};
ghost use Rattle.bl_journal.specs.Covering.{IsRange};

use bl_desc::{Change, Form, Piece};
use bl_journal::{Next, Order, Outcome, Settings};
use bl_mods::{Items, Mod, Shared};
use bl_problem::{Column, Name, Problem, Row, Sense, Term};
use bl_rebuild::rebuild;
use bl_tree::laws::{jobs_stay, plans_make_jobs};
use bl_tree::{Answer, Born, Freed, Installed, Job, Lease, Planned, Taken, Tree, encode};
use std::alloc::{AllocError, Global};
use std::sync::Arc;
use std::test::Fail;

fn columns(alloc: Global, low: i64) -> Result<Vec<Column>, AllocError>
    requires { low ≡ pos 0 ⊎ low ≡ pos 11 }
    ensures { IfOk result (λ columns. columns.items ≡
        record { name = 88 ∷ []; low = low; high = pos 10; cost = pos 2 } ∷ record { name = 89 ∷ []; low = pos 0; high = pos 10; cost = pos 3 } ∷ []) }
{
    let x = Name::new(vec![in alloc; b'X']?);
    let y = Name::new(vec![in alloc; b'Y']?);
    let columns = vec![in alloc;
        Column {
            name: x,
            low,
            high: 10,
            cost: 2
        },
        Column {
            name: y,
            low: 0,
            high: 10,
            cost: 3
        },
    ]?;
    Ok(columns)
}

fn rows(alloc: Global) -> Result<Vec<Row>, AllocError>
    ensures { IfOk result (λ rows. rows.items ≡ row ∷ []) }
{
    let name = Name::new(vec![in alloc; b'R']?);
    let x = Term {
        column: 0,
        coefficient: 2,
    };
    let y = Term {
        column: 1,
        coefficient: 3,
    };
    let terms = Items::from_vec(vec![in alloc; x, y]?);
    Ok(vec![in alloc;
        Row {
            name,
            terms,
            low: Some(7),
            high: None
        },
    ]?)
}

// The problem, but for the low of X.
pub fn problem(alloc: Global, low: i64) -> Result<Problem, AllocError>
    requires { low ≡ pos 0 ⊎ low ≡ pos 11 }
    ensures { IfOk result (λ problem. low ≡ pos 0 → problem ≡ covering) }
{
    let columns = columns(alloc, low)?;
    let rows = rows(alloc)?;
    let objective = Name::new(vec![in alloc; b'C']?);
    Ok(Problem::new(columns, rows, objective, 0, 0, Sense::Min))
}

// The tree of the problem with this low of X and this gap; where the low is 11, its box has no
// point.
fn open_tree(alloc: Global, low: i64, gap: i128) -> Result<Tree, AllocError>
    requires low { low ≡ pos 0 ⊎ low ≡ pos 11 }
    requires gap { (pos 0 ≤ℤ gap) × (gap ≤ℤ pos 3) }
    ensures { IfOk result (λ tree. low ≡ pos 0 → tree
        ≡ record { problem = covering; settings = with_gap gap; history = [] }) }
{
    let problem = problem(alloc, low)?;
    let settings = Settings {
        nodes: 100,
        span: 8,
        order: Order::Best,
        gap,
    };
    Tree::new(alloc, Arc::new(alloc, problem)?, settings)
}

// The split of the root at X at most 4; a point with X at 2 is found, whose Y is given, or none.
fn split(alloc: Global, found: Option<i64>) -> Result<Outcome, AllocError>
    ensures { IfOk result (λ outcome. outcome ≡ split_root found) }
{
    let mut left = Change::new(alloc);
    left.highs.push(0, 4)?;
    let mut right = Change::new(alloc);
    right.lows.push(0, 5)?;
    let common = Shared::new(alloc, Change::new(alloc))?;
    let next = Next::Split {
        common,
        column: 0,
        at: 4,
        left: Piece::Relative(Shared::new(alloc, left)?),
        right: Piece::Relative(Shared::new(alloc, right)?),
    };
    match found {
        Some(y) => {
            let point = Items::from_vec(vec![in alloc; 2, y]?);
            Ok(Outcome {
                found: Some(point),
                low: 7,
                next,
            })
        }
        None => Ok(Outcome {
            found: None,
            low: 0,
            next,
        }),
    }
}

// Hands in the split of the root.
fn put_root(
    alloc: Global,
    tree: &mut Tree,
    lease: Lease,
    gap: i128,
    found: Option<i64>,
) -> Result<Option<Born>, AllocError>
    requires tree { tree.old ≡ record {
      problem = covering;
      settings = with_gap gap;
      history =
          Take 0 0 ∷ [];
    } }
    requires leased { IsLeaseOf tree.old 0 lease }
    requires root { lease.id ≡ 0 }
    requires found { IfSome found IsRange }
{
    match split(alloc, found) {
        Ok(outcome) => Ok(tree.put(0, lease, outcome)),
        Err(error) => {
            tree.back(0, lease);
            Err(error)
        }
    }
}

// The tree after the root was taken and split, and what was born.
pub fn split_tree(
    alloc: Global,
    gap: i128,
    found: Option<i64>,
) -> Result<(Tree, Option<Born>), Fail>
    requires gap { (pos 0 ≤ℤ gap) × (gap ≤ℤ pos 3) }
    requires found { IfSome found IsRange }
{
    let mut tree = open_tree(alloc, 0, gap)?;
    match tree.take(0)? {
        Taken::Node(lease) => {
            let born = put_root(alloc, &mut tree, lease, gap, found)?;
            Ok((tree, born))
        }
        Taken::Idle | Taken::Done | Taken::Spent => Err(Fail::new("the root was wanted")),
    }
}

// What a plan answers, without its pieces.
#[derive(Clone, Copy, Debug, PartialEq, Eq)]
enum Reply {
    Gone,
    Same,
    Fixed,
    Chain,
}

// What a plan answers, and Gone where the node is not born.
fn plan(tree: &Tree, id: u32, form: Form) -> Result<Reply, AllocError> {
    if id >= tree.glance().nodes {
        return Ok(Reply::Gone);
    }
    match tree.plan(id, form)? {
        Planned::Gone => Ok(Reply::Gone),
        Planned::Same => Ok(Reply::Same),
        Planned::Fixed => Ok(Reply::Fixed),
        Planned::Chain(_) => Ok(Reply::Chain),
    }
}

// The job to store a node in a form, if it may be stored so.
fn job_for(alloc: Global, tree: &Tree, id: u32, form: Form) -> Result<Option<Job>, AllocError>
    ensures { IfOk result (λ job. IfSome job (IsJobOf tree.now)) }
{
    plans_make_jobs();
    if id >= tree.glance().nodes {
        return Ok(None);
    }
    match tree.plan(id, form)? {
        Planned::Chain(plan) => Ok(Some(encode(alloc, &plan)?)),
        Planned::Gone | Planned::Same | Planned::Fixed => Ok(None),
    }
}

// What an install answers after a node was planned and encoded, if it could be.
fn store(
    alloc: Global,
    tree: &mut Tree,
    id: u32,
    form: Form,
) -> Result<Option<Installed>, AllocError> {
    match job_for(alloc, tree, id, form)? {
        Some(job) => Ok(Some(tree.install(0, job)?.installed())),
        None => Ok(None),
    }
}

// Whether a free answers these nodes, and what the install of a job that was made before it
// answers then.
fn free_and_install(
    tree: &mut Tree,
    nodes: &[u32],
    job: Job,
) -> Result<(bool, Installed), AllocError>
    requires { IsJobOf tree.old job }
{
    jobs_stay();
    let _journal = tree.journal();
    match tree.free(0)? {
        Freed::Chain(freed) => Ok((freed.ids() == nodes, tree.install(0, job)?.installed())),
        Freed::Nothing => Ok((nodes.is_empty(), tree.install(0, job)?.installed())),
    }
}

// The same, of a job that is made before.
fn store_after_free(
    alloc: Global,
    tree: &mut Tree,
    id: u32,
    form: Form,
    nodes: &[u32],
) -> Result<Option<(bool, Installed)>, AllocError> {
    match job_for(alloc, tree, id, form)? {
        Some(job) => Ok(Some(free_and_install(tree, nodes, job)?)),
        None => Ok(None),
    }
}

// Whether a free answers these nodes; none of them stands for Nothing.
fn frees(tree: &mut Tree, nodes: &[u32]) -> Result<bool, AllocError> {
    match tree.free(0)? {
        Freed::Chain(freed) => Ok(freed.ids() == nodes),
        Freed::Nothing => Ok(nodes.is_empty()),
    }
}

// Whether a take answers the node with these bounds. It is handed back.
fn takes(tree: &mut Tree, id: u32, lows: &[i64], highs: &[i64]) -> Result<bool, AllocError> {
    match tree.take(0)? {
        Taken::Node(lease) => {
            let taken = lease.id();
            let desc = rebuild(lease.chain());
            tree.back(0, lease);
            let desc = desc?;
            Ok(taken == id && desc.lows.as_slice() == lows && desc.highs.as_slice() == highs)
        }
        Taken::Idle | Taken::Done | Taken::Spent => Ok(false),
    }
}

// Whether a take answers that no node is live.
fn is_done(tree: &mut Tree) -> Result<bool, AllocError> {
    match tree.take(0)? {
        Taken::Done => Ok(true),
        Taken::Node(lease) => {
            tree.back(0, lease);
            Ok(false)
        }
        Taken::Idle | Taken::Spent => Ok(false),
    }
}

#[test]
fn a_live_root_stays(rt: HostRuntime) -> Result<(), Fail> {
    let mut tree = open_tree(rt.alloc(), 0, 0)?;
    assert!(rt; frees(&mut tree, &[])?);
    assert_eq!(rt; plan(&tree, 0, Form::Relative)?, Reply::Fixed);
    assert_eq!(rt; plan(&tree, 0, Form::Explicit)?, Reply::Same);
    assert_eq!(rt; tree.held(), 7);
    assert!(rt; takes(&mut tree, 0, &[0, 0], &[10, 10])?);
    assert!(rt; frees(&mut tree, &[])?);
    assert_eq!(rt; tree.journal().len(), 2);
    Ok(())
}

#[test]
fn a_root_without_a_point_is_freed(rt: HostRuntime) -> Result<(), Fail> {
    let mut tree = open_tree(rt.alloc(), 11, 0)?;
    assert!(rt; is_done(&mut tree)?);
    assert!(rt; frees(&mut tree, &[0])?);
    assert!(rt; frees(&mut tree, &[])?);
    assert!(rt; tree.stored(0).is_none());
    assert_eq!(rt; tree.held(), 0);
    assert_eq!(rt; plan(&tree, 0, Form::Explicit)?, Reply::Gone);
    assert!(rt; matches!(tree.answer(), Answer::Infeasible));
    Ok(())
}

// Whether node 1 is stored as the change that the high of the first column is 4.
fn is_stored_by_its_high(tree: &Tree) -> bool {
    let high_four = [Mod { place: 0, entry: 4 }];
    match tree.stored(1) {
        Some(Piece::Relative(change)) => { change.get().highs.entries() == high_four.as_slice() }
        _ => false,
    }
}

#[test]
fn children_are_stored_by_one_bound(rt: HostRuntime) -> Result<(), Fail> {
    let (mut tree, born) = split_tree(rt.alloc(), 0, None)?;
    assert_eq!(rt; born, Some(Born { left: 1, right: 2 }));
    assert!(rt; is_stored_by_its_high(&tree));
    assert_eq!(rt; tree.held(), 9);
    assert!(rt; frees(&mut tree, &[])?);
    Ok(())
}

// Whether both children are stored whole, one after the other, and nothing may be freed in between.
fn stores_children(alloc: Global, tree: &mut Tree) -> Result<bool, AllocError> {
    let left = store(alloc, tree, 1, Form::Explicit)?;
    if left != Some(Installed::Made) || !frees(tree, &[])? {
        return Ok(false);
    }
    let right = store(alloc, tree, 2, Form::Explicit)?;
    Ok(right == Some(Installed::Made))
}

// Whether the parent is freed, and a job that was planned before comes too late.
fn frees_parent(alloc: Global, tree: &mut Tree) -> Result<bool, AllocError> {
    if plan(tree, 1, Form::Relative)? != Reply::Chain {
        return Ok(false);
    }
    let late = store_after_free(alloc, tree, 1, Form::Relative, &[0])?;
    if late != Some((true, Installed::Gone)) {
        return Ok(false);
    }
    Ok(plan(tree, 1, Form::Relative)? == Reply::Gone)
}

// Whether the tree answers this bound, and no point.
fn is_bounded(tree: &Tree, least: i128) -> bool {
    match tree.answer() {
        Answer::Bounded { bound, best } => bound == least && best.is_none(),
        _ => false,
    }
}

#[test]
fn children_are_encoded_and_their_parent_is_freed(rt: HostRuntime) -> Result<(), Fail> {
    let alloc = rt.alloc();
    let (mut tree, _) = split_tree(alloc, 0, None)?;
    assert!(rt; stores_children(alloc, &mut tree)?);
    assert_eq!(rt; tree.held(), 21);
    assert!(rt; frees_parent(alloc, &mut tree)?);
    assert_eq!(rt; tree.held(), 14);
    assert!(rt; takes(&mut tree, 1, &[0, 0], &[4, 10])?);
    assert!(rt; frees(&mut tree, &[])?);
    assert!(rt; is_bounded(&tree, 0));
    Ok(())
}

#[test]
fn nodes_without_hope_are_freed(rt: HostRuntime) -> Result<(), Fail> {
    let (mut tree, _) = split_tree(rt.alloc(), 0, Some(1))?;
    assert!(rt; is_done(&mut tree)?);
    assert!(rt; frees(&mut tree, &[1])?);
    assert!(rt; frees(&mut tree, &[2, 0])?);
    assert!(rt; frees(&mut tree, &[])?);
    assert_eq!(rt; tree.held(), 0);
    match tree.answer() {
        Answer::Optimal { value, point } => {
            assert_eq!(rt; value, 7);
            assert!(rt; point == [2, 1].as_slice());
        }
        _ => panic!(rt; "an optimal point was wanted"),
    }
    Ok(())
}

#[test]
fn a_point_within_the_gap_ends_the_search(rt: HostRuntime) -> Result<(), Fail> {
    let (mut tree, _) = split_tree(rt.alloc(), 3, Some(2))?;
    assert!(rt; is_done(&mut tree)?);
    match tree.answer() {
        Answer::Within {
            value,
            bound,
            point,
        } => {
            assert_eq!(rt; value, 10);
            assert_eq!(rt; bound, 7);
            assert!(rt; point == [2, 2].as_slice());
        }
        _ => panic!(rt; "a point within the gap was wanted"),
    }
    Ok(())
}

#[test]
fn a_point_beyond_the_gap_does_not(rt: HostRuntime) -> Result<(), Fail> {
    let (mut tree, _) = split_tree(rt.alloc(), 2, Some(2))?;
    assert!(rt; takes(&mut tree, 1, &[0, 0], &[4, 10])?);
    Ok(())
}
