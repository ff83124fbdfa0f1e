//! The histories of runs, and their logs.
ghost use Rattle.std.specs.Prelude.{IfOk};
ghost use Rattle.bl_tree.specs.Views.{IsLeaseOf};

use crate::runs::{BEST, cover, run, words_of};
use bl_io::{MemorySink, MemorySource};
use bl_journal::{Entry, Journal, Order, Settings};
use bl_mps::read;
use bl_problem::Problem;
use bl_run::run_one;
use bl_tree::{Lease, Taken, Tree};
use std::alloc::Global;
use std::sync::Arc;
use std::test::Fail;

/// The covering problem.
fn problem(alloc: Global) -> Result<Arc<Problem>, Fail> {
    let bytes = cover(alloc, &[])?;
    if bytes.len() > 10_000 {
        return Err(Fail::new("the model is long"));
    }
    match read(alloc, &bytes) {
        Ok(problem) => Ok(Arc::new(alloc, problem)?),
        Err(_) => Err(Fail::new("the model is refused")),
    }
}

/// The node that a take gives.
fn lease_of(tree: &mut Tree) -> Result<Lease, Fail>
    ensures { IfOk result (λ lease. IsLeaseOf tree.new 0 lease) }
{
    match tree.take(0)? {
        Taken::Node(lease) => Ok(lease),
        Taken::Idle | Taken::Done | Taken::Spent => Err(Fail::new("no node is given")),
    }
}

/// Whether an entry of the journal says that seat 0 freed these nodes.
fn frees(journal: &Journal, place: usize, nodes: &[u32]) -> bool {
    match journal.get(place) {
        Some(Entry::Free { seat: 0, ids }) => ids.as_slice() == nodes,
        _ => false,
    }
}

#[test]
fn trees_follow_their_history(rt: HostRuntime) -> Result<(), Fail> {
    let alloc = rt.alloc();
    let problem = problem(alloc)?;
    let settings = Settings {
        nodes: 100,
        span: 1,
        order: Order::Best,
        gap: 0,
    };
    let mut tree = Tree::new(alloc, Arc::try_clone(&problem)?, settings)?;
    assert_eq!(rt; tree.held(), 7);
    for _ in 0..2 {
        let lease = lease_of(&mut tree)?;
        assert_eq!(rt; lease.id(), 0);
        assert!(rt; lease.chain().top.get().highs.as_slice() == [10, 10].as_slice());
        assert_eq!(rt; tree.glance().used, 1);
        tree.back(0, lease);
    }
    assert_eq!(rt; tree.into_journal().len(), 4);
    let mut journal = Journal::new(alloc);
    journal.reserve(1)?;
    journal.push_reserved(Entry::Take { seat: 0, id: 0 });
    assert_eq!(rt; journal.len(), 1);
    assert!(rt; matches!(journal.get(0), Some(Entry::Take { seat: 0, id: 0 })));
    assert!(rt; journal.get(1).is_none());
    Ok(())
}

#[test]
fn an_empty_root_is_freed(rt: HostRuntime) -> Result<(), Fail> {
    let alloc = rt.alloc();
    // a root without a point is freed, and nothing else happens
    let bytes = cover(alloc, &[(13, b" LO BND X 3\n UP BND X 2")])?;
    let mut source = MemorySource::new(bytes, 65_536, Vec::new(alloc));
    let mut sink = MemorySink::new(alloc, 65_536, 65_536, Vec::new(alloc))?;
    let words = words_of(alloc, &["--log"])?;
    let Some(journal) = run_one(alloc, &words, &mut source, &mut sink).journal else {
        return Err(Fail::new("there is no journal"));
    };
    assert_eq!(rt; journal.len(), 1);
    assert!(rt; frees(&journal, 0, &[0]));
    assert!(rt; sink.kept() == b"free 0 0\nheld 0\nstatus infeasible\nend\n".as_slice());
    Ok(())
}

#[test]
fn logs_come_before_answers(rt: HostRuntime) -> Result<(), Fail> {
    let alloc = rt.alloc();
    let mut end = b"\nheld 0\n".to_vec(alloc)?;
    end.extend_from_slice(BEST)?;
    let lists: [&[&str]; 3] = [
        &["--log"],
        &["--log", "--cuts=rows"],
        &["--branch=half", "--log"],
    ];
    for list in lists {
        let (status, sink) = run(alloc, cover(alloc, &[])?, &words_of(alloc, list)?)?;
        assert_eq!(rt; status, 0);
        let kept = sink.kept();
        let start = kept.len().saturating_sub(end.len());
        assert!(rt; kept.get(..9) == Some(b"take 0 0\n".as_slice()));
        assert!(rt; kept.get(start..) == Some(end.as_slice()));
    }
    Ok(())
}
