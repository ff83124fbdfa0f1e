//! Trees that threads share, of a problem without a feasible point: worked calls of two seats,
//! and four threads.
ghost use Rattle.std.specs.Prelude.{◌≡◌, ◌≢◌, ◌⊎◌, ◌<◌, ◌+◌, ◌^◌, ◌≤ℤ◌, ◌<ℤ◌, ◌+ℤ◌, [], ◌∷◌, pos};
ghost use Rattle.std.specs.Prelude.{length, slice_index_or, vec_len, All, IfOk, IfSome};
ghost use Rattle.bl_desc.specs.Changes.{IsWhole};
ghost use Rattle.bl_journal.specs.Descriptions.{left_child, right_child};
ghost use Rattle.bl_journal.specs.Pieces.{piece_below, form_at_birth};
ghost use Rattle.bl_tree.specs.Views.{IsLeaseOf};
ghost use Rattle.bl_tree.specs.Jobs.{IsJobOf};
ghost use Rattle.bl_turn.specs.Seats.{view_of, number, given, ended};
ghost use Rattle.bl_shared.specs.Calls.{tree_seen};
ghost use Rattle.bl_rows.specs.Shared.{hopeless, never, column, IsOutcome, IsAt};

use bl_desc::{Change, Desc, Form, Piece, between};
use bl_journal::laws::leases_are_workable;
use bl_journal::{Entry, Journal, Next, Order, Outcome, Settings, Step};
use bl_mods::{Items, Shared};
use bl_problem::{Column, Cut, Name, Problem, Row, Sense};
use bl_rebuild::rebuild;
use bl_shared::{NoMemory, SharedTree, TreeSeat};
use bl_tree::laws::{jobs_stay, plans_make_jobs};
use bl_tree::{Answer, Born, Freed, Installed, Job, Lease, Planned, Taken, Tree, encode};
use std::alloc::{AllocError, Global};
use std::process::Abort;
use std::sync::{Arc, Wait};
use std::thread;
use std::thread::Threads;

/// Each node whose depth this divides is stored whole.
const SPAN: u32 = 8;

const THREADS: usize = 4;

/// How large a search is: the columns' greatest entry, and how many nodes may be used.
#[derive(Clone, Copy)]
struct Size {
    high: i64,
    nodes: u32,
}

fn columns(alloc: Global, high: i64) -> Result<Vec<Column>, AllocError>
    ensures { IfOk result (λ columns. columns.items ≡ column 88 high ∷ column 89 high ∷ []) }
{
    let x = Name::new(vec![in alloc; b'X']?);
    let y = Name::new(vec![in alloc; b'Y']?);
    let columns = vec![in alloc;
        Column {
            name: x,
            low: 0,
            high,
            cost: 1
        },
        Column {
            name: y,
            low: 0,
            high,
            cost: 1
        },
    ]?;
    Ok(columns)
}

fn rows(alloc: Global) -> Result<Vec<Row>, AllocError>
    ensures { IfOk result (λ rows. rows.items ≡ never ∷ []) }
{
    let name = Name::new(vec![in alloc; b'R']?);
    Ok(vec![in alloc;
        Row {
            name,
            terms: Items::new(alloc),
            low: Some(1),
            high: None
        },
    ]?)
}

/// Two columns from 0 to `high`, and a row without terms that is to be at least 1.
fn problem(alloc: Global, high: i64) -> Result<Problem, AllocError>
    requires { high ≡ pos 10 ⊎ high ≡ pos 100 }
    ensures { IfOk result (λ problem. problem ≡ hopeless high) }
{
    let columns = columns(alloc, high)?;
    let rows = rows(alloc)?;
    let objective = Name::new(vec![in alloc; b'C']?);
    Ok(Problem::new(columns, rows, objective, 0, 0, Sense::Min))
}

/// A tree of the problem that may use so many nodes, and its seat 0.
fn share(alloc: Global, size: Size) -> Result<(SharedTree, TreeSeat), AllocError>
    requires high { size.high ≡ pos 10 ⊎ size.high ≡ pos 100 }
    requires nodes { size.nodes < 100001 }
    ensures seat { IfOk result (λ t. IsAt t.0 size.high size.nodes t.1) }
    ensures first { IfOk result (λ t. (number t.1 ≡ 0) × (given t.1 ≡ 0) × (ended t.1 ≡ [])) }
{
    let problem = problem(alloc, size.high)?;
    let settings = Settings {
        nodes: size.nodes,
        span: SPAN,
        order: Order::Best,
        gap: 0,
    };
    let tree = Tree::new(alloc, Arc::new(alloc, problem)?, settings)?;
    match SharedTree::new(alloc, tree) {
        Ok(shared) => Ok(shared),
        Err(NoMemory { value: _ }) => Err(AllocError),
    }
}

/// A child in a form.
fn piece_of(
    alloc: Global,
    parent: &Desc<Cut>,
    form: Form,
    child: Desc<Cut>,
) -> Result<Piece<Cut>, AllocError>
    requires parent { IsWhole parent.now }
    requires child { IsWhole child }
    requires columns { (length parent.now.lows ≡ 2) × (length child.lows ≡ 2) }
    requires rows { (length parent.now.row_status ≡ 1) × (length child.row_status ≡ 1) }
    requires no_cuts { (parent.now.cuts ≡ []) × (child.cuts ≡ []) }
    ensures { IfOk result (λ piece. piece ≡ piece_below parent.now form child) }
{
    match form {
        Form::Explicit => Ok(Piece::Explicit(Shared::new(alloc, child)?)),
        Form::Relative => {
            let change = between(alloc, parent, &child)?;
            Ok(Piece::Relative(Shared::new(alloc, change)?))
        }
    }
}

/// Splits a node at a place. No point is in question.
fn split(
    alloc: Global,
    desc: &Desc<Cut>,
    form: Form,
    column: usize,
    at: i64,
    above: i64,
) -> Result<Outcome, AllocError>
    requires whole { IsWhole desc.now }
    requires columns { length desc.now.lows ≡ 2 }
    requires rows { length desc.now.row_status ≡ 1 }
    requires no_cuts { desc.now.cuts ≡ [] }
    requires column { column < 2 }
    requires low { slice_index_or desc.now.lows column (pos 0) ≤ℤ at }
    requires high { at <ℤ slice_index_or desc.now.highs column (pos 0) }
    requires above { above ≡ at +ℤ pos 1 }
    ensures { IfOk result (IsOutcome desc.now form) }
{
    let mut left = desc.duplicate()?;
    left.highs.set(column, at);
    let mut right = desc.duplicate()?;
    right.lows.set(column, above);
    let next = Next::Split {
        common: Shared::new(alloc, Change::new(alloc))?,
        column: column as u32,
        at,
        left: piece_of(alloc, desc, form, left)?,
        right: piece_of(alloc, desc, form, right)?,
    };
    Ok(Outcome {
        found: None,
        low: 0,
        next,
    })
}

/// Splits off the least entry of the first column that has two or more; shuts the node where
/// there is none.
fn halve(alloc: Global, desc: &Desc<Cut>, form: Form) -> Result<Outcome, AllocError>
    requires whole { IsWhole desc.now }
    requires columns { length desc.now.lows ≡ 2 }
    requires rows { length desc.now.row_status ≡ 1 }
    ensures { IfOk result (IsOutcome desc.now form) }
{
    if desc.cuts.is_empty() {
        for column in 0..2 {
            let low = desc.lows.as_slice()[column];
            if low < desc.highs.as_slice()[column] {
                return split(alloc, desc, form, column, low, low + 1);
            }
        }
    }
    Ok(Outcome {
        found: None,
        low: 0,
        next: Next::Shut,
    })
}

/// The form in which the children of a node at this depth are born.
fn form_below(depth: u32) -> Form
    ensures { result ≡ form_at_birth 8 (depth + 1) }
{
    if (u64::from(depth) + 1) % u64::from(SPAN) == 0 {
        Form::Explicit
    } else {
        Form::Relative
    }
}

/// Splits or shuts the node of a lease, or gives it back where there is no memory.
fn hand_in<R: Wait>(
    rt: &R,
    alloc: Global,
    tree: &SharedTree,
    seat: &mut TreeSeat,
    lease: Lease,
    size: Size,
) -> Result<Option<Born>, AllocError>
    requires seat { IsAt tree.now size.high size.nodes seat.old }
    requires leased { IsLeaseOf (tree_seen (view_of seat.old)) (number seat.old) lease }
    ensures seat { IsAt tree.now size.high size.nodes seat.new }
{
    leases_are_workable();
    let form = form_below(lease.depth());
    let desc = match rebuild(lease.chain()) {
        Ok(desc) => desc,
        Err(error) => {
            tree.back(rt, seat, lease);
            return Err(error);
        }
    };
    match halve(alloc, &desc, form) {
        Ok(outcome) => Ok(tree.put(rt, seat, lease, outcome)),
        Err(error) => {
            tree.back(rt, seat, lease);
            Err(error)
        }
    }
}

/// Takes a node of this number.
fn take<R: Wait + Abort>(
    rt: &R,
    tree: &SharedTree,
    seat: &mut TreeSeat,
    id: u32,
    size: Size,
) -> Lease
    requires seat { IsAt tree.now size.high size.nodes seat.old }
    ensures seat { IsAt tree.now size.high size.nodes seat.new }
    ensures leased { IsLeaseOf (tree_seen (view_of seat.new)) (number seat.new) result }
{
    match tree.take(rt, seat) {
        Ok(Taken::Node(lease)) => {
            assert_eq!(rt; lease.id(), id);
            lease
        }
        Ok(Taken::Idle | Taken::Done | Taken::Spent) | Err(_) => panic!(rt; "node {id} was wanted"),
    }
}

/// What a take answers where it gives no node. A node that it gives is handed back.
#[derive(Clone, Copy, Debug, PartialEq, Eq)]
enum Reply {
    Node(u32),
    Idle,
    Done,
    Spent,
    Memory,
}

fn reply_to_take<R: Wait>(rt: &R, tree: &SharedTree, seat: &mut TreeSeat, size: Size) -> Reply
    requires { IsAt tree.now size.high size.nodes seat.old }
    ensures { IsAt tree.now size.high size.nodes seat.new }
{
    match tree.take(rt, seat) {
        Ok(Taken::Node(lease)) => {
            let id = lease.id();
            tree.back(rt, seat, lease);
            Reply::Node(id)
        }
        Ok(Taken::Idle) => Reply::Idle,
        Ok(Taken::Done) => Reply::Done,
        Ok(Taken::Spent) => Reply::Spent,
        Err(_) => Reply::Memory,
    }
}

/// What came of the wish to store a node in a form.
#[derive(Clone, Copy, Debug, PartialEq, Eq)]
enum Stored {
    Gone,
    Same,
    Fixed,
    Made,
}

/// A job to store a node in a form; what the plan answers where it gives none. Gone where the
/// node is not born.
fn job_for<R: Wait>(
    rt: &R,
    alloc: Global,
    tree: &SharedTree,
    seat: &mut TreeSeat,
    id: u32,
    form: Form,
    size: Size,
) -> Result<Result<Job, Stored>, AllocError>
    requires { IsAt tree.now size.high size.nodes seat.old }
    ensures seat { IsAt tree.now size.high size.nodes seat.new }
    ensures job { IfOk result (λ planned. IfOk planned (IsJobOf (tree_seen (view_of seat.new)))) }
{
    plans_make_jobs();
    if id >= tree.glance(rt, seat).nodes {
        return Ok(Err(Stored::Gone));
    }
    match tree.plan(rt, seat, id, form)? {
        Planned::Chain(plan) => Ok(Ok(encode(alloc, &plan)?)),
        Planned::Gone => Ok(Err(Stored::Gone)),
        Planned::Same => Ok(Err(Stored::Same)),
        Planned::Fixed => Ok(Err(Stored::Fixed)),
    }
}

fn install<R: Wait>(
    rt: &R,
    tree: &SharedTree,
    seat: &mut TreeSeat,
    job: Job,
    size: Size,
) -> Result<Stored, AllocError>
    requires seat { IsAt tree.now size.high size.nodes seat.old }
    requires job { IsJobOf (tree_seen (view_of seat.old)) job }
    ensures { IsAt tree.now size.high size.nodes seat.new }
{
    match tree.install(rt, seat, job)? {
        Installed::Gone => Ok(Stored::Gone),
        Installed::Same => Ok(Stored::Same),
        Installed::Made => Ok(Stored::Made),
    }
}

/// Stores a node in a form.
fn store<R: Wait>(
    rt: &R,
    alloc: Global,
    tree: &SharedTree,
    seat: &mut TreeSeat,
    id: u32,
    form: Form,
    size: Size,
) -> Result<Stored, AllocError>
    requires { IsAt tree.now size.high size.nodes seat.old }
    ensures { IsAt tree.now size.high size.nodes seat.new }
{
    match job_for(rt, alloc, tree, seat, id, form, size)? {
        Ok(job) => install(rt, tree, seat, job, size),
        Err(stored) => Ok(stored),
    }
}

/// Stores nodes in forms, and looks what comes of each.
fn store_each<R: Wait + Abort>(
    rt: &R,
    alloc: Global,
    tree: &SharedTree,
    seat: &mut TreeSeat,
    wishes: &[(u32, Form, Stored)],
    size: Size,
)
    requires { IsAt tree.now size.high size.nodes seat.old }
    ensures { IsAt tree.now size.high size.nodes seat.new }
{
    for &(id, form, wanted) in wishes {
        let stored = store(rt, alloc, tree, seat, id, form, size);
        assert_eq!(rt; stored.ok(), Some(wanted));
    }
}

/// Whether a free answers these nodes; none of them stands for Nothing.
fn frees<R: Wait>(rt: &R, tree: &SharedTree, seat: &mut TreeSeat, nodes: &[u32], size: Size) -> bool
    requires seat { IsAt tree.now size.high size.nodes seat.old }
    ensures seat { IsAt tree.now size.high size.nodes seat.new }
    ensures jobs { (job : _) → IsJobOf (tree_seen (view_of seat.old)) job
        → IsJobOf (tree_seen (view_of seat.new)) job }
{
    jobs_stay();
    match tree.free(rt, seat) {
        Ok(Freed::Chain(freed)) => freed.ids() == nodes,
        Ok(Freed::Nothing) => nodes.is_empty(),
        Err(_) => false,
    }
}

#[test]
fn seats_share_a_tree(rt: HostRuntime) {
    let size = Size { high: 10, nodes: 3 };
    let Ok((tree, mut first)) = share(rt.alloc(), size) else {
        panic!(rt; "memory")
    };
    let mut one = tree.split(&mut first);
    let mut two = tree.split(&mut first);
    let mut three = tree.split(&mut first);
    let root = take(&rt, &tree, &mut one, 0, size);
    assert_eq!(rt; reply_to_take(&rt, &tree, &mut two, size), Reply::Idle);
    let born = hand_in(&rt, rt.alloc(), &tree, &mut one, root, size);
    assert_eq!(rt; born.ok(), Some(Some(Born { left: 1, right: 2 })));
    let left = take(&rt, &tree, &mut two, 1, size);
    let right = take(&rt, &tree, &mut one, 2, size);
    assert_eq!(rt; reply_to_take(&rt, &tree, &mut three, size), Reply::Idle);
    tree.back(&rt, &mut two, left);
    assert_eq!(rt; reply_to_take(&rt, &tree, &mut two, size), Reply::Node(1));
    let glance = tree.glance(&rt, &mut three);
    assert_eq!(rt;
        (glance.nodes, glance.used, glance.out, glance.best),
        (3, 2, 1, None)
    );
    tree.back(&rt, &mut one, right);
    tree.join(&mut first, three);
    tree.join(&mut first, two);
    tree.join(&mut first, one);
    let tree = tree.close(first);
    assert_eq!(rt; tree.journal().len(), 8);
}

#[test]
fn forms_change_and_nodes_are_freed(rt: HostRuntime) {
    let alloc = rt.alloc();
    let size = Size { high: 10, nodes: 1 };
    let Ok((tree, mut first)) = share(alloc, size) else {
        panic!(rt; "memory")
    };
    let mut one = tree.split(&mut first);
    let root = take(&rt, &tree, &mut one, 0, size);
    let born = hand_in(&rt, alloc, &tree, &mut one, root, size);
    assert_eq!(rt; born.ok(), Some(Some(Born { left: 1, right: 2 })));
    assert_eq!(rt; reply_to_take(&rt, &tree, &mut one, size), Reply::Spent);
    assert!(rt; frees(&rt, &tree, &mut one, &[], size));
    let wishes = [
        (0, Form::Relative, Stored::Fixed),
        (1, Form::Relative, Stored::Same),
        (1, Form::Explicit, Stored::Made),
        (2, Form::Explicit, Stored::Made),
        (2, Form::Explicit, Stored::Same),
    ];
    store_each(&rt, alloc, &tree, &mut one, &wishes, size);
    // A job that was planned before its node's parent is freed is installed after it.
    let Ok(Ok(job)) = job_for(&rt, alloc, &tree, &mut one, 1, Form::Relative, size) else {
        panic!(rt; "a job was wanted")
    };
    assert!(rt; frees(&rt, &tree, &mut one, &[0], size));
    let stored = install(&rt, &tree, &mut one, job, size);
    assert_eq!(rt; stored.ok(), Some(Stored::Gone));
    let wishes = [
        (0, Form::Explicit, Stored::Gone),
        (1, Form::Relative, Stored::Gone),
    ];
    store_each(&rt, alloc, &tree, &mut one, &wishes, size);
    tree.join(&mut first, one);
    let tree = tree.close(first);
    assert_eq!(rt; tree.held(), 14);
    assert_eq!(rt; tree.journal().len(), 5);
}

/// Splits and shuts nodes until none is live, stores children whole and frees nodes; each fifth
/// node is handed back first.
fn search<R: Wait + Abort>(
    rt: &R,
    alloc: Global,
    tree: &SharedTree,
    seat: &mut TreeSeat,
    size: Size,
)
    requires { IsAt tree.now size.high size.nodes seat.old }
    ensures { IsAt tree.now size.high size.nodes seat.new }
{
    let mut turn: u32 = 0;
    for _ in rt.forever() {
        turn = turn.wrapping_add(1);
        match tree.take_or_sleep(rt, seat) {
            Ok(Taken::Node(lease)) => {
                if turn % 5 == 0 {
                    tree.back(rt, seat, lease);
                } else {
                    work_on(rt, alloc, tree, seat, lease, size);
                }
            }
            Ok(Taken::Idle) => {}
            Ok(Taken::Done | Taken::Spent) => return,
            Err(_) => panic!(rt; "memory"),
        }
    }
    unreachable!()
}

/// Hands in the work on a node, stores its children whole, and frees a node and what hangs on it.
fn work_on<R: Wait + Abort>(
    rt: &R,
    alloc: Global,
    tree: &SharedTree,
    seat: &mut TreeSeat,
    lease: Lease,
    size: Size,
)
    requires seat { IsAt tree.now size.high size.nodes seat.old }
    requires leased { IsLeaseOf (tree_seen (view_of seat.old)) (number seat.old) lease }
    ensures seat { IsAt tree.now size.high size.nodes seat.new }
{
    match hand_in(rt, alloc, tree, seat, lease, size) {
        Ok(Some(born)) => {
            let left = store(rt, alloc, tree, seat, born.left, Form::Explicit, size);
            let right = store(rt, alloc, tree, seat, born.right, Form::Explicit, size);
            assert!(rt; left.is_ok() && right.is_ok(), "memory");
        }
        Ok(None) => {}
        Err(_) => panic!(rt; "memory"),
    }
    assert!(rt; tree.free(rt, seat).is_ok(), "memory");
}

fn split_all<R: Abort>(
    rt: &R,
    alloc: Global,
    tree: &SharedTree,
    first: &mut TreeSeat,
    size: Size,
) -> Vec<TreeSeat>
    requires seat { IsAt tree.now size.high size.nodes first.old }
    requires view { (number first.old ≡ 0) × (given first.old ≡ 0) × (ended first.old ≡ []) }
    ensures seat { IsAt tree.now size.high size.nodes first.new }
    ensures view { (number first.new ≡ 0) × (given first.new ≡ vec_len result)
        × (ended first.new ≡ []) }
    ensures seats { All (λ s. IsAt tree.now size.high size.nodes s) result.items }
{
    let mut seats = Vec::new(alloc);
    'seats: while seats.len() < THREADS {
        assert!(rt; seats.push(tree.split(first)).is_ok(), "memory");
    }
    seats
}

fn search_all<R: Threads + Wait + Abort + Sync>(
    rt: &R,
    alloc: Global,
    tree: &SharedTree,
    seats: &mut [TreeSeat],
    size: Size,
)
    requires seats { All (λ s. IsAt tree.now size.high size.nodes s) seats.old }
    ensures seats { All (λ s. IsAt tree.now size.high size.nodes s) seats.new }
    ensures count { length seats.new ≡ length seats.old }
{
    thread::for_each_mut(
        rt,
        seats,
        THREADS,
        &|_, seat| search(rt, alloc, tree, seat, size),
    );
}

fn join_all(tree: &SharedTree, first: &mut TreeSeat, mut seats: Vec<TreeSeat>, size: Size)
    requires seat { IsAt tree.now size.high size.nodes first.old }
    requires view { (number first.old ≡ 0) × (given first.old ≡ vec_len seats)
        × (ended first.old ≡ []) }
    requires seats { All (λ s. IsAt tree.now size.high size.nodes s) seats.items }
    ensures seat { IsAt tree.now size.high size.nodes first.new }
    ensures view { (number first.new ≡ 0) × (length (ended first.new) ≡ given first.new) }
{
    while let Some(seat) = seats.pop() {
        tree.join(first, seat);
    }
}

/// Frees nodes until none may be freed.
fn free_all<R: Wait + Abort>(rt: &R, tree: &SharedTree, seat: &mut TreeSeat, size: Size)
    requires seat { IsAt tree.now size.high size.nodes seat.old }
    requires first { (number seat.old ≡ 0) × (length (ended seat.old) ≡ given seat.old) }
    ensures seat { IsAt tree.now size.high size.nodes seat.new }
    ensures first { (number seat.new ≡ 0) × (length (ended seat.new) ≡ given seat.new) }
{
    for _ in rt.forever() {
        match tree.free(rt, seat) {
            Ok(Freed::Chain(_)) => {}
            Ok(Freed::Nothing) => return,
            Err(_) => panic!(rt; "memory"),
        }
    }
    unreachable!()
}

/// Where a node stands, by the entries so far.
#[derive(Clone, Copy, PartialEq, Eq)]
enum State {
    Waiting,
    Out(u32),
    Worked,
    Freed,
}

/// Brings the states of the nodes on by an entry. False where the entry may not come next.
fn step(states: &mut Vec<State>, entry: &Entry) -> Result<bool, AllocError> {
    match entry {
        Entry::Take { seat, id } => Ok(turn_to(states, *id, State::Waiting, State::Out(*seat))),
        Entry::Back { seat, id } => Ok(turn_to(states, *id, State::Out(*seat), State::Waiting)),
        Entry::Put { seat, id, next, .. } => {
            if let Step::Split { .. } = next {
                states.push(State::Waiting)?;
                states.push(State::Waiting)?;
            }
            Ok(turn_to(states, *id, State::Out(*seat), State::Worked))
        }
        Entry::Encode { id, .. } => Ok(match states.get(*id as usize) {
            Some(state) => *state != State::Freed,
            None => false,
        }),
        Entry::Free { ids, .. } => {
            let mut are_worked = true;
            for id in ids.as_slice() {
                are_worked = turn_to(states, *id, State::Worked, State::Freed) && are_worked;
            }
            Ok(are_worked)
        }
    }
}

/// Sets the state of a node; false where it did not have the state before.
fn turn_to(states: &mut Vec<State>, id: u32, before: State, after: State) -> bool {
    match states.get_mut(id as usize) {
        Some(state) => {
            let is_so = *state == before;
            *state = after;
            is_so
        }
        None => false,
    }
}

/// The number of the seat that made the entry.
fn seat_of(entry: &Entry) -> u32 {
    match entry {
        Entry::Take { seat, .. }
        | Entry::Put { seat, .. }
        | Entry::Back { seat, .. }
        | Entry::Encode { seat, .. }
        | Entry::Free { seat, .. } => *seat,
    }
}

/// Walks a history; how many entries may not come where they stand, or are of no seat from 1 to
/// the number of threads, and how many nodes are not freed at its end.
fn walk(alloc: Global, journal: &Journal) -> Result<(usize, usize), AllocError> {
    let mut states = vec![in alloc; State::Waiting]?;
    let mut wrong: usize = 0;
    for entry in journal.entries() {
        let seat = seat_of(entry) as usize;
        if !step(&mut states, entry)? || seat == 0 || seat > THREADS {
            wrong = wrong.saturating_add(1);
        }
    }
    let standing = states
        .iter()
        .filter(|state| **state != State::Freed)
        .count();
    Ok((wrong, standing))
}

#[test]
fn threads_search_one_tree(rt: HostRuntime) {
    let size = Size {
        high: 100,
        nodes: 100_000,
    };
    let Ok((tree, mut first)) = share(rt.alloc(), size) else {
        panic!(rt; "memory")
    };
    let mut seats = split_all(&rt, rt.alloc(), &tree, &mut first, size);
    search_all(&rt, rt.alloc(), &tree, seats.as_mut_slice(), size);
    join_all(&tree, &mut first, seats, size);
    free_all(&rt, &tree, &mut first, size);
    let tree = tree.close(first);
    // Each box of one point is shut: 101 times 101 of them, and one split less.
    let glance = tree.glance();
    assert_eq!(rt;
        (glance.nodes, glance.used, glance.out),
        (20_401, 20_401, 0)
    );
    assert!(rt; matches!(tree.answer(), Answer::Infeasible));
    assert_eq!(rt; walk(rt.alloc(), tree.journal()).ok(), Some((0, 0)));
}
