//! The entries of a journal.
use bl_desc::{Change, Form};
use bl_mods::{Items, Shared};
use bl_problem::Cut;

/// What becomes of a node at a put.
#[derive(Drop)]
pub enum Step {
    /// It has no better point.
    Shut,
    /// Its box is split after a change that both children share: `column` is at most `at` in the
    /// left child, and at least `at` + 1 in the right one.
    Split {
        common: Shared<Change<Cut>>,
        column: u32,
        at: i64,
    },
}

/// One event of a search. Each carries the seat that made it, and nodes go by their numbers.
#[derive(Drop)]
pub enum Entry {
    /// A node is handed out.
    Take {
        seat: u32,
        id: u32,
    },
    /// The outcome of the work on a node is handed in: a feasible point, if one was found; a number
    /// that no better point of the node is below; and what becomes of the node.
    Put {
        seat: u32,
        id: u32,
        found: Option<Items<i64>>,
        low: i128,
        next: Step,
    },
    /// A node is handed back without work.
    Back {
        seat: u32,
        id: u32,
    },
    /// A node is stored in another form.
    Encode {
        seat: u32,
        id: u32,
        form: Form,
    },
    /// Nodes are freed, each the parent of the one before.
    Free {
        seat: u32,
        ids: Items<u32>,
    },
}
