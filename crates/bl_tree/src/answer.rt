//! What a tree answers.
ghost use Rattle.std.specs.Prelude.{◌≡◌};

use bl_desc::Piece;
use bl_mods::Items;
use bl_problem::Cut;
use std::marker::Model;

/// The two nodes that a put made by splitting.
#[derive(Clone, Copy, Debug, PartialEq, Eq)]
pub struct Born {
    pub left: u32,
    pub right: u32,
}

/// The best point that was found so far, and its value in units of 10^-scale.
#[derive(Drop)]
pub struct Best<'a> {
    pub value: i128,
    pub point: &'a [i64],
}

/// What a search knows of the problem. Values are in units of 10^-scale.
#[derive(Drop)]
pub enum Answer<'a> {
    /// No node is live, and there is no gap: no feasible point has a value below that of this one.
    Optimal {
        value: i128,
        point: &'a [i64],
    },
    /// No node is live, and there is a gap: no feasible point has a value below `bound`, which
    /// is the value of this one less the gap.
    Within {
        value: i128,
        bound: i128,
        point: &'a [i64],
    },
    /// No node is live, and no point is feasible.
    Infeasible,
    /// Nodes are live. No feasible point has a value below `bound`.
    Bounded {
        bound: i128,
        best: Option<Best<'a>>,
    },
}

/// The numbers of a tree: the nodes born, the nodes used, the nodes that are out, and the best
/// value.
#[derive(Clone, Copy, Debug, PartialEq, Eq)]
pub struct Glance {
    pub nodes: u32,
    pub used: u32,
    pub out: u32,
    pub best: Option<i128>,
}

/// Nodes that were freed, each the parent of the one before, with what was stored of them.
/// Contracts see the nodes' numbers. The pieces go with the value: let it go where nobody waits.
#[derive(Drop)]
pub struct FreedNodes {
    ids: Items<u32>,
    pieces: Vec<Option<Piece<Cut>>>,
}

impl Model for FreedNodes {
    ghost use Rattle.std.specs.Prelude.{List, ℕ};

    ghost Value = { List ℕ };

    ghost view = { λ f. f.ids };
}

impl FreedNodes {
    /// The nodes' numbers.
    pub fn ids(&self) -> &[u32]
        ensures { result.now ≡ self.now }
    {
        self.ids.as_slice()
    }
}

/// The nodes of these numbers, with these pieces.
pub fn freed_nodes(ids: Vec<u32>, pieces: Vec<Option<Piece<Cut>>>) -> FreedNodes
    ensures { result ≡ ids.items }
{
    FreedNodes {
        ids: Items::from_vec(ids),
        pieces,
    }
}

/// What a free answers.
#[derive(Drop)]
pub enum Freed {
    /// These nodes were freed, each the parent of the one before.
    Chain(FreedNodes),
    /// No node may be freed.
    Nothing,
}

/// How a born node stands to a form in which it is to be stored. The cases are looked at in the
/// order Gone, Same, Fixed, Gone, Open.
#[derive(Clone, Copy, Debug, PartialEq, Eq)]
pub enum Encoding {
    /// It may be stored so.
    Open,
    /// It has the form.
    Same,
    /// The form is relative, and the span divides the node's depth.
    Fixed,
    /// The node is freed; or the form is relative, and its parent is.
    Gone,
}
