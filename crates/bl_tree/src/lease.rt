//! Leases.
ghost use Rattle.std.specs.Prelude.{◌≡◌, Some};
ghost use Rattle.bl_journal.specs.Pieces.{rebuilt};
ghost use Rattle.bl_desc.specs.Changes.{IsWhole};
ghost use Rattle.bl_rebuild.specs.Chains.{described, FitInOrder};
ghost use Rattle.bl_tree.specs.Chains.{IsApplicable, described_by};
ghost use Rattle.bl_tree.specs.Views.{pieces_of};

use bl_problem::Cut;
use bl_rebuild::Chain;
use std::marker::Model;

/// The right and the duty to work on a node: it must be spent, by a put or a back. A take alone
/// makes one. Contracts see the node's number, depth and low number, the best value when it was
/// taken less the gap, and the chain of pieces that stands for its description.
pub struct Lease {
    pub(crate) id: u32,
    pub(crate) depth: u32,
    pub(crate) low: i128,
    pub(crate) cutoff: Option<i128>,
    pub(crate) chain: Chain<Cut>,
}

impl Model for Lease {
    ghost use Rattle.bl_tree.specs.Views.{LeaseView, pieces_of};
    ghost use Rattle.bl_tree.specs.Chains.{IsApplicable};

    ghost Value = { LeaseView };

    ghost view = { λ l.
        record {
          id = l.id;
          depth = l.depth;
          low = l.low;
          cutoff = l.cutoff;
          chain = pieces_of l.chain;
        } };

    ghost invariant = { λ l. IsApplicable l.chain };
}

impl Lease {
    /// The node's number.
    pub fn id(&self) -> u32
        ensures { result ≡ self.now.id }
    {
        self.id
    }

    /// How many splits lie above the node.
    pub fn depth(&self) -> u32
        ensures { result ≡ self.now.depth }
    {
        self.depth
    }

    /// No better point of the node has a value below this, in units of 10^-scale.
    pub fn low(&self) -> i128
        ensures { result ≡ self.now.low }
    {
        self.low
    }

    /// The best value when the node was taken less the gap, if a point had been found, in units
    /// of 10^-scale.
    pub fn cutoff(&self) -> Option<i128>
        ensures { result ≡ self.now.cutoff }
    {
        self.cutoff
    }

    /// The tree's own pieces, shared, that stand for the node's description. `rebuild` makes it
    /// of them.
    pub fn chain(&self) -> &Chain<Cut>
        ensures pieces { pieces_of result.now ≡ self.now.chain }
        ensures whole { IsWhole result.now.top }
        ensures fits { FitInOrder result.now.changes result.now.top }
        ensures gives { rebuilt self.now.chain
            ≡ Some (described result.now.changes result.now.top) }
    {
        &self.chain
    }
}

/// What a take answers.
pub enum Taken {
    /// The first live waiting node in the order.
    Node(Lease),
    /// No live node waits, and a node is out.
    Idle,
    /// No node is live.
    Done,
    /// A live node waits, and as many nodes are used as may be.
    Spent,
}

/// Ends a lease. What is left of it is its node's number and chain.
pub fn parts_of(lease: Lease) -> (u32, Chain<Cut>)
    ensures id { result.0 ≡ lease.id }
    ensures chain { IsApplicable result.1 }
    ensures gives { rebuilt lease.chain ≡ Some (described_by result.1) }
{
    let Lease {
        id,
        depth: _,
        low: _,
        cutoff: _,
        chain,
    } = lease;
    (id, chain)
}

/// Ends a lease. What is left of it is its node's number.
pub fn number_of(lease: Lease) -> u32
    ensures { result ≡ lease.id }
{
    let (id, _) = parts_of(lease);
    id
}
