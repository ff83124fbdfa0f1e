//! The leases of the nodes that are out, while a journal is gone through.
ghost use Rattle.std.specs.Prelude.{◌≡◌, Some, OnOk};
ghost use Rattle.std.specs.Ordering.{nat_cmp};
ghost use Rattle.std.specs.BTreeMap.{Updates};

use bl_tree::{Lease, Tree};
use std::alloc::AllocError;
use std::collections::BTreeMap;

/// The leases of nodes that are out, by the numbers of the nodes.
pub type Leases = BTreeMap<u32, Lease>;

// Lets an older lease of a node go.
fn let_go_if(tree: &mut Tree, lease: Option<Lease>)
    ensures { tree.new ≡ tree.old }
{
    if let Some(lease) = lease {
        tree.let_go(lease);
    }
}

/// Keeps the lease of a node. The tree stays as it is. `AllocError` where there is no memory.
pub fn keep(tree: &mut Tree, leases: &mut Leases, id: u32, lease: Lease) -> Result<(), AllocError>
    ensures same { tree.new ≡ tree.old }
    ensures kept { OnOk result (Updates nat_cmp leases.old leases.new id (Some lease)) }
{
    match leases.insert(id, lease) {
        Ok(older) => {
            let_go_if(tree, older);
            Ok(())
        }
        Err(failed) => {
            let (_, lease) = failed.value;
            tree.let_go(lease);
            Err(AllocError)
        }
    }
}

/// Lets all leases go. The tree stays as it is, and their nodes stay out.
pub fn let_all_go(tree: &mut Tree, mut leases: Leases)
    ensures { tree.new ≡ tree.old }
{
    while let Some((_, lease)) = leases.pop_first() {
        tree.let_go(lease);
    }
    leases.destroy_empty();
}
