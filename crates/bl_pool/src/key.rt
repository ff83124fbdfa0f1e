//! A key and the orders of keys.
ghost use Rattle.std.specs.Prelude.{◌≡◌};
ghost use Rattle.bl_pool.specs.Orders.{before, low_before};

/// In which order the waiting nodes are taken.
#[derive(Clone, Copy, Debug, PartialEq, Eq)]
pub enum Order {
    /// Least low number first, then least node number.
    Best,
    /// Greatest depth first, then least low number, then least node number.
    Depth,
}

/// What an order sees of a node.
#[derive(Clone, Copy, Debug, PartialEq, Eq)]
pub struct Key {
    /// The node's low number, in units of 10^-scale.
    pub low: i128,
    /// The node's number.
    pub id: u32,
    /// How many splits lie above the node.
    pub depth: u32,
}

// Least low number first, then least node number.
fn is_lower(a: &Key, b: &Key) -> bool
    ensures { result ≡ low_before a.now b.now }
{
    a.low < b.low || (a.low == b.low && a.id < b.id)
}

/// Whether a comes before b in the order.
pub fn comes_before(order: Order, a: &Key, b: &Key) -> bool
    ensures { result ≡ before order a.now b.now }
{
    match order {
        Order::Best => is_lower(a, b),
        Order::Depth => b.depth < a.depth || (b.depth == a.depth && is_lower(a, b)),
    }
}
