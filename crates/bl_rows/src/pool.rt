//! Pools: three worked keys in both orders, and a hundred thousand keys.
ghost use Rattle.std.specs.Prelude.{◌≡◌, ◌≤◌, ℕ, None, length, IfOk};
ghost use Rattle.bl_pool.specs.Views.{key_in};

use bl_pool::{Key, Order, Pool};
use std::alloc::{AllocError, Global};
use std::test::Fail;

// A pool without keys, with room for so many, whose node numbers are below `below`.
fn roomy(alloc: Global, order: Order, more: usize, below: u32) -> Result<Pool, AllocError>
    ensures room { IfOk result (λ pool. more ≤ pool.room) }
    ensures below { IfOk result (λ pool. below ≤ length pool.keys) }
    ensures empty { IfOk result (λ pool. (id : ℕ) → key_in pool id ≡ None) }
{
    let mut pool = Pool::new(alloc, order);
    pool.reserve(more, below)?;
    Ok(pool)
}

// One key of many: each low number is that of a hundred nodes.
fn numbered(id: u32) -> Key
    ensures { result.id ≡ id }
{
    Key {
        id,
        low: i128::from(7919 * u64::from(id) % 1000),
        depth: id % 50,
    }
}

// Puts the keys of the nodes below `count` into a pool without keys.
fn fill(pool: &mut Pool, count: u32)
    requires room { count ≤ pool.old.room }
    requires below { count ≤ length pool.old.keys }
    requires empty { (id : ℕ) → key_in pool.old id ≡ None }
{
    for id in 0..count {
        pool.put_reserved(numbered(id));
    }
}

#[test]
fn the_order_says_which_key_is_first(rt: HostRuntime) -> Result<(), Fail> {
    for (order, second) in [(Order::Best, 1), (Order::Depth, 3)] {
        let mut pool = roomy(rt.alloc(), order, 3, 4)?;
        pool.put_reserved(Key {
            id: 3,
            low: 5,
            depth: 2,
        });
        pool.put_reserved(Key {
            id: 1,
            low: 5,
            depth: 1,
        });
        pool.put_reserved(Key {
            id: 2,
            low: 4,
            depth: 9,
        });
        assert_eq!(rt; pool.first().map(|key| key.id), Some(2));
        assert!(rt; pool.remove(2));
        assert!(rt; !pool.remove(2) && !pool.remove(4));
        assert_eq!(rt; pool.first().map(|key| key.id), Some(second));
    }
    Ok(())
}

#[test]
fn many_keys_come_in_order(rt: HostRuntime) -> Result<(), Fail> {
    let mut pool = roomy(rt.alloc(), Order::Best, 100_000, 100_000)?;
    fill(&mut pool, 100_000);
    let mut last = (-1, 0);
    for _ in 0..100_000 {
        let Some(first) = pool.first() else {
            return Err(Fail::new("a key was wanted"));
        };
        assert!(rt; last.0 < first.low || last.0 == first.low && last.1 < first.id);
        assert!(rt; pool.remove(first.id));
        last = (first.low, first.id);
    }
    assert!(rt; pool.first().is_none());
    Ok(())
}
