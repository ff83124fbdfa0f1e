//! Worked differences, what they do in turn, and a chain of one change.
ghost use Rattle.std.specs.Prelude.{◌≡◌, ◌<◌, ◌+◌, [], ◌∷◌, length, IfOk};
ghost use Rattle.bl_desc.specs.Changes.{IsWhole, Fits};
ghost use Rattle.bl_desc.specs.Weights.{ChangeHasShortLists};

use crate::{Chain, rebuild};
use bl_desc::{Change, Desc, Piece, Status, apply, between, weight};
use bl_mods::{FieldMods, Item, ItemId, Items, ListMods, Mod, Shared};
use std::alloc::{AllocError, Global};
use std::test::Fail;

#[derive(Drop)]
struct Plain {
    id: ItemId,
}

impl Item for Plain {
    ghost id_of = { λ item. item.id };

    fn id(&self) -> ItemId {
        self.id
    }
}

fn numbers(alloc: Global, list: [i64; 2]) -> Result<Items<i64>, AllocError>
    ensures { IfOk result (λ items. items ≡ list) }
{
    Ok(Items::from_vec(Vec::from_array(alloc, list)?))
}

fn statuses(alloc: Global) -> Result<Items<Status>, AllocError>
    ensures { IfOk result (λ items. length items ≡ 2) }
{
    Ok(Items::from_vec(Vec::from_array(alloc, [Status::AtLow; 2])?))
}

fn root(alloc: Global, highs: [i64; 2]) -> Result<Desc<Plain>, AllocError>
    ensures { IfOk result (λ desc. IsWhole desc × (desc.cuts ≡ []) × (length desc.lows ≡ 2)
        × (length desc.row_status ≡ 2)) }
{
    Ok(Desc {
        lows: numbers(alloc, [0, 0])?,
        highs: numbers(alloc, highs)?,
        cuts: Items::new(alloc),
        column_status: statuses(alloc)?,
        row_status: statuses(alloc)?,
        cut_status: Items::new(alloc),
    })
}

fn cut(alloc: Global, serial: u32) -> Result<Shared<Plain>, AllocError>
    ensures { IfOk result (λ item. item ≡ record { id = record { seat = 0; serial = serial } }) }
{
    let id = ItemId { seat: 0, serial };
    Shared::new(alloc, Plain { id })
}

fn cuts(alloc: Global, first: u32) -> Result<Items<Shared<Plain>>, AllocError>
    requires { first < 9 }
    ensures { IfOk result (λ items. items ≡ record { id = record { seat = 0; serial = first } }
        ∷ record { id = record { seat = 0; serial = first + 1 } } ∷ []) }
{
    let mut list = Items::new(alloc);
    list.push(cut(alloc, first)?)?;
    list.push(cut(alloc, first + 1)?)?;
    Ok(list)
}

#[test]
fn fields_differ(rt: HostRuntime) -> Result<(), Fail> {
    let alloc = rt.alloc();
    let mods = FieldMods::diff(alloc, &[0i64, 0, 0], &[0, 4, 0])?;
    assert!(rt; mods.entries() == [Mod { place: 1, entry: 4 }].as_slice());
    let mut later = FieldMods::new(alloc);
    later.push(1, 6i64)?;
    let both = mods.then(alloc, &later)?;
    assert!(rt; both.entries() == [Mod { place: 1, entry: 6 }].as_slice());
    Ok(())
}

#[test]
fn cuts_differ(rt: HostRuntime) -> Result<(), Fail> {
    let alloc = rt.alloc();
    let mut list = cuts(alloc, 0)?;
    let mods = ListMods::diff(alloc, list.as_slice(), cuts(alloc, 1)?.as_slice())?;
    assert_eq!(rt; mods.dropped.as_slice(), [0].as_slice());
    assert_eq!(rt; mods.added.len(), 1);
    mods.apply(&mut list)?;
    assert_eq!(rt; list.len(), 2);
    assert_eq!(rt; list.as_slice()[0].get().id.serial, 1);
    assert_eq!(rt; list.as_slice()[1].get().id.serial, 2);
    let mut later = ListMods::new(alloc);
    later.dropped.push(1)?;
    let both = mods.then(alloc, 2, &later)?;
    assert_eq!(rt; both.dropped.as_slice(), [0].as_slice());
    assert!(rt; both.added.is_empty());
    Ok(())
}

fn lower_high(alloc: Global) -> Result<(Desc<Plain>, Change<Plain>), AllocError>
    ensures { IfOk result (λ made. IsWhole made.0 × Fits made.1 made.0
        × ChangeHasShortLists made.1) }
{
    let parent = root(alloc, [10, 10])?;
    let child = root(alloc, [4, 10])?;
    let change = between(alloc, &parent, &child)?;
    Ok((parent, change))
}

#[test]
fn a_high_differs(rt: HostRuntime) -> Result<(), Fail> {
    let alloc = rt.alloc();
    let (mut parent, change) = lower_high(alloc)?;
    assert!(rt; change.highs.entries() == [Mod { place: 0, entry: 4 }].as_slice());
    apply(&change, &mut parent)?;
    assert_eq!(rt; parent.highs.as_slice(), [4, 10].as_slice());
    let piece = Piece::<Plain>::Relative(Shared::new(alloc, change)?);
    assert_eq!(rt; weight(&piece), 1);
    Ok(())
}

#[test]
fn a_chain_is_rebuilt(rt: HostRuntime) -> Result<(), Fail> {
    let alloc = rt.alloc();
    let (parent, change) = lower_high(alloc)?;
    let mut chain = Chain::begin(alloc, Shared::new(alloc, parent)?);
    chain.push(Shared::new(alloc, change)?);
    let desc = rebuild(&chain)?;
    assert_eq!(rt; desc.lows.as_slice(), [0, 0].as_slice());
    assert_eq!(rt; desc.highs.as_slice(), [4, 10].as_slice());
    Ok(())
}
