//! Base: lists that contracts see as lists, and modification lists.
#![tactic(auto)]

mod in_turn;
mod items;
mod mods;
mod short;

pub use items::{Duplicate, Items, Shared};
pub use mods::{FieldMods, Item, ItemId, ListMods, Mod, Places};
pub use short::ShortItems;
