//! A short list, which contracts see as the list of its elements.
ghost use Rattle.std.specs.Prelude.{◌≡◌, [], ◌∷◌, ◌++◌, length, OnErr, OnOk, IfOk, IsTrue, ◌↔◌};

use smallvec::SmallVec;
use std::alloc::{AllocError, Global};
use std::marker::Model;

/// A list of which one element lies in the value itself, and more than one in an allocation.
/// Contracts see its elements.
#[derive(Drop)]
pub struct ShortItems<T> {
    elements: SmallVec<T, 1>,
}

impl<T> Model for ShortItems<T> {
    ghost use Rattle.std.specs.Prelude.{List};

    ghost Value = { List T };

    ghost view = { λ s. s.elements.items };
}

impl<T: Default + Drop> ShortItems<T> {
    /// The empty list. Takes no memory.
    pub fn new(alloc: Global) -> ShortItems<T>
        ensures { result ≡ [] }
    {
        ShortItems {
            elements: SmallVec::new(alloc),
        }
    }

    /// The empty list, with room for this many elements. `AllocError` where there is no memory.
    pub fn with_room(alloc: Global, room: usize) -> Result<ShortItems<T>, AllocError>
        ensures { IfOk result (λ list. list ≡ []) }
    {
        let elements = SmallVec::with_capacity(alloc, room)?;
        Ok(ShortItems { elements })
    }

    /// The elements, in order.
    pub fn as_slice(&self) -> &[T]
        ensures { result.now ≡ self.now }
    {
        self.elements.as_slice()
    }

    /// Appends an element, or leaves the list as it was where there is no memory.
    pub fn push(&mut self, element: T) -> Result<(), AllocError>
        ensures ok { OnOk result (self.new ≡ self.old ++ element ∷ []) }
        ensures err { OnErr result (self.new ≡ self.old) }
    {
        self.elements.push(element)?;
        Ok(())
    }

    /// How many elements there are.
    pub fn len(&self) -> usize
        ensures { result ≡ length self.now }
    {
        self.elements.len()
    }

    /// Whether there is no element.
    pub fn is_empty(&self) -> bool
        ensures { IsTrue result ↔ (self.now ≡ []) }
    {
        self.elements.is_empty()
    }
}

impl<T: Copy + Default> ShortItems<T> {
    /// An equal list. `AllocError` where there is no memory.
    pub fn copy_all(&self, alloc: Global) -> Result<ShortItems<T>, AllocError>
        ensures { IfOk result (λ copy. copy ≡ self.now) }
    {
        let elements = SmallVec::from_slice(alloc, self.elements.as_slice())?;
        Ok(ShortItems { elements })
    }
}
