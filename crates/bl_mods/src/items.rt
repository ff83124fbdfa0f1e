//! A list and a shared value, which contracts see as the list of its elements and as the value.
ghost use Rattle.std.specs.Prelude.{◌≡◌, ◌<◌, [], ◌∷◌, ◌++◌, length, slice_set, OnErr, OnOk};
ghost use Rattle.std.specs.Prelude.{IfOk, IsTrue, ◌↔◌};

use std::alloc::{AllocError, Global};
use std::marker::Model;
use std::sync::Arc;

/// A list. Contracts see its elements, so that a struct which holds one compares with plain lists.
#[derive(Drop)]
pub struct Items<T> {
    elements: Vec<T>,
}

impl<T> Model for Items<T> {
    ghost use Rattle.std.specs.Prelude.{List};

    ghost Value = { List T };

    ghost view = { λ s. s.elements.items };
}

impl<T> Items<T> {
    /// The empty list. Takes no memory.
    pub fn new(alloc: Global) -> Items<T>
        ensures { result ≡ [] }
    {
        Items {
            elements: Vec::new(alloc),
        }
    }

    /// The empty list, with room for this many elements. `AllocError` where there is no memory.
    pub fn with_room(alloc: Global, room: usize) -> Result<Items<T>, AllocError>
        ensures { IfOk result (λ list. list ≡ []) }
    {
        let elements = Vec::with_capacity(alloc, room)?;
        Ok(Items { elements })
    }

    /// The list of these elements. Takes no memory.
    pub fn from_vec(elements: Vec<T>) -> Items<T>
        ensures { result ≡ elements.items }
    {
        Items { elements }
    }

    /// The elements, in order. Takes no memory.
    pub fn into_vec(self) -> Vec<T>
        ensures { result.items ≡ self }
    {
        self.elements
    }

    /// The elements, in order.
    pub fn as_slice(&self) -> &[T]
        ensures { result.now ≡ self.now }
    {
        self.elements.as_slice()
    }

    /// Appends an element, or leaves the list as it was where there is no memory.
    pub fn push(&mut self, element: T) -> Result<(), AllocError>
    where
        T: Drop,
        ensures ok { OnOk result (self.new ≡ self.old ++ element ∷ []) }
        ensures err { OnErr result (self.new ≡ self.old) }
    {
        self.elements.push(element)?;
        Ok(())
    }

    /// Writes one element. Takes no memory.
    pub fn set(&mut self, place: usize, element: T)
    where
        T: Drop,
        requires { place < length self.old }
        ensures { self.new ≡ slice_set self.old place element }
    {
        self.elements[place] = element;
    }

    /// The allocator.
    pub fn allocator(&self) -> Global {
        *self.elements.allocator()
    }

    /// How many elements there are.
    pub fn len(&self) -> usize
        ensures { result ≡ length self.now }
    {
        self.elements.len()
    }

    /// Whether there is no element.
    pub fn is_empty(&self) -> bool
        ensures { IsTrue result ↔ (self.now ≡ []) }
    {
        self.elements.is_empty()
    }
}

/// A value of which another equal one can be had.
pub trait Duplicate {
    /// An equal value. `AllocError` where it can't be had.
    fn duplicate(&self) -> Result<Self, AllocError>
        ensures { IfOk result (λ copy. copy ≡ self.now) };
}

impl Duplicate for i64 {
    fn duplicate(&self) -> Result<i64, AllocError> {
        Ok(*self)
    }
}

impl<C> Duplicate for Shared<C> {
    fn duplicate(&self) -> Result<Shared<C>, AllocError> {
        self.share()
    }
}

impl<T: Duplicate + Drop> Items<T> {
    /// Appends equal elements. `AllocError` where there is no memory; the list then has some of
    /// them.
    pub fn extend(&mut self, elements: &[T]) -> Result<(), AllocError>
        ensures { OnOk result (self.new ≡ self.old ++ elements.now) }
    {
        for element in elements {
            self.push(element.duplicate()?)?;
        }
        Ok(())
    }

    /// An equal list. `AllocError` where there is no memory.
    pub fn duplicate_all(&self) -> Result<Items<T>, AllocError>
        ensures { IfOk result (λ copy. copy ≡ self.now) }
    {
        let mut copy = Items::with_room(self.allocator(), self.len())?;
        copy.extend(self.as_slice())?;
        Ok(copy)
    }
}

impl<T: Copy> Items<T> {
    /// An equal list, copied at once. `AllocError` where there is no memory.
    pub fn copy_all(&self) -> Result<Items<T>, AllocError>
        ensures { IfOk result (λ copy. copy ≡ self.now) }
    {
        let elements = Vec::from_slice(self.allocator(), self.as_slice())?;
        Ok(Items { elements })
    }
}

/// A value that several owners share. Contracts see the value.
#[derive(Drop)]
pub struct Shared<C> {
    owner: Arc<C>,
}

impl<C> Model for Shared<C> {
    ghost Value = { C };

    ghost view = { λ s. s.owner.value };
}

impl<C> Shared<C> {
    /// Puts the value where it can be shared. `AllocError` where there is no memory.
    pub fn new(alloc: Global, value: C) -> Result<Shared<C>, AllocError>
    where
        C: Drop,
        ensures { IfOk result (λ s. s ≡ value) }
    {
        let owner = Arc::new(alloc, value)?;
        Ok(Shared { owner })
    }

    /// The value that this owner shares. Takes no memory.
    pub fn from_arc(owner: Arc<C>) -> Shared<C>
        ensures { result ≡ owner.value }
    {
        Shared { owner }
    }

    /// The value.
    pub fn get(&self) -> &C
        ensures { result.now ≡ self.now }
    {
        &self.owner
    }

    /// Another owner of the value. `AllocError` where the count of owners can't grow.
    pub fn share(&self) -> Result<Shared<C>, AllocError>
        ensures { IfOk result (λ s. s ≡ self.now) }
    {
        let owner = Arc::try_clone(&self.owner)?;
        Ok(Shared { owner })
    }
}
