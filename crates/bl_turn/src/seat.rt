//! A seat at a lock.
ghost use Rattle.std.specs.Prelude.{◌≡◌};

use crate::rule::Place;
use crate::told::Told;

/// A seat at a lock, by which one thread takes turns. Contracts see its view; at run time it is
/// two numbers.
///
/// Seat 0 gives the others, and takes each of them in again. A seat that is dropped is never
/// taken in, so that its lock cannot be closed.
#[derive(Drop)]
pub struct Seat<V: Told> {
    pub(crate) place: Place<V>,
    pub(crate) number: u32,
    pub(crate) given: u32,
    ghost numbered: { place.me.0.view.number ≡ number },
    ghost counted: { place.me.0.view.given ≡ given },
}

impl<V: Told> Seat<V> {
    ghost use Rattle.bl_turn.specs.Seats.{number as number_of, given as given_of};

    /// The number that the seat's entries carry, 0 for the first seat of a lock.
    pub fn number(&self) -> u32
        ensures { result ≡ number_of self.now }
    {
        self.number
    }

    /// How many seats seat 0 gave by `split`.
    pub fn given(&self) -> u32
        requires { number_of self.now ≡ 0 }
        ensures { result ≡ given_of self.now }
    {
        self.given
    }
}
