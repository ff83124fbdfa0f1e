//! A turn at a lock.
use crate::seat::Seat;
use crate::told::Told;
use crate::turn::Turn;

/// A turn that a seat has at a lock, with the lock's value.
///
/// Change the value or leave it, call `commit` or `look` once, and then `leave`. A turn cannot
/// be dropped.
pub struct Held<'a, V: Told> {
    pub(crate) seat: &'a mut Seat<V>,
    pub(crate) turn: &'a Turn<V>,
    pub(crate) value: V,
}

impl<'a, V: Told> Held<'a, V> {
    ghost use Rattle.std.specs.Prelude.{◌≡◌, ◌-◌, ◌%◌, ◌^◌, [], ◌∷◌, ◌++◌, length, Some};
    ghost use Rattle.std.specs.Borrow.{sem};
    ghost use Rattle.bl_turn.specs.Views.{committed_view, looked_view, GoesOn};
    ghost use Rattle.bl_turn.specs.Seats.{view_of, number, seen, base_of, length_at_start};
    ghost use Rattle.bl_turn.specs.Seats.{IsAway, SameLock};
    ghost use Rattle.bl_turn.specs.Turns.{seat_of, value_of, history, IsIn, IsShown, SameBorrow};
    ghost use Rattle.bl_turn.specs.Turns.{LendsValue};

    /// Lends the lock's value.
    pub fn value(&mut self) -> &mut V
        ensures* lends { sem 𝓛 (LendsValue V.row V.Entry.row V.Base.row V.Told self.entry result) }
        ensures value { result.now ≡ value_of self.old }
    {
        &mut self.value
    }

    /// Tells the lock of one entry more. The value's list is the history that the turn found and
    /// an entry of the seat's number; the seat has then seen that list.
    pub fn commit(&mut self)
        requires turn { IsIn self.old }
        requires entry { (e : _) × (V.told (value_of self.old) ≡ history self.old ++ e ∷ [])
            × (V.by e ≡ number (seat_of self.old)) }
        requires base { base_of (seat_of self.old) ≡ Some (V.base (value_of self.old)) }
        ensures borrow { SameBorrow self.old self.new }
        ensures turn { IsShown self.new × SameLock (seat_of self.old) (seat_of self.new) }
        ensures value { value_of self.new ≡ value_of self.old }
        ensures history { GoesOn V.by (view_of (seat_of self.old)) (history self.old) }
        ensures seen { seen (seat_of self.new) ≡ V.told (value_of self.old) }
        ensures view { (e : _) → V.told (value_of self.old) ≡ history self.old ++ e ∷ []
            → view_of (seat_of self.new) ≡ committed_view (view_of (seat_of self.old))
            (history self.old) e }
    {
        self.turn.show(self.seat, &self.value, 1);
    }

    /// Tells the lock of no entry. The value's list is the history that the turn found; the seat
    /// has then seen it.
    ///
    /// The answer is for `Turn::sleep`: how many entries came since the lock was made, modulo 2^32.
    pub fn look(&mut self) -> u32
        requires turn { IsIn self.old }
        requires same { V.told (value_of self.old) ≡ history self.old }
        requires base { base_of (seat_of self.old) ≡ Some (V.base (value_of self.old)) }
        ensures borrow { SameBorrow self.old self.new }
        ensures turn { IsShown self.new × SameLock (seat_of self.old) (seat_of self.new) }
        ensures value { value_of self.new ≡ value_of self.old }
        ensures history { GoesOn V.by (view_of (seat_of self.old)) (history self.old) }
        ensures seen { seen (seat_of self.new) ≡ V.told (value_of self.old) }
        ensures view { view_of (seat_of self.new) ≡ looked_view (view_of (seat_of self.old))
            (history self.old) }
        ensures count { result ≡ (length (history self.old) - length_at_start (seat_of self.old))
            % 2 ^ 32 }
    {
        self.turn.show(self.seat, &self.value, 0)
    }

    /// Ends the turn, and puts the value back, whose list is still what the seat has seen.
    pub fn leave(self)
        requires turn { IsShown self }
        requires same { V.told (value_of self) ≡ seen (seat_of self) }
        requires base { base_of (seat_of self) ≡ Some (V.base (value_of self)) }
        ensures turn { IsAway self.exit.0.now × SameLock (seat_of self.entry) self.exit.0.now }
        ensures view { view_of self.exit.0.now ≡ view_of (seat_of self.entry) }
    {
        let Held { seat, turn, value } = self;
        turn.unlock(seat, value);
    }
}
