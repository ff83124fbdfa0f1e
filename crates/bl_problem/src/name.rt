//! The name of a row or a column.
ghost use Rattle.std.specs.Prelude.{◌≡◌, ◌≢◌, []};

use bl_mods::Items;
use std::marker::Model;

/// A name: one byte or more. Contracts see its bytes.
#[derive(Drop)]
pub struct Name {
    bytes: Items<u8>,
}

impl Model for Name {
    ghost use Rattle.std.specs.Prelude.{List, ℕ, ◌≢◌, []};

    ghost Value = { List ℕ };

    ghost view = { λ n. n.bytes };

    ghost invariant = { λ n. n.bytes ≢ [] };
}

impl Name {
    /// The name of these bytes. Takes no memory.
    pub fn new(bytes: Vec<u8>) -> Name
        requires { bytes.items ≢ [] }
        ensures { result ≡ bytes.items }
    {
        Name {
            bytes: Items::from_vec(bytes),
        }
    }

    /// The bytes, at least one.
    pub fn bytes(&self) -> &[u8]
        ensures bytes { result.now ≡ self.now }
        ensures some { self.now ≢ [] }
    {
        self.bytes.as_slice()
    }
}
