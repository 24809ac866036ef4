//! A packet: one message in its wire form.

ghost use Rattle.std.specs.Prelude.{◌≡◌, IfOk, bytes_eq};
ghost use Rattle.std.proofs.Common.{rules};
ghost use Rattle.std.specs.Cmp.Rules.{comparing};

use cz_base::NoMemory;
use std::marker::Model;

/// One message in its wire form. Contracts see the list of its bytes.
#[derive(Debug, Drop)]
pub struct Packet {
    bytes: Vec<u8>,
}

impl Model for Packet {
    ghost use Rattle.std.specs.Prelude.{List, ℕ};

    ghost Value = { List ℕ };

    ghost view = { λ packet. packet.bytes.items };
}

impl PartialEq for Packet {
    ghost eq = { bytes_eq };

    ghost laws = { Prim.search (comparing, rules) };

    fn eq(&self, other: &Packet) -> bool {
        self.bytes.as_slice() == other.bytes.as_slice()
    }
}

impl Eq for Packet {
    ghost laws = { Prim.search (comparing, rules) };
}

impl Packet {
    /// The same bytes, with no memory taken.
    pub fn from_vec(bytes: Vec<u8>) -> Self
        ensures { result ≡ bytes.items }
    {
        Packet { bytes }
    }

    /// The same bytes, with no memory taken.
    pub fn into_vec(self) -> Vec<u8>
        ensures { result.items ≡ self }
    {
        let Packet { bytes } = self;
        bytes
    }

    /// The message in its wire form, byte for byte.
    pub fn as_bytes(&self) -> &[u8]
        ensures { result.now ≡ self.now }
    {
        &self.bytes
    }

    /// A packet with the same bytes.
    pub fn copy(&self) -> Result<Self, NoMemory>
        ensures { IfOk result (λ copy. copy ≡ self.now) }
    {
        Ok(Packet {
            bytes: Vec::from_slice(*self.bytes.allocator(), &self.bytes)?,
        })
    }
}
