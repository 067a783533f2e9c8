// SPDX-License-Identifier: MIT
//! A piece of a disk.
ghost use Rattle.std.specs.Prelude.{◌≡◌, ◌+◌, ◌^◌, ◌<◌};

/// Where bytes stand: in which storage, and from which offset on.
#[derive(Clone, Copy, Debug, PartialEq, Eq)]
pub struct Location {
    /// The depth of the layer whose driver has the storage: 0 at the top.
    pub layer: usize,
    /// The storage's index in that driver.
    pub storage: usize,
    /// The first byte's offset in the storage, in bytes.
    pub offset: u64,
}

impl Location {
    ghost use Rattle.imago_plan.specs.Pieces.{is_behind};

    /// Whether another place is right behind that many bytes from this one on.
    pub fn is_behind(self, count: u64, next: Location) -> bool
        ensures { result ≡ is_behind self «count» next }
    {
        self.layer == next.layer
            && self.storage == next.storage
            && self.offset.checked_add(count) == Some(next.offset)
    }
}

/// What a piece consists of.
#[derive(Clone, Copy, Debug, PartialEq, Eq)]
pub enum Source {
    /// Zeroes that stand in no storage.
    Zero,
    /// Bytes of a storage, the first of them there.
    Stored(Location),
}

/// Bytes of a disk that stand in one place. Offsets and counts are in bytes.
#[derive(Clone, Copy, Debug, PartialEq, Eq)]
pub struct Piece {
    /// The first byte's offset on the disk.
    pub at: u64,
    /// How many bytes there are.
    pub count: u64,
    /// Where they stand.
    pub source: Source,
}

impl Piece {
    ghost use Rattle.imago_plan.specs.Pieces.{continues};

    /// Whether a piece that is next on the disk also stands right behind this one.
    pub fn continues(&self, next: &Piece) -> bool
        ensures { result ≡ continues self.now next.now }
    {
        match (self.source, next.source) {
            (Source::Zero, Source::Zero) => true,
            (Source::Stored(here), Source::Stored(there)) => here.is_behind(self.count, there),
            _ => false,
        }
    }

    /// This piece with that many bytes more.
    pub fn longer(self, more: u64) -> Piece
        requires { self.count + more < 2 ^ 64 }
        ensures { result ≡ record self { count = self.count + more } }
    {
        Piece {
            count: self.count + more,
            ..self
        }
    }
}
