// SPDX-License-Identifier: MIT
//! Image formats, and how an image that grows is allocated.

/// The formats that a driver can have.
#[derive(Clone, Copy, Debug, PartialEq, Eq)]
pub enum Format {
    /// A disk that is its storage.
    Raw,
    /// QEMU's copy-on-write format, which `imago_qcow2` reads.
    Qcow2,
    /// VMware's virtual disks.
    Vmdk,
    /// What is written is kept apart from the layer below, with a table in memory.
    Cow,
}

/// What the new bytes of an image that grows show, and how they are allocated.
///
/// The last three modes show the layer below at the same offsets: zeroes past its end, where there
/// is none, or where the driver takes none.
#[derive(Clone, Copy, Debug, PartialEq, Eq)]
pub enum PreallocateMode {
    /// New bytes are unspecified.
    None,
    /// New bytes read as zeroes.
    Zero,
    /// The format's own structures are allocated.
    FormatAllocate,
    /// The bytes are allocated too.
    FullAllocate,
    /// The bytes are written as data.
    WriteData,
}
