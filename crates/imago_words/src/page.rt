// SPDX-License-Identifier: MIT
//! The pages of the table: a command each.
use crate::row::Row;

/// A command, with its options.
#[derive(Clone, Copy)]
pub struct Page {
    /// Its name.
    pub name: &'static str,
    /// What help says of it.
    pub about: &'static str,
    /// What help calls its files, in their order.
    pub files: &'static str,
    /// Its options.
    pub rows: &'static [Row],
    /// The options that qemu-img's command has, and this one hasn't.
    pub absent: &'static [Absent],
}

/// A setting of a new file, which `-o` takes.
#[derive(Clone, Copy)]
pub struct Setting {
    /// Its name.
    pub name: &'static str,
    /// What help calls its value.
    pub value: &'static str,
    /// What it says of the file, and which values it takes.
    pub help: &'static str,
}

/// An option, or a command, that only qemu-img has.
#[derive(Clone, Copy)]
pub struct Absent {
    /// As it is typed.
    pub name: &'static str,
    /// What there is in its place.
    pub instead: &'static str,
}
