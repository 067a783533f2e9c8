// SPDX-License-Identifier: MIT
//! All of the program `imago-img` but its `main`: its commands, by the words of a command line.
//!
//! The commands find files by a `Host` of `imago_img_files`: the program takes
//! [`System`](system::System), tests have one in memory. They have it as a `Confined` one of
//! `imago_images`, which is asked for the paths alone that a command may ask for.
#![tactic(auto)]

pub mod commands;
pub mod locks;
mod question;
mod reach;
pub mod run;
pub mod system;
