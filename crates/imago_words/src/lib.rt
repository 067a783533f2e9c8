// SPDX-License-Identifier: MIT
//! The command line of `imago-img`: its options as a table, and the command that its words ask for.
#![tactic(auto)]

pub mod asked;
pub mod command;
mod cut;
pub mod fault;
pub mod format;
pub mod help;
pub mod hint;
pub mod kind;
pub mod laws;
pub mod line;
pub mod page;
pub mod refusal;
pub mod row;
pub mod settings;
pub mod size;
pub mod table;
pub mod words;
