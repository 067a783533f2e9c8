// SPDX-License-Identifier: MIT
//! All of the program `imago-script` but its `main`: scripts of commands on disk images, and what
//! they print.
//!
//! [`ScriptStorage`](script_storage::ScriptStorage) is one of the storages that a script makes. It
//! keeps the laws of its interface.
#![tactic(auto)]

mod answer;
mod command;
mod digits;
pub mod script;
pub mod script_storage;
mod session;
mod stop;
mod words;
