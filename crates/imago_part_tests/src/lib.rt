// SPDX-License-Identifier: MIT
//! The tests of imago_file, imago_formats, imago_words, imago_qcow2_check, imago_qcow2_new and
//! imago_session, and nothing else.
#![tactic(auto)]

#[cfg(test)]
mod file;
#[cfg(test)]
mod formats;
#[cfg(test)]
mod qcow2_check;
#[cfg(test)]
mod qcow2_new;
#[cfg(test)]
mod session;
#[cfg(test)]
mod words;
