// SPDX-License-Identifier: MIT
//! Drivers, and images of them: tables of calls and what each answers.
//!
//! A table is made on a driver or an image by one generic function, which is named once for each
//! type: so the proofs of the tests stay short.
mod answer;
mod blocks;
mod chains;
mod copies;
mod driver;
mod faults;
mod image;
mod mem;
mod raw;
mod reached;
mod reader;
mod rule;
mod runs;
mod set_up;
mod sparse;
mod subject;
mod sweep;
mod untold;
mod zeroes;
mod zeroing;
