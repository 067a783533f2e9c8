// SPDX-License-Identifier: MIT
//! Storages, and requests of any alignment on them.
mod calls;
mod faults;
mod make;
mod opening;
mod options;
mod script;
mod set_up;
mod subject;
mod sweep;
mod texts;
mod untold;
mod wraps;
mod writes;
mod zeroes;
