// SPDX-License-Identifier: MIT
//! Command lines, and what comes of each.

mod accepted;
mod help;
mod refused;
mod set_up;
