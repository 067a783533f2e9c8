// SPDX-License-Identifier: MIT
//! The tests of `imago`: the example of the README, images of each format, and each law, called at
//! types that it is for.
#![tactic(auto)]

#[cfg(test)]
mod tests;
