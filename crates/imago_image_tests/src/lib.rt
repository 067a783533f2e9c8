// SPDX-License-Identifier: MIT
//! Tests: drivers, and images over chains of layers. What tests share stands in
//! `imago_test_storages`,
//! `imago_test_drivers` and `imago_test_tables`; nothing else is here.
#![tactic(auto)]

#[cfg(test)]
mod tests;
