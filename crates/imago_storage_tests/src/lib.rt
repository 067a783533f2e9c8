// SPDX-License-Identifier: MIT
//! Tests: storages, and requests of any alignment on them. What tests share stands in
//! `imago_test_storages`,
//! `imago_test_drivers` and `imago_test_tables`; nothing else is here.
#![tactic(auto)]

#[cfg(test)]
mod tests;
