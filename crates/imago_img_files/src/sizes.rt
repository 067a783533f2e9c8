// SPDX-License-Identifier: MIT
//! Sizes for people.

use std::fmt::{self, Display};

/// How a size is told whose number of bytes is less than 1000 times a power of 1024.
const UNITS: [&str; 7] = ["B", "KiB", "MiB", "GiB", "TiB", "PiB", "EiB"];

/// A number of bytes, which is told in three digits and a unit, as `1.5 GiB`.
#[derive(Clone, Copy)]
pub struct Size(pub u64);

/// A number in a unit: the whole ones, and how many thousandths there are besides.
#[derive(Clone, Copy)]
struct InUnit {
    whole: u64,
    thousandths: u64,
}

/// So many thousandths beside so many whole ones, so that both have three digits.
fn in_three_digits(whole: u64, thousandths: u64) -> u64 {
    if whole == 0 {
        return thousandths;
    }
    if whole < 10 {
        return thousandths.saturating_add(5) / 10 * 10;
    }
    if whole < 100 {
        return thousandths.saturating_add(50) / 100 * 100;
    }
    thousandths.saturating_add(500) / 1000 * 1000
}

/// How many thousandths of a unit of so many bytes the bytes behind the whole ones are.
fn thousandths_of(bytes: u64, unit: u64) -> u64 {
    let unit = unit.max(1);
    let rest = bytes % unit;
    // Exact enough, and never past the greatest number.
    if unit >= 1 << 50 {
        return (rest / 1024).saturating_mul(1000) / (unit / 1024).max(1);
    }
    rest.saturating_mul(1000) / unit
}

/// So many bytes in a unit of so many, in three digits.
fn rounded(bytes: u64, unit: u64) -> InUnit {
    let whole = bytes / unit.max(1);
    let thousandths = in_three_digits(whole, thousandths_of(bytes, unit));
    if thousandths >= 1000 {
        return InUnit {
            whole: whole.saturating_add(1),
            thousandths: 0,
        };
    }
    InUnit { whole, thousandths }
}

impl Display for Size {
    fn fmt<W: fmt::Write>(&self, f: &mut fmt::Formatter<W>) -> fmt::Result {
        let mut unit: u64 = 1;
        for name in &UNITS {
            if self.0 / unit.max(1) < 1000 {
                return fmt_in_unit(f, rounded(self.0, unit), name);
            }
            unit = unit.saturating_mul(1024);
        }
        fmt_in_unit(f, rounded(self.0, 1 << 60), "EiB")
    }
}

/// Tells a number in a unit. Its last digits aren't told where they are 0.
fn fmt_in_unit<W: fmt::Write>(
    f: &mut fmt::Formatter<W>,
    number: InUnit,
    unit: &str,
) -> fmt::Result {
    let (whole, rest) = (number.whole, number.thousandths);
    if rest == 0 {
        write!(f, "{whole} {unit}")
    } else if rest % 100 == 0 {
        write!(f, "{whole}.{} {unit}", rest / 100)
    } else if rest % 10 == 0 {
        write!(f, "{whole}.{:02} {unit}", rest / 10)
    } else {
        write!(f, "{whole}.{rest:03} {unit}")
    }
}
