// SPDX-License-Identifier: MIT
//! Times for people.

use std::fmt::{self, Display};

/// How many days an era of 400 years has.
const ERA: u64 = 146_097;

/// How many days before 1970 the era began that ends in March 2000.
const BEFORE: u64 = 719_468 - 4 * 146_097;

/// A time in seconds since 1970, which is told as a date: `2026-12-01 00:02:36 UTC`.
#[derive(Clone, Copy)]
pub struct Date(pub u32);

/// How long a machine had run, in nanoseconds, which is told in hours: `26:01:59.250`.
#[derive(Clone, Copy)]
pub struct Clock(pub u64);

/// A day of a year of that number.
#[derive(Clone, Copy)]
struct Day {
    year: u64,
    month: u64,
    day: u64,
}

/// The day that is so many days behind the first one of 1970.
fn day_of(days: u64) -> Day {
    // Days count from a March on, so that the day that not every year has is a year's last one.
    let behind = days.saturating_add(BEFORE);
    let (era, day) = (behind / ERA, behind % ERA);
    let leap = (day / 1460).saturating_add(day / 146_096);
    let year = day.saturating_sub(leap).saturating_add(day / 36_524) / 365;
    let before = year
        .saturating_mul(365)
        .saturating_add(year / 4)
        .saturating_sub(year / 100);
    let day = day.saturating_sub(before);
    let month = day.saturating_mul(5).saturating_add(2) / 153;
    let day = day.saturating_sub(month.saturating_mul(153).saturating_add(2) / 5);
    let year = era
        .saturating_mul(400)
        .saturating_add(year)
        .saturating_add(1600);
    Day {
        year: if month < 10 {
            year
        } else {
            year.saturating_add(1)
        },
        month: if month < 10 {
            month.saturating_add(3)
        } else {
            month.saturating_sub(9)
        },
        day: day.saturating_add(1),
    }
}

impl Display for Date {
    fn fmt<W: fmt::Write>(&self, f: &mut fmt::Formatter<W>) -> fmt::Result {
        let seconds = u64::from(self.0);
        let Day { year, month, day } = day_of(seconds / 86_400);
        let (hour, minute) = (seconds / 3600 % 24, seconds / 60 % 60);
        let second = seconds % 60;
        write!(f, "{year}-{month:02}-{day:02}")?;
        write!(f, " {hour:02}:{minute:02}:{second:02} UTC")
    }
}

impl Display for Clock {
    fn fmt<W: fmt::Write>(&self, f: &mut fmt::Formatter<W>) -> fmt::Result {
        let (seconds, rest) = (self.0 / 1_000_000_000, self.0 % 1_000_000_000);
        let (hours, minutes) = (seconds / 3600, seconds / 60 % 60);
        let (seconds, thousandths) = (seconds % 60, rest / 1_000_000);
        write!(f, "{hours:02}:{minutes:02}:{seconds:02}.{thousandths:03}")
    }
}
