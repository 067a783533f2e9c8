// SPDX-License-Identifier: MIT
//! Where the bytes of an image's disk stand.

pub use imago_plan::name::{path_beside, stays_below};
pub use imago_plan::piece::{Location, Piece, Source};
pub use imago_plan::plan::plan;
