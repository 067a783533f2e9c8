// SPDX-License-Identifier: MIT
//! The text of a whole chain.

use crate::access::FormatAccess;
use imago_drivers::drivers::FormatDriverInstance;
use std::fmt::{self, Display, Formatter, Write};

/// The texts of an image's drivers, from the top layer down: `cow[mem:top] over raw[mem:base]`.
#[derive(Drop)]
pub struct ChainText<'a, D> {
    image: &'a FormatAccess<D>,
}

impl<D: FormatDriverInstance> FormatAccess<D> {
    /// The texts of all layers, to be printed. The text of the top layer alone is what the image
    /// itself prints.
    pub fn chain_text(&self) -> ChainText<'_, D> {
        ChainText { image: self }
    }
}

impl<D: FormatDriverInstance> Display for ChainText<'_, D> {
    fn fmt<W: Write>(&self, f: &mut Formatter<W>) -> fmt::Result {
        let mut layer = self.image;
        write!(f, "{layer}")?;
        loop {
            match layer.backing() {
                Some(below) => layer = below,
                None => return Ok(()),
            }
            write!(f, " over {layer}")?;
        }
    }
}
