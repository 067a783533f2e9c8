// SPDX-License-Identifier: MIT
//! Why a disk isn't read.
use imago_inflate::fault::InflateError;
use imago_qcow2_check::fault::Fault;
use std::io;
use thiserror::Error;

/// Why a compressed cluster can't be read, and what can be done about it.
#[derive(Clone, Copy, Debug, Error)]
pub enum ClusterFault {
    /// It is compressed with zstd.
    #[error("is compressed with zstd, which isn't offered; \
        qemu-img convert -O qcow2 FILE PLAIN makes a plain image of it")]
    Zstd,
    /// Its stream has that fault.
    #[error("can't be decoded: {0}; use an intact copy of the file")]
    Stream(InflateError),
}

/// What is known of a file because of which a disk isn't read.
#[derive(Debug, Drop)]
pub enum Cause {
    /// Its host refused to read it.
    Host(io::Error),
    /// A compressed cluster can't be read.
    Cluster {
        /// Where it begins on the disk of its layer, in bytes.
        offset: u64,
        /// Why.
        fault: ClusterFault,
    },
    /// An entry of one of its tables is invalid.
    Entry(Fault),
}

/// A file because of which a disk isn't read.
#[derive(Debug, Drop)]
pub struct FaultyFile<'a> {
    /// Its path. It may be one below the image's own.
    pub path: &'a str,
    /// What is known of it.
    pub cause: Cause,
}
