// SPDX-License-Identifier: MIT
//! What speaks against reading an image: compressed clusters that can't be read, in which of its
//! files, where, and why; and files that end too early.
//!
//! Ways of compression that aren't offered are looked for before an image is read, and the ends of
//! files too. For faulty streams it is looked at again once a read was refused. So only then do
//! these cost time.

use crate::cause::ClusterFault;
use crate::layers::{FileDriver, layer_at};
use crate::short::{ShortFile, ShortFiles, short_file};
use imago_access::access::FormatAccess;
use imago_copy::runs::{Kind, Run, Runs};
use imago_drivers::drivers::Format;
use imago_qcow2::header::Compression;
use imago_qcow2::qcow2::Qcow2;
use imago_storage::error::Error;
use imago_storage::storage::Storage;
use std::alloc::Global;

/// The path of the file that a layer stands in, and its driver, if it is a qcow2 image.
pub(crate) fn qcow2_in<D: FileDriver>(
    layer: &FormatAccess<D>,
) -> Option<(&str, &Qcow2<D::Storage>)> {
    let qcow2 = layer.inner().qcow2()?;
    let (path, _) = layer.inner().file(0)?;
    Some((path, qcow2))
}

/// The same of the layer that makes up the bytes of a run.
fn qcow2_of<D: FileDriver>(
    image: &FormatAccess<D>,
    run: Run,
) -> Option<(&str, &Qcow2<D::Storage>)> {
    match run.kind {
        Kind::Special { layer, .. } => match layer_at(image, layer) {
            Some(layer) => qcow2_in(layer),
            None => None,
        },
        _ => None,
    }
}

/// Where the cluster of an image begins that has an offset of the disk.
fn cluster_start<S: Storage>(qcow2: &Qcow2<S>, at: u64) -> u64 {
    let cluster = qcow2.header().cluster_size();
    at.checked_rem(cluster).map_or(at, |rest| at - rest)
}

/// A cluster of a disk that is compressed in a way that isn't offered: the file that has it, and
/// where it begins on the disk.
fn unoffered<D: FileDriver>(image: &FormatAccess<D>, run: Run) -> Option<(&str, u64)> {
    let (path, qcow2) = qcow2_of(image, run)?;
    if qcow2.header().compression() == Compression::Zstd {
        return Some((path, cluster_start(qcow2, run.at)));
    }
    None
}

/// The file in which a run of a disk stands, if it ends before the run does.
fn short_of<D: FileDriver>(image: &FormatAccess<D>, run: Run) -> Option<ShortFile<'_>> {
    match run.kind {
        Kind::Stored { layer, .. } => short_file(layer_at(image, layer)?, run),
        _ => None,
    }
}

/// Whether the tables of a layer show that all of its disk can be read, and that its file ends
/// before none of it.
fn is_sound<D: FileDriver>(driver: &D) -> bool {
    let Some(qcow2) = driver.qcow2() else {
        return driver.format() == Format::Raw;
    };
    match driver.file(0) {
        Some((_, status)) => qcow2.is_sound(status.length),
        None => false,
    }
}

/// The same of each layer of an image.
fn are_sound<D: FileDriver>(image: &FormatAccess<D>) -> bool {
    let mut layer = Some(image);
    while let Some(here) = layer {
        if !is_sound(here.inner()) {
            return false;
        }
        layer = here.backing();
    }
    true
}

/// The file that has the first cluster of a disk that is compressed in a way that isn't offered,
/// and where that cluster begins on the disk, if there is one. The files that end before bytes of
/// the disk do are put to the others, as far as they come before it.
///
/// Most disks have no such cluster and no such file, and a look at the tables of each layer by
/// itself shows so. Only where it doesn't is the disk gone through run by run.
pub(crate) fn unoffered_in<'b, D: FileDriver>(
    image: &'b FormatAccess<D>,
    short: &mut ShortFiles<'b>,
) -> Result<Option<(&'b str, u64)>, Error> {
    if are_sound(image) {
        return Ok(None);
    }
    let mut runs = Runs::new(image)?;
    while let Some(run) = runs.next_run()? {
        let found = unoffered(image, run);
        if found.is_some() {
            return Ok(found);
        }
        if let Some(file) = short_of(image, run) {
            short.add(file);
        }
    }
    Ok(None)
}

/// The first compressed cluster of a disk that can't be decoded: the file that has it, where it
/// begins on the disk, and its fault. There is none where the disk can't be read for another
/// reason.
pub(crate) fn stream_fault_in<D: FileDriver>(
    alloc: Global,
    image: &FormatAccess<D>,
) -> Option<(&str, u64, ClusterFault)> {
    let Ok(mut runs) = Runs::new(image) else {
        return None;
    };
    while let Ok(Some(run)) = runs.next_run() {
        if let Some((path, qcow2)) = qcow2_of(image, run) {
            if let Some((start, fault)) = fault_in(alloc, qcow2, run) {
                return Some((path, start, fault));
            }
        }
    }
    None
}

/// The first cluster of a run that can't be decoded, and its fault, if there is one.
fn fault_in<S: Storage>(alloc: Global, qcow2: &Qcow2<S>, run: Run) -> Option<(u64, ClusterFault)> {
    let cluster = qcow2.header().cluster_size();
    let end = run.at.saturating_add(run.count);
    let mut at = cluster_start(qcow2, run.at);
    while at < end {
        if let Some(fault) = fault_at(alloc, qcow2, at) {
            return Some((at, fault));
        }
        at = at.saturating_add(cluster.max(1));
    }
    None
}

/// The fault of the stream of the cluster at that offset of the disk, if it is compressed and has
/// one.
fn fault_at<S: Storage>(alloc: Global, qcow2: &Qcow2<S>, at: u64) -> Option<ClusterFault> {
    match qcow2.stream_fault(alloc, at) {
        Ok(Some(fault)) => Some(ClusterFault::Stream(fault)),
        _ => None,
    }
}
