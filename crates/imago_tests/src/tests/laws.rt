// SPDX-License-Identifier: MIT
//! Each law is called at types that it is for: a premise that none of them meets would be seen
//! here.
ghost use Rattle.std.specs.Prelude.{◌≡◌, ℕ, ◌+◌, ◌≤◌, true, None, length};
ghost use Rattle.std.specs.Prelude.{IfOk, IsOk, OnOk};
ghost use Rattle.imago_storage.specs.Features.{IsAlignedRequest};
ghost use Rattle.imago_drivers.specs.RawImage.{storage_in, size_of, writability_of};
ghost use Rattle.imago_drivers.specs.Room.{HasRoom};
ghost use Rattle.imago_vmdk.specs.Image.{is_opened};
ghost use Rattle.imago_access.specs.Chain.{driver, backing};

use super::files::{opened_vmdk, stored};
use imago::cow::Cow;
use imago::error::Error;
use imago::format::PreallocateMode;
use imago::laws::{
    data_blocks, descriptors, drivers, images, in_memory, over_null, plans, qcow2_disk,
    qcow2_files, round_trip, runs_of_cow, storages, vmdk_disk,
};
use imago::mem::MemStorage;
use imago::null::Null;
use imago::qcow2::Qcow2;
use imago::raw::Raw;
use imago::vmdk::Vmdk;
use imago::{FormatAccess, FormatDriverInstance, Storage};
use imago_cow::table::Table;
use std::alloc::Global;
use std::test::Fail;

/// The laws of storages and layers, and the examples that are worked by hand.
fn call_laws_of_storages(null: &Null) {
    storages::splice_by_offset();
    storages::wrap_causes();
    storages::null_reads_zero(null);
    drivers::raw_image_of_four_bytes();
    drivers::disk_over_a_shorter_layer();
    drivers::aligned_parts();
    drivers::mapping_past_a_raw_image();
}

/// The laws of descriptors, and the lines that are written out.
fn call_laws_of_descriptors() {
    descriptors::same_stands();
    descriptors::first_fault();
    descriptors::extent_lines();
    descriptors::faulty_extent_lines();
    descriptors::other_lines();
    descriptors::setting_lines();
    descriptors::lines_with_unknown_keys();
    descriptors::whole_descriptors();
}

/// The laws of tables of data blocks.
fn call_laws_of_tables(table: &Table) {
    data_blocks::each_data_block_is_used_once(table);
    data_blocks::data_blocks_are_counted(table);
    data_blocks::lowest_unused_ones();
}

/// The laws of images.
fn call_laws_of_images<D: FormatDriverInstance>() {
    images::flat_histories::<D>();
    images::runs_keep_layers_below::<D>();
    images::flat_runs();
    images::writes_on_lists::<D>();
    images::resizes_on_lists::<D>();
    images::reads_show_targets::<D>();
    images::reads_succeed::<D>();
    images::readable_ranges_are_read::<D>();
    images::mappings_succeed::<D>();
    images::writes_succeed::<D>();
    images::data_mappings_succeed::<D>();
    images::prepares_succeed::<D>();
    images::zero_writes_succeed::<D>();
    images::discards_succeed::<D>();
    images::growths_succeed::<D>();
    images::cuts_succeed::<D>();
    images::prepared_writes_succeed::<D>();
    images::commits_succeed::<D>();
    images::flushes_succeed::<D>();
    plans::plans_show_stored_bytes::<D>();
    plans::top_layers_lead_nowhere::<D>();
}

/// The laws of images, for the drivers of this library.
fn call_laws_of_drivers<S: Storage>() {
    call_laws_of_images::<Raw<S>>();
    call_laws_of_images::<Vmdk<S>>();
    call_laws_of_images::<Cow<S>>();
}

/// The laws of raw images, at the one in that storage.
fn call_laws_of_raw<S: Storage>(storage: S) -> Result<(), Error> {
    let raw = Raw::open_image(storage, true)?;
    drivers::raw_images_refuse_nothing(&raw);
    drivers::raw_image_stands_in_its_storage(&raw);
    Ok(())
}

/// The laws of VMDK images, at the one that a descriptor describes.
fn call_laws_of_vmdk<S: Storage>(alloc: Global, descriptor: S) -> Result<(), Error> {
    let vmdk = opened_vmdk(alloc, descriptor)?;
    descriptors::places_of_extents(&vmdk);
    descriptors::places_of_bytes(&vmdk);
    descriptors::disk_of_bytes(&vmdk);
    let image = FormatAccess::new(vmdk);
    vmdk_disk(&image);
    plans::plans_of_vmdk(&image);
    Ok(())
}

/// The laws of qcow2 images, at the one in that file.
fn call_laws_of_qcow2<S: Storage>(alloc: Global, file: S) -> Result<(), Error> {
    qcow2_files::same_tables_stand_alike();
    qcow2_files::worked_l2_entries();
    qcow2_files::worked_l1_entries();
    let qcow2 = Qcow2::open_image(alloc, file, false)?;
    qcow2_files::disk_of_bytes(&qcow2);
    qcow2_files::image_of_bytes(&qcow2);
    qcow2_disk(&FormatAccess::new(qcow2));
    Ok(())
}

/// The laws of copy-on-write disks, at a new one in that storage.
fn call_laws_of_cow<S: Storage>(alloc: Global, storage: S) -> Result<(), Error> {
    let cow = Cow::create(alloc, storage, 4096, 512)?;
    data_blocks::data_blocks_of_a_disk(&cow);
    data_blocks::data_blocks_of_a_disk_are_counted(&cow);
    data_blocks::a_disk_keeps_what_its_storage_keeps(&cow);
    let image = FormatAccess::new(cow);
    runs_of_cow(&image, &image);
    Ok(())
}

/// The file of a qcow2 image of version 2, in clusters of 512 bytes, whose disk has no byte.
fn empty_qcow2(alloc: Global) -> Result<MemStorage, Error> {
    let mut file = vec![in alloc; 0u8; 512]?;
    file[..4].copy_from_slice(b"QFI\xfb");
    file[7] = 2;
    file[23] = 9;
    Ok(MemStorage::new(file))
}

/// The laws of each format, at images of it.
fn call_laws_at_images(alloc: Global) -> Result<(), Error> {
    call_laws_of_raw(stored(alloc, b"")?)?;
    call_laws_of_raw(Null::new(512))?;
    call_laws_of_cow(alloc, stored(alloc, b"")?)?;
    call_laws_of_vmdk(alloc, stored(alloc, b"version=1\nRW 1 ZERO\n")?)?;
    call_laws_of_qcow2(alloc, empty_qcow2(alloc)?)
}

/// Each law.
fn call_laws(alloc: Global) -> Result<(), Error> {
    call_laws_of_storages(&Null::new(512));
    call_laws_of_descriptors();
    call_laws_of_tables(&Table::new(alloc, 4)?);
    call_laws_of_drivers::<MemStorage>();
    call_laws_of_drivers::<Null>();
    call_laws_at_images(alloc)
}

/// A writable raw image of 1024 bytes in memory.
fn in_memory_image(alloc: Global) -> Result<FormatAccess<Raw<MemStorage>>, Error>
    ensures alone { IfOk result (λ x. backing x ≡ None) }
    ensures size { IfOk result (λ x. size_of (driver x) ≡ 1024) }
    ensures writable { IfOk result (λ x. writability_of (driver x) ≡ true) }
    ensures room { IfOk result
        (λ x. (o n : ℕ) → o + n ≤ 4096
        → HasRoom (⟦<MemStorage as Storage>⟧.features (storage_in (driver x))) o n) }
    ensures aligned { IfOk result
        (λ x. (o n : ℕ) → o + n ≤ 4096
        → IsAlignedRequest (⟦<MemStorage as Storage>⟧.features (storage_in (driver x))) o n) }
{
    let storage = MemStorage::new(vec![in alloc; 0xa5u8; 1024]?);
    Ok(FormatAccess::new(Raw::open_image(storage, true)?))
}

/// A writable raw image of 1024 bytes over a storage that keeps nothing.
fn null_image() -> Result<FormatAccess<Raw<Null>>, Error>
    ensures size { IfOk result (λ x. size_of (driver x) ≡ 1024) }
    ensures writable { IfOk result (λ x. writability_of (driver x) ≡ true) }
{
    Ok(FormatAccess::new(Raw::open_image(Null::new(1024), true)?))
}

/// Each call that succeeds in memory.
fn call_in_memory(alloc: Global) -> Result<(), Error> {
    let mut buf = [0; 16];
    in_memory::read(alloc, &in_memory_image(alloc)?, &mut buf, 512)?;
    in_memory::get_mapping(&in_memory_image(alloc)?, 512, 16)?;
    in_memory::write(alloc, &mut in_memory_image(alloc)?, &[1; 16], 512)?;
    in_memory::write_zeroes(alloc, &mut in_memory_image(alloc)?, 512, 16)?;
    in_memory::discard_to_any(alloc, &mut in_memory_image(alloc)?, 512, 16)?;
    in_memory::flush(&mut in_memory_image(alloc)?)?;
    round_trip::write_then_read(
        alloc,
        &mut in_memory_image(alloc)?,
        &[1; 16],
        &mut buf,
        1000,
    )
}

/// Each call that succeeds where nothing is kept.
fn call_over_null(alloc: Global) -> Result<(), Error> {
    over_null::read(alloc, &null_image()?, &mut [0; 16], 512)?;
    over_null::get_mapping(&null_image()?, 512, 16)?;
    over_null::write(alloc, &mut null_image()?, &[1; 16], 512)?;
    over_null::write_zeroes(alloc, &mut null_image()?, 512, 16)?;
    over_null::discard_to_any(alloc, &mut null_image()?, 512, 16)?;
    over_null::flush(&mut null_image()?)
}

/// Grows an image, flushes it, and writes to its start.
fn grow_and_write<D: FormatDriverInstance>(
    alloc: Global,
    image: &mut FormatAccess<D>,
    new_size: u64,
    source: &[u8],
) -> Result<(), Error>
    requires { (D.view (driver image.old)).pending ≡ None }
    ensures grown { OnOk result (new_size ≤ (D.view (driver image.new)).size) }
    ensures kept { OnOk result ((index : ℕ)
        → (D.view (driver image.new)).stores.features index
        ≡ (D.view (driver image.old)).stores.features index) }
{
    image.resize_grow(alloc, new_size, PreallocateMode::Zero)?;
    image.flush()?;
    image.write(alloc, source, 0)
}

/// Grows an image in memory, flushes it, writes to it, and reads inside its new size. The read
/// succeeds: nothing of what came before gave it a cause of a refusal.
fn read_grown(
    alloc: Global,
    image: &mut FormatAccess<Raw<MemStorage>>,
    new_size: u64,
    source: &[u8],
    buf: &mut [u8],
    offset: u64,
) -> Result<Result<(), Error>, Error>
    requires inside { offset + length buf.old ≤ new_size }
    requires room { HasRoom (⟦<MemStorage as Storage>⟧.features (storage_in (driver image.old)))
        offset (length buf.old) }
    requires aligned { IsAlignedRequest
        (⟦<MemStorage as Storage>⟧.features (storage_in (driver image.old))) offset
        (length buf.old) }
    ensures { IfOk result IsOk }
{
    grow_and_write(alloc, image, new_size, source)?;
    Ok(in_memory::read(alloc, image, buf, offset))
}

/// The end of an image that grew is read.
fn call_behind_growth(alloc: Global) -> Result<(), Error> {
    let mut buf = [0xff; 16];
    read_grown(
        alloc,
        &mut in_memory_image(alloc)?,
        2048,
        &[1; 16],
        &mut buf,
        2032,
    )?
}

#[test]
fn laws_are_called_at_their_types(rt: HostRuntime) -> Result<(), Fail> {
    call_laws(rt.alloc())?;
    Ok(())
}

#[test]
fn calls_succeed_at_their_types(rt: HostRuntime) -> Result<(), Fail> {
    call_in_memory(rt.alloc())?;
    call_over_null(rt.alloc())?;
    call_behind_growth(rt.alloc())?;
    Ok(())
}
