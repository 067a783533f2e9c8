// SPDX-License-Identifier: MIT
//! Which format QEMU takes a file for whose format isn't said.
ghost use Rattle.std.specs.Prelude.{◌≡◌, ◌≤◌, ◌∷◌, [], length, MatchOption};
ghost use Rattle.std.specs.List.{filter};
ghost use Rattle.imago_formats.specs.Bytes.{head as head_by, be32 as be32_by, stands as stands_by};
ghost use Rattle.imago_formats.specs.Probes.{sees, sees_qcow2, sees_qcow1, sees_luks};
ghost use Rattle.imago_formats.specs.Probes.{sees_parallels, sees_bochs, sees_vmdk, has_dmg_name};
ghost use Rattle.imago_formats.specs.Probes.{taken_by_qemu, the_only, marked, weak};

use crate::text::is_descriptor;

/// A format that QEMU sees in files.
#[derive(Clone, Copy, Debug, PartialEq, Eq)]
pub enum Probed {
    /// No format: the file's bytes are the disk's.
    Raw,
    /// A qcow2 image.
    Qcow2,
    /// A qcow image of version 1.
    Qcow1,
    /// A QED image.
    Qed,
    /// A VDI image, of VirtualBox.
    Vdi,
    /// A VHDX image, of Hyper-V.
    Vhdx,
    /// A VHD image, of Virtual PC.
    Vpc,
    /// A VMDK image, sparse or by a text.
    Vmdk,
    /// A Parallels image.
    Parallels,
    /// A LUKS volume.
    Luks,
    /// An image of Bochs.
    Bochs,
    /// A compressed image of Linux' cloop.
    Cloop,
    /// A DMG image, of macOS, by the file's name.
    Dmg,
}

/// How many bytes of a file QEMU looks at.
pub const HEAD: usize = 512;

/// The formats that are told by marks or a text, which count more than the others.
const MARKED: [Probed; 10] = [
    Probed::Qcow2,
    Probed::Qcow1,
    Probed::Qed,
    Probed::Vdi,
    Probed::Vhdx,
    Probed::Vpc,
    Probed::Vmdk,
    Probed::Parallels,
    Probed::Luks,
    Probed::Bochs,
];

/// The formats that count where none of those is seen.
const WEAK: [Probed; 2] = [Probed::Cloop, Probed::Dmg];

/// The text with which an image of cloop begins.
pub const CLOOP: &[u8] =
    b"#!/bin/sh\n#V2.0 Format\nmodprobe cloop file=$0 && mount -r -t iso9660 /dev/cloop $1\n";

impl Probed {
    /// QEMU's name of the format.
    pub fn name(self) -> &'static str {
        match self {
            Probed::Raw => "raw",
            Probed::Qcow2 => "qcow2",
            Probed::Qcow1 => "qcow",
            Probed::Qed => "qed",
            Probed::Vdi => "vdi",
            Probed::Vhdx => "vhdx",
            Probed::Vpc => "vpc",
            Probed::Vmdk => "vmdk",
            Probed::Parallels => "parallels",
            Probed::Luks => "luks",
            Probed::Bochs => "bochs",
            Probed::Cloop => "cloop",
            Probed::Dmg => "dmg",
        }
    }

    /// What a file of the format is, with its article.
    pub fn description(self) -> &'static str {
        match self {
            Probed::Raw => "a raw disk",
            Probed::Qcow2 => "a qcow2 image",
            Probed::Qcow1 => "a qcow image of version 1",
            Probed::Qed => "a QED image",
            Probed::Vdi => "a VDI image",
            Probed::Vhdx => "a VHDX image",
            Probed::Vpc => "a VHD image",
            Probed::Vmdk => "a VMDK image",
            Probed::Parallels => "a Parallels image",
            Probed::Luks => "a LUKS volume",
            Probed::Bochs => "a Bochs image",
            Probed::Cloop => "a cloop image",
            Probed::Dmg => "a DMG image",
        }
    }

    /// Whether QEMU sees the format in a file of that name with that head.
    fn is_seen(self, name: &str, head: &[u8]) -> bool
        requires { length head.now ≡ 512 }
        ensures { result ≡ sees name.now head.now self }
    {
        match self {
            Probed::Raw => false,
            Probed::Qcow2 => is_qcow2(head),
            Probed::Qcow1 => is_qcow1(head),
            Probed::Qed => stands(head, 0, b"QED\0"),
            Probed::Vdi => stands(head, 64, b"\x7f\x10\xda\xbe"),
            Probed::Vhdx => stands(head, 0, b"vhdxfile"),
            Probed::Vpc => stands(head, 0, b"conectix"),
            Probed::Vmdk => is_vmdk(head),
            Probed::Parallels => is_parallels(head),
            Probed::Luks => is_luks(head),
            Probed::Bochs => is_bochs(head),
            Probed::Cloop => stands(head, 0, CLOOP),
            Probed::Dmg => is_dmg_name(name),
        }
    }
}

/// Which format QEMU 7.2 takes a file for whose format isn't said. `block` has the first 512 bytes
/// of the file, or all of them if it is shorter. None is told where two formats are seen of which
/// neither counts more.
pub fn qemu_takes_for(name: &str, block: &[u8]) -> Option<Probed>
    ensures { result ≡ taken_by_qemu name.now block.now }
{
    if block.is_empty() {
        return Some(Probed::Raw);
    }
    let head = head_of(block);
    let head: &[u8] = &head;
    match first_seen(&MARKED, name, head) {
        Some((found, behind)) => unless_another(found, behind, name, head),
        None => weakly_taken_for(name, head),
    }
}

/// The same where no mark of the formats that count more stands in the file.
fn weakly_taken_for(name: &str, head: &[u8]) -> Option<Probed>
    requires { length head.now ≡ 512 }
    ensures { result ≡ the_only (filter (sees name.now head.now) weak) }
{
    match first_seen(&WEAK, name, head) {
        Some((found, behind)) => unless_another(found, behind, name, head),
        None => Some(Probed::Raw),
    }
}

/// A format that is seen, unless one of the others is seen too.
fn unless_another(found: Probed, others: &[Probed], name: &str, head: &[u8]) -> Option<Probed>
    requires { length head.now ≡ 512 }
    ensures { result ≡ the_only (found ∷ filter (sees name.now head.now) others.now) }
{
    match first_seen(others, name, head) {
        Some(_) => None,
        None => Some(found),
    }
}

/// The first of these formats that is seen in a file, and those behind it.
fn first_seen<'a>(formats: &'a [Probed], name: &str, head: &[u8]) -> Option<(Probed, &'a [Probed])>
    requires { length head.now ≡ 512 }
    ensures { MatchOption result (filter (sees name.now head.now) formats.now ≡ [])
        (λ x. filter (sees name.now head.now) formats.now
        ≡ x.0 ∷ filter (sees name.now head.now) x.1.now) }
{
    let mut rest = formats;
    while let Some((format, behind)) = rest.split_first() {
        if format.is_seen(name, head) {
            return Some((*format, behind));
        }
        rest = behind;
    }
    None
}

/// What the probes see of a file that begins with these bytes: 512 of them, with zeroes behind the
/// end.
fn head_of(block: &[u8]) -> [u8; HEAD]
    ensures { result ≡ head_by block.now }
{
    let mut head = [0u8; HEAD];
    let count = block.len().min(HEAD);
    head[..count].copy_from_slice(&block[..count]);
    head
}

/// Whether these bytes stand at an offset.
fn stands(head: &[u8], at: usize, bytes: &[u8]) -> bool
    requires { at ≤ length head.now }
    ensures { result ≡ stands_by at bytes.now head.now }
{
    head[at..].starts_with(bytes)
}

/// The number of the four bytes from the offset 4 on, the highest first.
#[tactic(auto, unfolding(crate::specs::Bytes::be32))]
fn version(head: &[u8]) -> u32
    requires { length head.now ≡ 512 }
    ensures { result ≡ be32_by 4 head.now }
{
    (head[4] as u32) * (1 << 24)
        + (head[5] as u32) * (1 << 16)
        + (head[6] as u32) * (1 << 8)
        + (head[7] as u32)
}

/// Whether the mark of qcow stands there, with a version of 2 or more.
fn is_qcow2(head: &[u8]) -> bool
    requires { length head.now ≡ 512 }
    ensures { result ≡ sees_qcow2 head.now }
{
    stands(head, 0, b"QFI\xfb") && version(head) >= 2
}

/// The same with version 1.
fn is_qcow1(head: &[u8]) -> bool
    requires { length head.now ≡ 512 }
    ensures { result ≡ sees_qcow1 head.now }
{
    stands(head, 0, b"QFI\xfb") && version(head) == 1
}

/// Whether a mark of a sparse VMDK image stands there, or a text that describes one.
fn is_vmdk(head: &[u8]) -> bool
    requires { length head.now ≡ 512 }
    ensures { result ≡ sees_vmdk head.now }
{
    stands(head, 0, b"KDMV") || stands(head, 0, b"COWD") || is_descriptor(head)
}

/// Whether a mark of Parallels stands there, with version 2.
fn is_parallels(head: &[u8]) -> bool
    requires { length head.now ≡ 512 }
    ensures { result ≡ sees_parallels head.now }
{
    (stands(head, 0, b"WithoutFreeSpace") || stands(head, 0, b"WithouFreSpacExt"))
        && stands(head, 16, b"\x02\0\0\0")
}

/// Whether the mark of LUKS stands there, with version 1.
fn is_luks(head: &[u8]) -> bool
    requires { length head.now ≡ 512 }
    ensures { result ≡ sees_luks head.now }
{
    stands(head, 0, b"LUKS\xba\xbe") && stands(head, 6, b"\0\x01")
}

/// Whether the marks of Bochs stand there, with one of its versions.
fn is_bochs(head: &[u8]) -> bool
    requires { length head.now ≡ 512 }
    ensures { result ≡ sees_bochs head.now }
{
    stands(head, 0, b"Bochs Virtual HD Image\0")
        && stands(head, 32, b"Redolog\0")
        && stands(head, 48, b"Growing\0")
        && (stands(head, 64, b"\0\0\x02\0") || stands(head, 64, b"\0\0\x01\0"))
}

/// Whether a file's name is that of a DMG image.
fn is_dmg_name(name: &str) -> bool
    ensures { result ≡ has_dmg_name name.now }
{
    name.len() > 4 && name.as_bytes().ends_with(b".dmg")
}
