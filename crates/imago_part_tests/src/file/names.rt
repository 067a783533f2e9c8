// SPDX-License-Identifier: MIT
//! Which names lead out of a folder, and which stand beside a file.
use imago_file::name::{lies_below, path_beside, stays_below};
use std::alloc::Global;
use std::process::Abort;

static STAY: [(&str, bool); 8] = [
    ("disk.raw", true),
    ("parts/disk.raw", true),
    ("./disk.raw", true),
    ("..", false),
    ("../disk.raw", false),
    ("parts/../../disk.raw", false),
    ("/images/disk.raw", false),
    ("parts/..disk", true),
];

/// A folder, a path, and whether that lies below it.
static BELOW: [(&str, &str, bool); 11] = [
    ("", "disk.raw", true),
    ("", "/etc/passwd", false),
    ("", "../disk.raw", false),
    ("images", "images/disk.raw", true),
    ("images", "images/parts/disk.raw", true),
    ("images", "images-too/disk.raw", false),
    ("images", "images/../disk.raw", false),
    ("images", "disk.raw", false),
    ("/images", "/images/disk.raw", true),
    ("/images", "images/disk.raw", false),
    ("../images", "../images/disk.raw", true),
];

/// A file, a name that it has, and the path that this stands for.
static BESIDE: [(&str, &str, &str); 4] = [
    ("disk.vmdk", "part.raw", "part.raw"),
    ("images/disk.vmdk", "part.raw", "images/part.raw"),
    ("images/disk.vmdk", "/part.raw", "/part.raw"),
    ("/disk.vmdk", "../part.raw", "/../part.raw"),
];

fn check_names(rt: &impl Abort) {
    for (name, stays) in &STAY {
        assert!(rt; stays_below(name) == *stays, "{name}");
    }
    for (folder, path, below) in &BELOW {
        assert!(rt; lies_below(folder, path) == *below, "{path} below {folder}");
    }
}

fn check_paths(rt: &impl Abort, alloc: Global) {
    for (file, name, path) in &BESIDE {
        let beside = match path_beside(alloc, file, name) {
            Ok(beside) => beside,
            Err(_) => path_beside(alloc, file, name).expect(rt, "memory for a path"),
        };
        assert!(rt; beside.as_str() == *path, "{name} beside {file}");
    }
}

#[test]
fn names_stay_below_or_lead_out(rt: HostRuntime) {
    check_names(&rt);
}

#[test]
fn names_stand_beside_files(rt: HostRuntime) {
    check_paths(&rt, rt.alloc());
}
