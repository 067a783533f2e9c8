// SPDX-License-Identifier: MIT
//! What a qcow2 image's name of the file below it stands for.
ghost use Rattle.std.specs.Prelude.{◌≡◌, option_map};
ghost use Rattle.imago_images.specs.BackingNames.{names_protocol as name_names_protocol};
ghost use Rattle.imago_images.specs.BackingNames.{file_named as file_named_by};

/// What the name of a file may begin with.
const FILE: &str = "file:";

/// Whether a name begins with a protocol: it has a colon before its first slash.
fn names_protocol(name: &str) -> bool
    ensures { result ≡ name_names_protocol name.now }
{
    for byte in name.as_bytes() {
        if *byte == b'/' {
            return false;
        }
        if *byte == b':' {
            return true;
        }
    }
    false
}

/// The name of the file that a backing name stands for: what is behind `file:`, or else the name
/// itself, unless it begins with a protocol, as `nbd:` and `json:` are. This is what `qemu-img`
/// takes for a protocol; none is offered here.
pub(crate) fn file_named(name: &str) -> Option<&str>
    ensures { option_map (λ file. file.now) result ≡ file_named_by name.now }
{
    if let Some(file) = name.strip_prefix(FILE) {
        return Some(file);
    }
    if names_protocol(name) {
        return None;
    }
    Some(name)
}
