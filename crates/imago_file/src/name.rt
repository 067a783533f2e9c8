// SPDX-License-Identifier: MIT
//! Names of files that images give.
ghost use Rattle.std.specs.Prelude.{◌≡◌, IfOk};
ghost use Rattle.std.specs.String.{string_bytes};
ghost use Rattle.imago_file.specs.Names.{leads_out as part_leads_out};
ghost use Rattle.imago_file.specs.Names.{stays_below as name_stays_below};
ghost use Rattle.imago_file.specs.Names.{lies_below as path_lies_below};
ghost use Rattle.imago_file.specs.Names.{path_beside as path_beside_file};

use std::alloc::{AllocError, Global};
use std::path::Path;

/// Whether a part of a path leads out of the folder that it is taken in.
fn leads_out(part: &str) -> bool
    ensures { result ≡ part_leads_out part.now }
{
    part == ".." || part == "/"
}

/// Whether a name leads to a file in the folder that it is taken in, or below: by its text, it
/// doesn't begin at the root, and no part of it is `..`.
pub fn stays_below(name: &str) -> bool
    ensures { result ≡ name_stays_below name.now }
{
    for component in Path::new(name).components() {
        if leads_out(component.as_os_str()) {
            return false;
        }
    }
    true
}

/// Whether a path leads to a file in that folder, or below: by its text, it begins with the
/// folder's, and no part behind that is `..`. In the empty folder it is what [`stays_below`] says.
pub fn lies_below(folder: &str, path: &str) -> bool
    ensures { result ≡ path_lies_below folder.now path.now }
{
    match Path::new(path).strip_prefix(folder) {
        Ok(rest) => stays_below(rest.as_os_str()),
        Err(_) => false,
    }
}

/// The path that a name stands for in the folder of that file. A name that begins at the root
/// stands for itself.
pub fn path_beside(alloc: Global, file: &str, name: &str) -> Result<String, AllocError>
    ensures { IfOk result (λ path. string_bytes path ≡ path_beside_file file.now name.now) }
{
    let folder = Path::new(file).parent().unwrap_or(Path::new(""));
    let path = folder.join(alloc, name)?;
    Ok(path.into_string())
}
