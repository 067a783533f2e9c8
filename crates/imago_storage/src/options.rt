// SPDX-License-Identifier: MIT
//! What storages are asked for: options to open or create one with, and how bytes are allocated or
//! zeroed.
ghost use Rattle.std.specs.Prelude.{◌≡◌, Option, Some, IfSome, option_map};
ghost use Rattle.std.specs.Option.{option_copied};
ghost use Rattle.std.specs.String.{string_bytes};
ghost use Rattle.imago_storage.specs.Options.{OpenOptions, CreateOptions, open_options};
ghost use Rattle.imago_storage.specs.Options.{opening_options, create_options, no_open_options};
ghost use Rattle.imago_storage.specs.Options.{no_create_options};

/// How new bytes of a storage that grows are allocated, and what they read as.
#[derive(Clone, Copy, Debug, PartialEq, Eq)]
pub enum PreallocateMode {
    /// New bytes are unspecified.
    None,
    /// New bytes read as zeroes.
    Zero,
    /// New bytes are allocated, and read as zeroes.
    Allocate,
    /// Zeroes are written as data.
    WriteData,
}

/// What a zero write asks for beside zeroes.
#[derive(Clone, Copy, Debug, PartialEq, Eq)]
pub enum ZeroKind {
    /// Nothing: the range may be left unallocated.
    Any,
    /// The range is to be allocated afterwards.
    Allocated,
}

/// Parameters from which a storage can be opened.
#[derive(Drop)]
pub struct StorageOpenOptions {
    pub(crate) filename: Option<String>,
    pub(crate) writable: bool,
    pub(crate) direct: bool,
}

/// Parameters from which a storage can be created. The file name is one of the options to open it
/// with.
#[derive(Drop)]
pub struct StorageCreateOptions {
    pub(crate) open_opts: StorageOpenOptions,
    pub(crate) size: u64,
    pub(crate) prealloc_mode: PreallocateMode,
    pub(crate) overwrite: bool,
}

impl StorageOpenOptions {
    /// No file name, read-only, through the host's cache.
    pub fn new() -> Self
        ensures { open_options result ≡ no_open_options }
    {
        StorageOpenOptions {
            filename: None,
            writable: false,
            direct: false,
        }
    }

    /// Sets the name of the file to open.
    pub fn filename(mut self, filename: String) -> Self
        ensures { open_options result
            ≡ record (open_options self) { filename = Some (string_bytes filename) } }
    {
        self.filename = Some(filename);
        self
    }

    /// Sets whether the storage is to be writable.
    pub fn write(mut self, write: bool) -> Self
        ensures { open_options result ≡ record (open_options self) { writable = write } }
    {
        self.writable = write;
        self
    }

    /// Sets whether to bypass the host's cache, if applicable.
    pub fn direct(mut self, direct: bool) -> Self
        ensures { open_options result ≡ record (open_options self) { direct = direct } }
    {
        self.direct = direct;
        self
    }

    /// The set file name, if any.
    pub fn get_filename(&self) -> Option<&str>
        ensures { option_copied result ≡ (open_options self.now).filename }
    {
        match &self.filename {
            Some(name) => Some(name.as_str()),
            None => None,
        }
    }

    /// Whether the storage is to be writable.
    pub fn get_writable(&self) -> bool
        ensures { result ≡ (open_options self.now).writable }
    {
        self.writable
    }

    /// Whether the host's cache is to be bypassed.
    pub fn get_direct(&self) -> bool
        ensures { result ≡ (open_options self.now).direct }
    {
        self.direct
    }
}

impl StorageCreateOptions {
    /// No file name, size 0, no preallocation, nothing is overwritten.
    pub fn new() -> Self
        ensures { create_options result ≡ no_create_options }
    {
        StorageCreateOptions {
            open_opts: StorageOpenOptions::new(),
            size: 0,
            prealloc_mode: PreallocateMode::None,
            overwrite: false,
        }
    }

    /// Sets the name of the file to create.
    pub fn filename(self, filename: String) -> Self
        ensures { create_options result ≡ record (create_options self) {
          to_open = record
              (create_options self).to_open { filename = Some (string_bytes filename) };
        } }
    {
        self.modify_open_opts(|opts| opts.filename(filename))
    }

    /// Sets the initial size, in bytes.
    pub fn size(mut self, size: u64) -> Self
        ensures { create_options result ≡ record (create_options self) { size = size } }
    {
        self.size = size;
        self
    }

    /// Sets how the initial bytes are allocated.
    pub fn preallocate(mut self, prealloc_mode: PreallocateMode) -> Self
        ensures { create_options result ≡ record (create_options self) { mode = prealloc_mode } }
    {
        self.prealloc_mode = prealloc_mode;
        self
    }

    /// Sets whether a file that exists may be overwritten.
    pub fn overwrite(mut self, overwrite: bool) -> Self
        ensures { create_options result ≡ record (create_options self) { overwrite = overwrite } }
    {
        self.overwrite = overwrite;
        self
    }

    /// Changes the options that the created storage is opened with.
    pub fn modify_open_opts<F: FnOnce(StorageOpenOptions) -> StorageOpenOptions>(self, f: F) -> Self
        requires { F.pre f (opening_options self) }
        ensures modified { F.post f (opening_options self) (opening_options result) }
        ensures size { (create_options result).size ≡ (create_options self).size }
        ensures mode { (create_options result).mode ≡ (create_options self).mode }
        ensures overwrite { (create_options result).overwrite ≡ (create_options self).overwrite }
    {
        let StorageCreateOptions {
            open_opts,
            size,
            prealloc_mode,
            overwrite,
        } = self;
        StorageCreateOptions {
            open_opts: f(open_opts),
            size,
            prealloc_mode,
            overwrite,
        }
    }

    /// The set file name, if any.
    pub fn get_filename(&self) -> Option<&str>
        ensures { option_copied result ≡ (create_options self.now).to_open.filename }
    {
        self.open_opts.get_filename()
    }

    /// The initial size, in bytes.
    pub fn get_size(&self) -> u64
        ensures { result ≡ (create_options self.now).size }
    {
        self.size
    }

    /// How the initial bytes are allocated.
    pub fn get_preallocate(&self) -> PreallocateMode
        ensures { result ≡ (create_options self.now).mode }
    {
        self.prealloc_mode
    }

    /// Whether a file that exists may be overwritten.
    pub fn get_overwrite(&self) -> bool
        ensures { result ≡ (create_options self.now).overwrite }
    {
        self.overwrite
    }

    /// The options that the created storage is opened with.
    pub fn get_open_options(self) -> StorageOpenOptions
        ensures { open_options result ≡ (create_options self).to_open }
    {
        let StorageCreateOptions {
            open_opts: for_opening,
            size: _,
            prealloc_mode: _,
            overwrite: _,
        } = self;
        for_opening
    }
}

impl Default for StorageOpenOptions {
    fn default() -> Self
        ensures { open_options result ≡ no_open_options }
    {
        StorageOpenOptions::new()
    }
}

impl Default for StorageCreateOptions {
    fn default() -> Self
        ensures { create_options result ≡ no_create_options }
    {
        StorageCreateOptions::new()
    }
}
