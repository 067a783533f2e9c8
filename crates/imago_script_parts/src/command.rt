// SPDX-License-Identifier: MIT
//! What a line of a script says.
ghost use Rattle.std.specs.Prelude.{◌≤◌, ◌^◌, ◌↔◌, IsSome};

use crate::words::{
    Alignment, BlockSize, Fault, byte, bytes, cut_at, mode, number, overwriting, word, words_of,
    writability,
};
use imago::run::Call;
use std::alloc::Global;

/// The longest read, in bytes.
const LONGEST_READ: u64 = 1 << 24;

/// A command.
pub enum Command<'a> {
    /// Adds a storage of equal bytes in memory.
    Mem {
        /// Its name.
        name: &'a str,
        /// Its length in bytes.
        length: u64,
        /// What each byte is.
        byte: u8,
        /// What the length of a request at it is a multiple of.
        mem_align: Alignment,
        /// What the offset and the length of a request at it are multiples of.
        req_align: Alignment,
    },
    /// Adds a storage of these bytes in memory.
    Hex {
        /// Its name.
        name: &'a str,
        /// Its bytes.
        bytes: Vec<u8>,
    },
    /// Adds a null storage.
    Null {
        /// Its name.
        name: &'a str,
        /// Its length in bytes.
        size: u64,
    },
    /// Asks whether a storage has a VMDK descriptor.
    Probe {
        /// The storage's name.
        name: &'a str,
    },
    /// Opens a storage as a raw image.
    OpenRaw {
        /// The storage's name.
        name: &'a str,
        /// Whether the image can be written to.
        writable: bool,
    },
    /// Opens a storage with a descriptor, and the storages that it names, as a VMDK image.
    OpenVmdk {
        /// The storage's name.
        name: &'a str,
        /// Whether keys of the descriptor that aren't known are accepted.
        lax: bool,
    },
    /// Lays a copy-on-write disk over the open image.
    OpenCow {
        /// The name of the storage that the disk's data are to stand in.
        name: &'a str,
        /// How long its blocks are.
        block: BlockSize,
    },
    /// Prints what the open image is.
    Show,
    /// A call on the open image.
    Call(Call),
}

/// The command that a line is.
///
/// The bytes of a command that has some are what is left of its line, so that they are looked at
/// only to read them.
pub fn command_of(alloc: Global, line: &[u8]) -> Result<Command<'_>, Fault> {
    let (first, rest) = cut_at(b' ', line);
    let (second, digits) = cut_at(b' ', rest);
    match first {
        b"hex" => {
            let name = word(second).ok_or(Fault::Malformed)?;
            let bytes = bytes(alloc, digits)?;
            Ok(Command::Hex { name, bytes })
        }
        b"write" => {
            let offset = offset(second).ok_or(Fault::Malformed)?;
            let bytes = bytes(alloc, digits)?;
            Ok(Command::Call(Call::Write { offset, bytes }))
        }
        _ => short_command(line).ok_or(Fault::Malformed),
    }
}

/// The offset that a word spells.
fn offset(bytes: &[u8]) -> Option<u64> {
    number(word(bytes)?)
}

/// The command that a line is, of those that have no bytes.
fn short_command(line: &[u8]) -> Option<Command<'_>> {
    let (words, count) = words_of(line)?;
    let (first, rest) = words.get(..count)?.split_first()?;
    match *first {
        "mem" => mem_of(rest),
        "null" => null_of(rest),
        "probe" => probe_of(rest),
        "open" => opening_of(rest),
        "show" if rest.is_empty() => Some(Command::Show),
        name => Some(Command::Call(call_of(name, rest)?)),
    }
}

/// The storage of equal bytes that words describe.
fn mem_of<'a>(words: &[&'a str]) -> Option<Command<'a>> {
    let &[name, length, fill, mem_align, req_align] = words else {
        return None;
    };
    Some(Command::Mem {
        name,
        length: number(length)?,
        byte: byte(fill)?,
        mem_align: Alignment::of(mem_align)?,
        req_align: Alignment::of(req_align)?,
    })
}

/// The null storage that words describe.
fn null_of<'a>(words: &[&'a str]) -> Option<Command<'a>> {
    let &[name, size] = words else {
        return None;
    };
    let size = number(size)?;
    Some(Command::Null { name, size })
}

/// The probe of the storage that a word names.
fn probe_of<'a>(words: &[&'a str]) -> Option<Command<'a>> {
    let &[name] = words else {
        return None;
    };
    Some(Command::Probe { name })
}

/// The opening that words describe: a format, a storage's name, and at most one word more.
fn opening_of<'a>(words: &[&'a str]) -> Option<Command<'a>> {
    match words {
        &[format, name] if format == "vmdk" => Some(Command::OpenVmdk { name, lax: false }),
        &[format, name, option] => opening_with(format, name, option),
        _ => None,
    }
}

/// The opening of a storage in a format, with an option.
fn opening_with<'a>(format: &str, name: &'a str, option: &str) -> Option<Command<'a>> {
    match format {
        "raw" => {
            let writable = writability(option)?;
            Some(Command::OpenRaw { name, writable })
        }
        "vmdk" if option == "lax" => Some(Command::OpenVmdk { name, lax: true }),
        "cow" => {
            let block = BlockSize::of(option)?;
            Some(Command::OpenCow { name, block })
        }
        _ => None,
    }
}

/// The call of that name on what words spell, of those that have no bytes.
fn call_of(name: &str, words: &[&str]) -> Option<Call> {
    match words {
        &[] => plain_call_of(name),
        &[size] if name == "shrink" => Some(Call::ResizeShrink {
            size: number(size)?,
        }),
        &[first, second] => call_of_two(name, first, second),
        &[first, second, third] => call_of_three(name, first, second, third),
        _ => None,
    }
}

/// The call of that name that has no arguments.
fn plain_call_of(name: &str) -> Option<Call> {
    match name {
        "size" => Some(Call::Size),
        "flush" => Some(Call::Flush),
        "sync" => Some(Call::Sync),
        _ => None,
    }
}

/// The call of that name that has two arguments.
fn call_of_two(name: &str, first: &str, second: &str) -> Option<Call> {
    let start = number(first)?;
    match name {
        "read" => read_of(start, number(second)?),
        "zero" => Some(Call::WriteZeroes {
            offset: start,
            length: number(second)?,
        }),
        "map" => Some(Call::GetMapping {
            offset: start,
            max_length: number(second)?,
        }),
        "resize" => Some(Call::Resize {
            size: start,
            mode: mode(second)?,
        }),
        "grow" => Some(Call::ResizeGrow {
            size: start,
            mode: mode(second)?,
        }),
        _ => None,
    }
}

/// The call of that name that has three arguments.
fn call_of_three(name: &str, first: &str, second: &str, third: &str) -> Option<Call> {
    match name {
        "discard" => discard_of(first, number(second)?, number(third)?),
        "data" => Some(Call::EnsureData {
            offset: number(first)?,
            length: number(second)?,
            overwrite: overwriting(third)?,
        }),
        _ => None,
    }
}

/// The discard of that name.
fn discard_of(to: &str, offset: u64, length: u64) -> Option<Call> {
    match to {
        "zero" => Some(Call::DiscardToZero { offset, length }),
        "any" => Some(Call::DiscardToAny { offset, length }),
        "backing" => Some(Call::DiscardToBacking { offset, length }),
        _ => None,
    }
}

/// A read that isn't too long.
fn read_of(offset: u64, count: u64) -> Option<Call>
    ensures { IsSome result ↔ (count ≤ 2 ^ 24) }
{
    if count > LONGEST_READ {
        return None;
    }
    Some(Call::Read {
        offset,
        length: count,
    })
}
