// SPDX-License-Identifier: MIT
//! The header of a new file, as words of 8 bytes.
ghost use Rattle.std.specs.Prelude.{◌≡◌, ◌^◌, ◌<◌, length};
ghost use Rattle.imago_storage.specs.Bytes.{IsReadAt};
ghost use Rattle.imago_qcow2.specs.Numbers.{be64};

use crate::format::Version;
use crate::names::Names;
use imago_qcow2::number::number64;

/// What a file begins with, 'QFI' and 251, in the upper half of a word.
const MAGIC: u64 = 0x5146_49fb_0000_0000;

/// Reference counts have 16 bits, and the header of version 3 has 112 bytes.
const COUNT_WIDTH_AND_LENGTH: u64 = 0x0000_0004_0000_0070;

/// The header of a file, with the names of the layer below.
#[derive(Drop)]
pub(crate) struct NewHeader {
    pub(crate) version: Version,
    pub(crate) cluster_bits: u32,
    /// The disk's size in bytes.
    pub(crate) size: u64,
    /// How many entries the L1 table has.
    pub(crate) l1_count: u32,
    /// Where it begins in the file, in bytes.
    pub(crate) l1_start: u64,
    /// Where the table of reference count blocks begins in the file, in bytes.
    pub(crate) counts_start: u64,
    /// How many clusters it has.
    pub(crate) counts_clusters: u32,
    pub(crate) names: Names,
}

/// Fills the buffer with the bytes from the offset on, with 0 past their end.
#[tactic(auto, using(std::proofs::lemmas::List::places))]
fn copy_out(bytes: &[u8], buf: &mut [u8], offset: u64)
    ensures { IsReadAt bytes.now offset buf.new }
{
    if offset >= bytes.len() as u64 {
        buf.fill(0);
        return;
    }
    let start = offset as usize;
    let count = buf.len().min(bytes.len() - start);
    buf[..count].copy_from_slice(&bytes[start..start + count]);
    buf[count..].fill(0);
}

/// The 8 bytes from that offset on as a word, with 0 past their end.
fn padded_word(bytes: &[u8], at: u64) -> u64
    ensures { result ≡ be64 bytes.now «at» }
{
    let mut word = [0u8; 8];
    copy_out(bytes, &mut word, at);
    number64(&word, 0)
}

impl NewHeader {
    ghost use Rattle.std.specs.Prelude.{◌*◌};
    ghost use Rattle.imago_qcow2_new.specs.Header.{name_start, field_word, header_word};

    /// Where the backing file's name begins in the file, in bytes, or 0 where there is none.
    fn name_start(&self) -> u64
        requires { self.now.names.start < 2 ^ 32 }
        ensures { result ≡ name_start self.now }
    {
        if self.names.count == 0 {
            return 0;
        }
        8 * self.version.words() + self.names.start
    }

    /// The word of that index in the header proper.
    #[tactic(auto, unfolding(crate::specs::Header::field_word))]
    fn field_word(&self, index: u64) -> u64
        requires { self.now.names.start < 2 ^ 32 }
        ensures { result ≡ field_word self.now «index» }
    {
        match index {
            0 => MAGIC + self.version.number(),
            1 => self.name_start(),
            2 => ((self.names.count as u64) << 32) + self.cluster_bits as u64,
            3 => self.size,
            4 => self.l1_count as u64,
            5 => self.l1_start,
            6 => self.counts_start,
            7 => (self.counts_clusters as u64) << 32,
            12 => COUNT_WIDTH_AND_LENGTH,
            _ => 0,
        }
    }

    /// The word of that index in the header's cluster.
    pub(crate) fn word(&self, index: u64) -> u64
        requires small { index < 2 ^ 32 }
        requires start { self.now.names.start < 2 ^ 32 }
        ensures { result ≡ header_word self.now «index» }
    {
        let words = self.version.words();
        if index < words {
            return self.field_word(index);
        }
        padded_word(&self.names.bytes, 8 * (index - words))
    }
}
