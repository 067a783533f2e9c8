// SPDX-License-Identifier: MIT
//! Words of 8 bytes each, the highest first, put into a target.
ghost use Rattle.std.specs.Prelude.{◌≡◌, ℕ, ◌+◌, ◌*◌, ◌^◌, ◌<◌, ◌≤◌, length, slice_index, OnOk};
ghost use Rattle.imago_copy.specs.Appended.{IsAppended};
ghost use Rattle.imago_qcow2_new.specs.Words.{byte_of, words_from};

use imago_copy::target::Target;
use std::io::{self, ErrorKind};

/// Words by their index.
pub(crate) trait Words {
    /// The word of an index.
    ghost word: { Self → ℕ → ℕ };
    /// How many there are.
    ghost count: { Self → ℕ };

    /// The word of that index.
    fn word(&self, index: u64) -> u64
        requires { index < count self.now }
        ensures { result ≡ word self.now index };
}

/// Fills the buffer with so many words, from that one on.
fn fill<W: Words>(words: &W, from: u64, count: usize, buf: &mut [u8])
    requires there { from + count ≤ W.count words.now }
    requires small { from + count < 2 ^ 64 }
    requires room { length buf.old ≡ 8 * count }
    ensures { (k : ℕ) → k < length buf.new
        → slice_index buf.new k ≡ byte_of (W.word words.now) (8 * from + k) }
{
    for i in 0..count {
        let bytes = words.word(from + i as u64).to_be_bytes();
        buf[8 * i..8 * i + 8].copy_from_slice(&bytes);
    }
}

/// Puts so many words in, from that one on, by way of the buffer.
///
/// Refused as [`ErrorKind::InvalidInput`] is a buffer without room for a word.
pub(crate) fn put_words<W: Words, T: Target>(
    words: &W,
    target: &mut T,
    from: u64,
    count: u64,
    buf: &mut [u8],
) -> io::Result<()>
    requires there { from + count ≤ W.count words.now }
    requires small { from + count < 2 ^ 64 }
    ensures same { T.made_for target.new ≡ T.made_for target.old }
    ensures put { OnOk result (IsAppended (T.contents target.old) (T.contents target.new)
        (words_from (W.word words.now) from count)) }
{
    let room = (buf.len() / 8) as u64;
    if room == 0 {
        return Err(io::Error::from(ErrorKind::InvalidInput));
    }
    let mut done: u64 = 0;
    while done < count {
        let next = room.min(count - done);
        let chunk = &mut buf[..8 * next as usize];
        fill(words, from + done, next as usize, chunk);
        target.append(chunk)?;
        done += next;
    }
    Ok(())
}
