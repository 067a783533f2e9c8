// SPDX-License-Identifier: MIT
//! Buffers of a caller.
ghost use Rattle.imago_c.specs.Answer.{IsFront};

/// Puts as many of these at the front of a buffer as fit. What is behind them stays.
pub(crate) fn put_front<T: Copy>(buffer: &mut [T], whole: &[T])
    ensures { IsFront buffer.old whole.now buffer.new }
{
    let count = whole.len().min(buffer.len());
    buffer[..count].copy_from_slice(&whole[..count]);
}
