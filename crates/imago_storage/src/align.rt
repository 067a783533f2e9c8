// SPDX-License-Identifier: MIT
//! The alignments of a storage, and the aligned ranges around and inside a range.
ghost use Rattle.std.specs.Prelude.{◌≡◌, ℕ, ◌+◌, ◌-◌, ◌*◌, ◌/◌, ◌%◌, ◌^◌, ◌<◌, ◌≤◌, MatchOption};
ghost use Rattle.std.specs.Int.{next_multiple_of, IsPowerOfTwo};
ghost use Rattle.std.specs.Option.{SomeIff};
ghost use Rattle.imago_storage.specs.Features.{AreLawful, len_align};
ghost use Rattle.imago_storage.specs.Padding.{Wraps, IsPaddedRequest, RangeWraps, IsAlignedPart};
ghost use Rattle.imago_storage.specs.Steps.{head_of};
ghost use Rattle.imago_storage.specs.Zeroes.{IsHead};

use crate::storage::Storage;

/// What a request's offset has to be a multiple of.
pub(crate) fn request_align<S: Storage>(storage: &S) -> u64
    ensures value { result ≡ (S.features storage.now).req_align }
    ensures power { IsPowerOfTwo result }
    ensures positive { 0 < result }
    ensures within { result ≤ len_align (S.features storage.now) }
{
    storage.req_align() as u64
}

/// What a request's length has to be a multiple of.
pub(crate) fn length_align<S: Storage>(storage: &S) -> u64
    ensures value { result ≡ len_align (S.features storage.now) }
    ensures power { IsPowerOfTwo result }
    ensures positive { 0 < result }
    ensures lawful { AreLawful (S.features storage.now) }
{
    storage.req_align().max(storage.mem_align()) as u64
}

/// What a zero write's offset and length have to be multiples of.
pub fn zero_align<S: Storage>(storage: &S) -> u64
    ensures value { result ≡ (S.features storage.now).zero_align }
    ensures power { IsPowerOfTwo result }
    ensures positive { 0 < result }
    ensures lawful { AreLawful (S.features storage.now) }
{
    storage.zero_align() as u64
}

/// What a discard's offset and length have to be multiples of.
pub fn discard_align<S: Storage>(storage: &S) -> u64
    ensures value { result ≡ (S.features storage.now).discard_align }
    ensures power { IsPowerOfTwo result }
    ensures positive { 0 < result }
    ensures lawful { AreLawful (S.features storage.now) }
{
    storage.discard_align() as u64
}

/// What a number is more than the last multiple of an alignment: its low digits. Alignments are
/// powers of two, so no division is needed.
pub(crate) fn remainder(number: u64, align: u64) -> u64
    requires { IsPowerOfTwo align }
    ensures value { result ≡ number % align }
    ensures below { result < align }
{
    number & (align - 1)
}

/// The first multiple of an alignment from a number on. `None` where it passes `u64::MAX`.
fn rounded_up(number: u64, align: u64) -> Option<u64>
    requires { IsPowerOfTwo align }
    ensures { SomeIff result (next_multiple_of number align < 2 ^ 64)
        (next_multiple_of number align) }
{
    number.checked_add(remainder(align - remainder(number, align), align))
}

/// The start and length of the range from the offset rounded down, of a multiple that covers the
/// request. `None` where its end passes `u64::MAX`.
fn padded_range(request: u64, multiple: u64, offset: u64, count: u64) -> Option<(u64, u64)>
    requires request { IsPowerOfTwo request }
    requires multiple { IsPowerOfTwo multiple }
    ensures { SomeIff result
        (offset - offset % request + next_multiple_of (offset % request + count) multiple < 2 ^ 64)
        (offset - offset % request, next_multiple_of (offset % request + count) multiple) }
{
    let head = remainder(offset, request);
    let start = offset - head;
    let len = rounded_up(head.checked_add(count)?, multiple)?;
    start.checked_add(len)?;
    Some((start, len))
}

/// The start and length of the aligned request that covers this one. `None` where it wraps around.
#[tactic(auto, using(crate::proofs::Padding::padded_request_of))]
pub(crate) fn padded_request<S: Storage>(storage: &S, offset: u64, count: u64) -> Option<(u64, u64)>
    requires { 0 < count }
    ensures { MatchOption result (Wraps (S.features storage.now) offset count)
        (λ p. IsPaddedRequest (S.features storage.now) offset count p.0 p.1) }
{
    let request = request_align(storage);
    let multiple = length_align(storage);
    padded_range(request, multiple, offset, count)
}

/// The start and end of the aligned part of a range, which is empty where it ends by its start.
/// `None` where the range's end, or its start rounded up, passes `u64::MAX`. An alignment is a
/// power of two, so no division is needed.
pub fn aligned_blocks(align: u64, offset: u64, count: u64) -> Option<(u64, u64)>
    requires { IsPowerOfTwo align }
    ensures { MatchOption result (RangeWraps align offset count)
        (λ p. IsAlignedPart align offset count p.0 p.1) }
{
    let range_end = offset.checked_add(count)?;
    let start = rounded_up(offset, align)?;
    Some((start, range_end - remainder(range_end, align)))
}

/// How many bytes of a range stand before its first multiple of the request alignment. 0 where it
/// starts on one.
pub(crate) fn head_length<S: Storage>(storage: &S, offset: u64, count: u64) -> u64
    requires { 0 < count }
    ensures none { result ≡ 0 → offset % (S.features storage.now).req_align ≡ 0 }
    ensures some { 0 < result → IsHead (S.features storage.now) offset count result }
    ensures within { result ≤ len_align (S.features storage.now) }
    ensures exact { result ≡ head_of (S.features storage.now) offset count }
{
    let request = request_align(storage);
    let past = remainder(offset, request);
    if past == 0 {
        return 0;
    }
    (request - past).min(count)
}

/// The length of the whole blocks at the front of `len` bytes.
pub(crate) fn whole_blocks(len: usize, block: usize) -> usize
    requires { IsPowerOfTwo block }
    ensures { result ≡ len / block * block }
{
    len - remainder(len as u64, block as u64) as usize
}
