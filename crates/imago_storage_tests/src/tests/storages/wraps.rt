// SPDX-License-Identifier: MIT
//! Requests that wrap around at the greatest offset, and the greatest lengths.
use super::script::{Call, Script, Step, check_all};
use super::subject::Kind;
use imago_storage::error::Error;
use imago_storage::storage::PreallocateMode;

const MAX: u64 = u64::MAX;

static WRAPS: [Script; 2] = [
    Script {
        kind: Kind::Memory,
        aligns: (4096, 4096, 4096),
        given: &[(3, 0xa5)],
        steps: &[
            // the end itself passes the greatest offset
            Step::Refused(
                Call::Read(MAX - 10, &[(100, 0)]),
                Error::WrapAround,
                &[(3, 0xa5)],
            ),
            Step::Refused(
                Call::Write(MAX - 10, &[(100, 0x5a)]),
                Error::WrapAround,
                &[(3, 0xa5)],
            ),
            // the end is below it, and passes it once it is padded
            Step::Refused(
                Call::Read(MAX - 100, &[(50, 0)]),
                Error::WrapAround,
                &[(3, 0xa5)],
            ),
            Step::Refused(
                Call::Write(MAX - 100, &[(50, 0x5a)]),
                Error::WrapAround,
                &[(3, 0xa5)],
            ),
            Step::Refused(Call::Discard(MAX - 10, 5), Error::WrapAround, &[(3, 0xa5)]),
            Step::Refused(Call::Zero(MAX - 10, 5), Error::WrapAround, &[(3, 0xa5)]),
            Step::Refused(
                Call::ZeroAllocated(MAX - 10, 5),
                Error::WrapAround,
                &[(3, 0xa5)],
            ),
            // an empty discard is tested as well, an empty zero write isn't
            Step::Refused(Call::Discard(MAX - 10, 0), Error::WrapAround, &[(3, 0xa5)]),
            Step::Done(Call::Zero(MAX - 10, 0), &[(3, 0xa5)]),
        ],
    },
    Script {
        kind: Kind::Memory,
        aligns: (1, 1, 1),
        given: &[(3, 0xa5)],
        steps: &[
            Step::Refused(
                Call::Read(MAX - 4095, &[(8192, 0)]),
                Error::WrapAround,
                &[(3, 0xa5)],
            ),
            Step::Refused(
                Call::Write(MAX - 4095, &[(8192, 0x5a)]),
                Error::WrapAround,
                &[(3, 0xa5)],
            ),
        ],
    },
];

#[test]
fn a_request_wraps_around(rt: HostRuntime) {
    check_all(&rt, rt.alloc(), &WRAPS);
}

static LONGEST: [Script; 2] = [
    Script {
        kind: Kind::Zeroes(MAX),
        aligns: (1, 1, 1),
        given: &[],
        steps: &[
            Step::AtOnce(Call::Read(MAX - 1, &[(1, 0)]), &[(usize::MAX, 0)]),
            Step::AtOnce(Call::Write(MAX - 1, &[(1, 1)]), &[(usize::MAX, 0)]),
            Step::Refused(
                Call::Write(MAX, &[(1, 1)]),
                Error::WrapAround,
                &[(usize::MAX, 0)],
            ),
            Step::AtOnce(Call::Zero(0, MAX), &[(usize::MAX, 0)]),
        ],
    },
    // a growth that no memory can hold changes nothing
    Script {
        kind: Kind::Memory,
        aligns: (1, 1, 1),
        given: &[(4, 0xff)],
        steps: &[
            Step::Refused(
                Call::Resize(MAX, PreallocateMode::Zero),
                Error::Memory,
                &[(4, 0xff)],
            ),
            Step::Refused(Call::Write(MAX - 2, &[(1, 1)]), Error::Memory, &[(4, 0xff)]),
            Step::Refused(Call::Zero(2, MAX - 2), Error::Memory, &[(4, 0xff)]),
            Step::Done(Call::Resize(5, PreallocateMode::Zero), &[(4, 0xff), (1, 0)]),
        ],
    },
];

#[test]
fn the_greatest_lengths(rt: HostRuntime) {
    check_all(&rt, rt.alloc(), &LONGEST);
}
