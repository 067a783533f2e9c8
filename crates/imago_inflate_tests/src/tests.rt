// SPDX-License-Identifier: MIT
//! Streams, what comes out of each, and why some are refused.
//!
//! Sound ones were made by zlib 1.2.13, through Python's `zlib.compressobj`, and what comes out is
//! what went in. Faulty ones were put together bit by bit, or cut off. zlib refuses each of these,
//! for the reason that stands beside it; of one that is cut off it says that its end isn't there.
use imago_inflate::fault::InflateError;
use imago_inflate::inflate::inflate;
use imago_inflate::whole::{Ended, inflate_whole};
use imago_inflate::zlib::{UnzipError, unzip};
use std::process::Abort;

/// A block with the codes that are agreed on: `HELLO` at level 9.
const FIXED: [u8; 11] = [203, 72, 205, 201, 201, 87, 200, 64, 39, 185, 0];

const HELLO: &[u8] = b"hello hello hello hello\n";

/// A stored block: `b"stored"` at level 0.
const STORED: [u8; 11] = [1, 6, 0, 249, 255, 115, 116, 111, 114, 101, 100];

/// A block with codes of its own: `POWERS` at level 9.
const OWN: [u8; 110] = [
    29, 142, 193, 1, 3, 65, 8, 2, 91, 161, 4, 81, 68, 183, 255, 198, 226, 229, 43, 194, 12, 145,
    16, 22, 52, 42, 97, 129, 185, 200, 54, 154, 9, 70, 10, 25, 90, 40, 158, 177, 124, 119, 115,
    173, 238, 119, 188, 112, 119, 25, 44, 198, 36, 210, 73, 9, 157, 202, 189, 189, 107, 245, 248,
    218, 111, 216, 199, 224, 83, 197, 145, 106, 215, 241, 241, 102, 38, 63, 106, 117, 75, 31, 123,
    24, 151, 157, 65, 41, 121, 225, 121, 120, 85, 173, 207, 166, 188, 19, 239, 239, 52, 53, 226,
    126, 102, 212, 104, 203, 218, 31,
];

/// The first 32 powers of two.
const POWERS: &[u8] =
    b"1 2 4 8 16 32 64 128 256 512 1024 2048 4096 8192 16384 32768 65536 131072 262144 524288 1048576 2097152 4194304 8388608 16777216 33554432 67108864 134217728 268435456 536870912 1073741824 2147483648";

/// `b"one "`, a full flush, which is an empty stored block, and `b"two"`.
const FLUSHED: [u8; 15] = [202, 207, 75, 85, 0, 0, 0, 0, 255, 255, 43, 41, 207, 7, 0];

/// `HELLO` at level 9, in zlib's frame.
const FRAMED: [u8; 17] = [
    120, 218, 203, 72, 205, 201, 201, 87, 200, 64, 39, 185, 0, 112, 190, 8, 187,
];

/// A stream, how many bytes there is room for, and the bytes that come out or the fault.
#[derive(Drop)]
struct Row {
    stream: &'static [u8],
    room: usize,
    gives: Result<&'static [u8], InflateError>,
}

static FIRST_ROWS: [Row; 34] = [
    Row {
        stream: &FIXED,
        room: 24,
        gives: Ok(HELLO),
    },
    Row {
        stream: &FIXED,
        room: 7,
        gives: Ok(b"hello h"),
    },
    Row {
        stream: &FIXED,
        room: 0,
        gives: Ok(b""),
    },
    Row {
        stream: &STORED,
        room: 6,
        gives: Ok(b"stored"),
    },
    Row {
        stream: &STORED,
        room: 3,
        gives: Ok(b"sto"),
    },
    Row {
        stream: &OWN,
        room: 198,
        gives: Ok(POWERS),
    },
    Row {
        stream: &FLUSHED,
        room: 7,
        gives: Ok(b"one two"),
    },
    // A literal and a copy of three bytes from one byte before, and the end.
    Row {
        stream: &[75, 4, 2, 0],
        room: 4,
        gives: Ok(b"aaaa"),
    },
    // The same with the single code that there is for distances, of one bit.
    Row {
        stream: &[13, 192, 1, 1, 0, 0, 0, 128, 144, 173, 254, 159, 40, 22],
        room: 4,
        gives: Ok(b"aaaa"),
    },
    // 30 distances, the most that there may be.
    Row {
        stream: &[5, 221, 129, 0, 0, 0, 0, 0, 144, 86, 255, 19, 140, 16],
        room: 1,
        gives: Ok(b"a"),
    },
    // 286 literals and lengths, the most that there may be, and the end alone.
    Row {
        stream: &[237, 192, 1, 5, 0, 0, 0, 0, 160, 255, 175, 59, 18],
        room: 1,
        gives: Err(InflateError::TooShort),
    },
    Row {
        stream: &FIXED,
        room: 25,
        gives: Err(InflateError::TooShort),
    },
    Row {
        stream: &STORED,
        room: 7,
        gives: Err(InflateError::TooShort),
    },
    Row {
        stream: &[],
        room: 1,
        gives: Err(InflateError::EndsEarly),
    },
    Row {
        stream: &[203, 72, 205],
        room: 24,
        gives: Err(InflateError::EndsEarly),
    },
    Row {
        stream: &[1, 6, 0],
        room: 1,
        gives: Err(InflateError::EndsEarly),
    },
    Row {
        stream: &[1, 6, 0, 249, 255, 115, 116, 111, 114, 101],
        room: 6,
        gives: Err(InflateError::EndsEarly),
    },
    // "invalid block type"
    Row {
        stream: &[7],
        room: 1,
        gives: Err(InflateError::BlockKind),
    },
    // "invalid stored block lengths"
    Row {
        stream: &[1, 6, 0, 250, 255, 115],
        room: 1,
        gives: Err(InflateError::StoredLength),
    },
    Row {
        stream: &[1, 6, 0, 248, 255, 115],
        room: 1,
        gives: Err(InflateError::StoredLength),
    },
    // "too many length or distance symbols": 287, then 31
    Row {
        stream: &[245, 192, 1, 5, 0, 0, 0, 0, 160, 255, 175, 91, 18],
        room: 1,
        gives: Err(InflateError::CodeLengths),
    },
    Row {
        stream: &[5, 222, 129, 0, 0, 0, 0, 0, 144, 86, 255, 19, 148, 16],
        room: 1,
        gives: Err(InflateError::CodeLengths),
    },
    // "invalid code lengths set": one code of one bit, then three of them
    Row {
        stream: &[5, 0, 2, 0, 0, 0, 0, 0, 0],
        room: 1,
        gives: Err(InflateError::CodeLengths),
    },
    Row {
        stream: &[5, 0, 146, 0, 0, 0, 0, 0, 0],
        room: 1,
        gives: Err(InflateError::CodeLengths),
    },
    // "invalid bit length repeat": of none, then past the last one
    Row {
        stream: &[5, 0, 130, 0, 0, 0],
        room: 1,
        gives: Err(InflateError::CodeLengths),
    },
    Row {
        stream: &[5, 0, 132, 200, 223, 31, 0, 0],
        room: 1,
        gives: Err(InflateError::CodeLengths),
    },
    // "invalid code -- missing end-of-block"
    Row {
        stream: &[5, 192, 129, 0, 0, 0, 0, 0, 16, 254, 175, 1],
        room: 1,
        gives: Err(InflateError::CodeLengths),
    },
    // "invalid literal/lengths set": two codes of two bits
    Row {
        stream: &[5, 128, 1, 5, 0, 0, 0, 128, 182, 246, 255, 68, 0],
        room: 1,
        gives: Err(InflateError::CodeLengths),
    },
    // "invalid distances set": codes of one and of two bits, then three of one bit
    Row {
        stream: &[5, 193, 1, 1, 0, 0, 0, 128, 144, 173, 254, 159, 80],
        room: 1,
        gives: Err(InflateError::CodeLengths),
    },
    Row {
        stream: &[5, 194, 129, 0, 0, 0, 0, 0, 144, 86, 255, 19, 0],
        room: 1,
        gives: Err(InflateError::CodeLengths),
    },
    // "invalid literal/length code": 286
    Row {
        stream: &[27, 3],
        room: 1,
        gives: Err(InflateError::Symbol),
    },
    // "invalid distance code": 30, then one where there is none
    Row {
        stream: &[75, 4, 62],
        room: 4,
        gives: Err(InflateError::Symbol),
    },
    Row {
        stream: &[
            13, 192, 129, 5, 0, 0, 0, 192, 160, 91, 251, 255, 137, 141, 1,
        ],
        room: 4,
        gives: Err(InflateError::Symbol),
    },
    // "invalid distance too far back"
    Row {
        stream: &[75, 4, 66, 0],
        room: 4,
        gives: Err(InflateError::Distance),
    },
];

/// A whole stream, how many bytes of the input it takes, and as above.
#[derive(Drop)]
struct WholeRow {
    stream: &'static [u8],
    room: usize,
    used: usize,
    gives: Result<&'static [u8], InflateError>,
}

static WHOLE_ROWS: [WholeRow; 8] = [
    WholeRow {
        stream: &FIXED,
        room: 25,
        used: 11,
        gives: Ok(HELLO),
    },
    // The frame's checksum stands behind the stream.
    WholeRow {
        stream: &[
            203, 72, 205, 201, 201, 87, 200, 64, 39, 185, 0, 112, 190, 8, 187,
        ],
        room: 100,
        used: 11,
        gives: Ok(HELLO),
    },
    WholeRow {
        stream: &FLUSHED,
        room: 8,
        used: 15,
        gives: Ok(b"one two"),
    },
    WholeRow {
        stream: &[3, 0],
        room: 1,
        used: 2,
        gives: Ok(b""),
    },
    WholeRow {
        stream: &FIXED,
        room: 24,
        used: 0,
        gives: Err(InflateError::TooLong),
    },
    WholeRow {
        stream: &FIXED,
        room: 0,
        used: 0,
        gives: Err(InflateError::TooLong),
    },
    WholeRow {
        stream: &[203, 72, 205, 201, 201, 87, 200, 64, 39, 185],
        room: 25,
        used: 0,
        gives: Err(InflateError::EndsEarly),
    },
    WholeRow {
        stream: &[3],
        room: 1,
        used: 0,
        gives: Err(InflateError::EndsEarly),
    },
];

/// A stream in zlib's frame, and as above.
#[derive(Drop)]
struct FrameRow {
    stream: &'static [u8],
    room: usize,
    gives: Result<&'static [u8], UnzipError>,
}

static FRAME_ROWS: [FrameRow; 12] = [
    FrameRow {
        stream: &FRAMED,
        room: 25,
        gives: Ok(HELLO),
    },
    // A window of 512 bytes.
    FrameRow {
        stream: &[24, 211, 75, 201, 44, 206, 6, 0, 4, 32, 1, 172],
        room: 5,
        gives: Ok(b"disk"),
    },
    FrameRow {
        stream: &[],
        room: 25,
        gives: Err(UnzipError::Header),
    },
    FrameRow {
        stream: &[120],
        room: 25,
        gives: Err(UnzipError::Header),
    },
    // "incorrect header check": another method, then no multiple of 31
    FrameRow {
        stream: &[121, 218, 3, 0],
        room: 25,
        gives: Err(UnzipError::Header),
    },
    FrameRow {
        stream: &[120, 219, 3, 0],
        room: 25,
        gives: Err(UnzipError::Header),
    },
    // "invalid window size"
    FrameRow {
        stream: &[136, 28, 3, 0],
        room: 25,
        gives: Err(UnzipError::Header),
    },
    // a preset dictionary, which zlib asks for
    FrameRow {
        stream: &[120, 249, 4, 9, 1, 165, 75, 1, 98, 0, 4, 9, 1, 165],
        room: 25,
        gives: Err(UnzipError::Header),
    },
    // "invalid block type"
    FrameRow {
        stream: &[120, 218, 7],
        room: 25,
        gives: Err(UnzipError::Stream(InflateError::BlockKind)),
    },
    FrameRow {
        stream: &FRAMED,
        room: 24,
        gives: Err(UnzipError::Stream(InflateError::TooLong)),
    },
    // "incorrect data check"
    FrameRow {
        stream: &[
            120, 218, 203, 72, 205, 201, 201, 87, 200, 64, 39, 185, 0, 112, 190, 8, 186,
        ],
        room: 25,
        gives: Err(UnzipError::Checksum),
    },
    FrameRow {
        stream: &[
            120, 218, 203, 72, 205, 201, 201, 87, 200, 64, 39, 185, 0, 112, 190, 8,
        ],
        room: 25,
        gives: Err(UnzipError::Checksum),
    },
];

/// Room for the bytes of each row.
const MOST: usize = 256;

fn first_bytes_come_out(rt: &impl Abort) {
    for row in &FIRST_ROWS {
        let mut room = [0u8; MOST];
        assert!(rt; row.room <= MOST);
        let output = &mut room[..row.room];
        let answer = inflate(row.stream, output);
        match row.gives {
            Ok(bytes) => {
                assert_eq!(rt; answer, Ok(()));
                assert!(rt; &room[..row.room] == bytes);
            }
            Err(fault) => assert_eq!(rt; answer, Err(fault)),
        }
    }
}

fn whole_streams_come_out(rt: &impl Abort) {
    for row in &WHOLE_ROWS {
        let mut room = [0u8; MOST];
        assert!(rt; row.room <= MOST);
        let output = &mut room[..row.room];
        let answer = inflate_whole(row.stream, output);
        match row.gives {
            Ok(bytes) => {
                let ended = Ended {
                    written: bytes.len(),
                    used: row.used,
                };
                assert_eq!(rt; answer, Ok(ended));
                assert!(rt; &room[..bytes.len()] == bytes);
            }
            Err(fault) => assert_eq!(rt; answer, Err(fault)),
        }
    }
}

fn framed_streams_come_out(rt: &impl Abort) {
    for row in &FRAME_ROWS {
        let mut room = [0u8; MOST];
        assert!(rt; row.room <= MOST);
        let output = &mut room[..row.room];
        let answer = unzip(row.stream, output);
        match row.gives {
            Ok(bytes) => {
                assert_eq!(rt; answer, Ok(bytes.len()));
                assert!(rt; &room[..bytes.len()] == bytes);
            }
            Err(fault) => assert_eq!(rt; answer, Err(fault)),
        }
    }
}

#[test]
fn first_bytes(rt: HostRuntime) {
    first_bytes_come_out(&rt);
}

#[test]
fn whole_streams(rt: HostRuntime) {
    whole_streams_come_out(&rt);
}

#[test]
fn framed_streams(rt: HostRuntime) {
    framed_streams_come_out(&rt);
}
