// SPDX-License-Identifier: MIT
//! Scripts that were worked out by hand.

use super::check;
use std::process::Abort;

/// Scripts whose every line is a command, and what they print.
const ROWS: [(&str, &str); 30] = [
    (
        "mem a 16 00 1 1\nopen raw a rw\nwrite 3 0102\nread 0 6\n",
        "ok\nok\nok\nok 000000010200\n",
    ),
    // No lines at all; only lines that say nothing; a last line with no end; hex of no bytes.
    ("", ""),
    ("\n#\n# size\n#\tsize\r\n\n", ""),
    (
        "hex a -\nopen raw a rw\nsize\nread 0 0\nwrite 0 -\nread 0 1",
        "ok\nok\nok 0\nok -\nok\nok 00\n",
    ),
    // Every digit of hex in either case, and numbers with zeroes in front.
    (
        "hex a 0123456789abcdefABCDEF\nopen raw a ro\nread 00000000000000000000000 011\n",
        "ok\nok\nok 0123456789abcdefabcdef\n",
    ),
    // A disk that ends inside a block, a write there, and a growth over its padding.
    (
        "mem a 10000 a5 4096 4096\nopen raw a rw\nshow\nwrite 9999 01\nread 9998 4\n\
         grow 11000 zero\nsize\nread 9999 3\n\
         map 10999 8\ndata 0 16 keep\nwrite 11000 ff\nread 0 0\n",
        "ok\nok\nok raw[mem:a]\nok\nok a5010000\nok\nok 11000\nok 010000\nok 1 0/0:0x2af7/rw\n\
         ok 16 0:0x0\nerr UnexpectedEof\nok -\n",
    ),
    // A read that is shorter than a block.
    (
        "mem a 4 ff 4 4\nopen raw a rw\nread 0 4\nread 0 3\n",
        "ok\nok\nok ffffffff\nok ffffff\n",
    ),
    // Requests at the greatest offsets, on blocks and without: past the end of the disk they read
    // as zeroes.
    (
        "mem a 1 5a 4096 4096\nopen raw a rw\nread 18446744073709551605 12\n\
         write 18446744073709551605 010203040506\n\
         read 18446744073709551515 5\nwrite 18446744073709551515 01\nsize\n",
        "ok\nok\nok 000000000000000000000000\nerr UnexpectedEof\nok 0000000000\nerr UnexpectedEof\n\
         ok 1\n",
    ),
    // Reads over the end; no write past it, also of nothing.
    (
        "hex a 01020304\nopen raw a rw\nread 2 6\nread 18446744073709551615 2\n\
         write 18446744073709551615 00\n\
         write 3 0506\nwrite 4 -\nwrite 5 -\nread 0 4\n",
        "ok\nok\nok 030400000000\nok 0000\nerr UnexpectedEof\nerr UnexpectedEof\nok\n\
         err UnexpectedEof\nok 01020304\n",
    ),
    // Opened to be read alone: no changing call, also one that would change nothing.
    (
        "hex a 01020304\nopen raw a ro\nwrite 0 -\nwrite 18446744073709551615 00\nresize 4 none\n\
         grow 0 zero\nshrink 9\n\
         flush\nsync\nread 0 4\nsize\n",
        "ok\nok\nerr Other\nerr Other\nerr Other\nerr Other\nerr Other\nok\nok\nok 01020304\n\
         ok 4\n",
    ),
    // Sizes: what was cut is gone; a growth to less and a cut to more do nothing.
    (
        "hex a 01020304\nopen raw a rw\nshrink 2\ngrow 4 zero\nread 0 4\ngrow 1 zero\nshrink 9\n\
         size\nresize 2 data\n\
         resize 3 full\ngrow 5 format\ngrow 6 none\nsize\nread 0 5\nread 0 2\n",
        "ok\nok\nok\nok\nok 01020000\nok\nok\nok 4\nok\nok\nok\nok\nok 6\nok 0102000000\nok 0102\n",
    ),
    // Where data stand: the tests are those of a write, and nothing changes.
    (
        "mem a 8 ff 1 1\nopen raw a rw\ndata 2 3 keep\ndata 2 3 over\ndata 8 0 keep\n\
         data 7 2 keep\ndata 9 0 over\nread 0 8\n\
         mem b 4 00 1 1\nopen raw b ro\ndata 0 0 keep\n",
        "ok\nok\nok 3 0:0x2\nok 3 0:0x2\nok 0 0:0x8\nerr UnexpectedEof\nerr UnexpectedEof\n\
         ok ffffffffffffffff\n\
         ok\nok\nerr Other\n",
    ),
    // Zeroes and discards, of any range of a disk.
    (
        "mem a 8 ff 1 1\nopen raw a rw\ndiscard zero 2 3\nread 0 8\nzero 6 2\nread 0 8\n\
         discard backing 0 1\nread 0 8\n\
         discard any 3 0\nread 0 8\n",
        "ok\nok\nok\nok ffff000000ffffff\nok\nok ffff000000ff0000\nok\nok 00ff000000ff0000\nok\n\
         ok 00ff000000ff0000\n",
    ),
    // On blocks of 8 the edges are zeroed too, but a discard to backing leaves them.
    (
        "mem a 16 ff 8 8\nopen raw a rw\ndiscard backing 3 13\nread 0 16\nmem a 16 ff 8 8\n\
         open raw a rw\nzero 3 13\nread 0 16\n\
         mem a 16 ff 8 8\nopen raw a rw\ndiscard zero 1 2\nread 0 16\n",
        "ok\nok\nok\nok ffffffffffffffff0000000000000000\nok\nok\nok\n\
         ok ffffff00000000000000000000000000\n\
         ok\nok\nok\nok ff0000ffffffffffffffffffffffffff\n",
    ),
    // Past the end of the disk, at its end, and past the greatest offset.
    (
        "null n 1024\nopen raw n rw\nzero 1024 4096\nzero 512 4096\ndiscard zero 1024 4096\n\
         discard any 512 4096\n\
         discard backing 512 4096\nzero 1024 0\ndiscard zero 1024 0\ndiscard any 1024 0\n\
         discard backing 1024 0\nsize\n\
         zero 18446744073709551615 1\ndiscard zero 18446744073709551615 1\n\
         discard any 18446744073709551615 1\n\
         discard backing 18446744073709551615 1\n",
        "ok\nok\nerr UnexpectedEof\nerr UnexpectedEof\nerr UnexpectedEof\nerr UnexpectedEof\n\
         err UnexpectedEof\nok\nok\nok\nok\n\
         ok 1024\nerr InvalidInput\nerr InvalidInput\nerr InvalidInput\nerr InvalidInput\n",
    ),
    // Opened to be read alone: whatever the range is.
    (
        "hex a 01020304\nopen raw a ro\nzero 18446744073709551615 1\nzero 0 0\ndiscard zero 0 1\n\
         discard any 9 9\n\
         discard backing 0 0\nmap 1 2\nread 0 4\n",
        "ok\nok\nerr Other\nerr Other\nerr Other\nerr Other\nerr Other\nok 2 0/0:0x1/rw\n\
         ok 01020304\n",
    ),
    // What a range is: up to the end of the disk, at its end, and of no bytes.
    (
        "mem a 10000 a5 4096 4096\nopen raw a rw\ngrow 11000 zero\nmap 10999 8\nmap 11000 1\n\
         map 18446744073709551615 1\nmap 0 0\n\
         map 0 18446744073709551615\n",
        "ok\nok\nok\nok 1 0/0:0x2af7/rw\nok 0 <eof>\nok 0 <eof>\nok 0 0/0:0x0/rw\n\
         ok 11000 0/0:0x0/rw\n",
    ),
    // Zeroes of any length.
    (
        "null n 7\nopen raw n rw\nshow\nwrite 0 ff\nread 0 7\nsize\nresize 9 zero\nshow\n",
        "ok\nok\nok raw[null:[7B]]\nok\nok 00000000000000\nok 7\nok\nok raw[null:[9B]]\n",
    ),
    (
        "null n 18446744073709551615\nopen raw n rw\nread 18446744073709551614 2\n\
         write 18446744073709551614 01\nsize\n",
        "ok\nok\nok 0000\nok\nok 18446744073709551615\n",
    ),
    // With no open image.
    (
        "size\nshow\nread 0 16777216\nwrite 0 00\nresize 0 none\ngrow 0 none\nshrink 0\nflush\n\
         sync\nzero 0 1\n\
         discard any 0 1\nmap 0 1\nopen raw a ro\n",
        "err NotFound\nerr NotFound\nerr NotFound\nerr NotFound\nerr NotFound\nerr NotFound\n\
         err NotFound\nerr NotFound\nerr NotFound\nerr NotFound\nerr NotFound\n\
         err NotFound\nerr NotFound\n",
    ),
    // An opening replaces the open image where it succeeds, and takes the storage out.
    (
        "hex a 01\nhex b 02\nopen raw a ro\nopen raw c ro\nread 0 1\nopen raw b ro\nread 0 1\n\
         open raw a ro\nread 0 1\n",
        "ok\nok\nok\nerr NotFound\nok 01\nok\nok 02\nerr NotFound\nok 02\n",
    ),
    // Of storages with one name, of whatever kind, the first added is opened first.
    (
        "hex a 01\nnull a 5\nhex b 09\nhex a 02\nopen raw a rw\nread 0 1\nopen raw a rw\nshow\n\
         open raw a rw\nread 0 1\n\
         open raw a rw\nopen raw b rw\nread 0 1\n",
        "ok\nok\nok\nok\nok\nok 01\nok\nok raw[null:[5B]]\nok\nok 02\nerr NotFound\nok\nok 09\n",
    ),
    // There can't be memory for so many bytes; the script goes on, and nothing changed.
    (
        "mem a 18446744073709551615 00 1 1\nopen raw a ro\nmem b 1 77 1 1\nopen raw b rw\n\
         grow 18446744073709551615 zero\nresize 9223372036854775808 none\nsize\nread 0 1\n",
        "err OutOfMemory\nerr NotFound\nok\nok\nerr OutOfMemory\nerr OutOfMemory\nok 1\nok 77\n",
    ),
    // A VMDK image of two sectors of zeroes.
    (
        "hex d 76657273696f6e3d310a52572032205a45524f0a\nprobe d\nopen vmdk d\nsize\nmap 0 4096\n\
         map 1024 1\nwrite 0 01\n",
        "ok\nok true\nok\nok 1024\nok 1024 <zero:explicit>\nok 0 <eof>\nerr Other\n",
    ),
    // A VMDK image of two files, the second one from its second sector on. It is read-only; behind
    // its files are zeroes.
    (
        "hex d 76657273696f6e3d310a5257203120464c41542022612e696d67220a5257203120464c41542022622e696d672220310a\nmem a.img 512 aa 1 1\n\
         mem b.img 600 bb 1 1\nopen vmdk d\nsize\nread 510 4\nread 598 4\nmap 512 100\nmap 0 600\n\
         map 1024 1\nwrite 0 00\nzero 0 0\n\
         grow 1025 none\nflush\nsync\nshow\n",
        "ok\nok\nok\nok\nok 1024\nok aaaabbbb\nok bbbb0000\nok 100 0/2:0x200/rw\n\
         ok 512 0/1:0x0/rw\nok 0 <eof>\nerr Other\nerr Other\n\
         err Other\nok\nok\nok vmdk[mem:d]\n",
    ),
    // An extent that begins at an offset of its file and may only be read. Without the file nothing
    // is opened; with it the image is opened anew.
    (
        "hex d 76657273696f6e3d310a52572032205a45524f0a52444f4e4c59203120464c41542022612e696d672220330a\nopen vmdk d\n\
         hex d 76657273696f6e3d310a52572032205a45524f0a52444f4e4c59203120464c41542022612e696d672220330a\nmem a.img 4096 11 1 1\nopen vmdk d\n\
         size\nmap 1024 4096\nmap 0 4096\nmap 1536 1\n",
        "ok\nerr NotFound\nok\nok\nok\nok 1536\nok 512 0/1:0x600/ro\nok 1024 <zero:explicit>\n\
         ok 0 <eof>\n",
    ),
    // A sector that may not be read, between two of zeroes.
    (
        "hex d 76657273696f6e3d310a52572031205a45524f0a4e4f41434345535320310a52572031205a45524f0a\nopen vmdk d\n\
         read 510 2\nread 0 513\nread 1023 1\nread 1024 2\nmap 0 513\nmap 512 1\n",
        "ok\nok\nok 0000\nerr Other\nerr Other\nok 0000\nok 512 <zero:explicit>\nerr Other\n",
    ),
    // A file of no bytes, shorter than its extent: what is missing reads as zeroes.
    (
        "hex d 76657273696f6e3d310a5257203120464c41542022612e696d672220300a\nmem a.img 0 00 1 1\n\
         open vmdk d\nmap 0 512\n\
         map 511 1\nread 0 4\nread 508 8\n",
        "ok\nok\nok\nok 512 0/1:0x0/rw\nok 1 0/1:0x1ff/rw\nok 00000000\nok 0000000000000000\n",
    ),
    // An extent of no sectors. Where a file isn't there, nothing is opened, and what was taken out
    // is gone.
    (
        "hex z 76657273696f6e3d310a52572030205a45524f0a52572031205a45524f0a\nopen vmdk z\n\
         map 0 600\nhex d 76657273696f6e3d310a5257203120464c41542022612e696d67220a5257203120464c41542022622e696d672220310a\n\
         mem a.img 1 00 1 1\nopen vmdk d\nsize\nopen vmdk d\nopen raw a.img ro\nopen vmdk n\n",
        "ok\nok\nok 512 <zero:explicit>\nok\nok\nerr NotFound\nok 512\nerr NotFound\nerr NotFound\n\
         err NotFound\n",
    ),
    // What descriptors are refused for, and what a probe tells of them; it takes nothing out.
    (
        "hex p 76657273696f6e3d310a706172656e7446696c654e616d6548696e743d780a52572031205a45524f0a\n\
         probe p\nopen vmdk p lax\n\
         hex n 52572031205a45524f0a\nprobe n\nopen vmdk n\nhex x 666f6f3d310a76657273696f6e3d310a\n\
         probe x\nopen vmdk x\n\
         null s 3\nprobe s\nprobe s\nopen vmdk s\nprobe s\n",
        "ok\nok true\nerr Unsupported\nok\nok false\nerr Unsupported\nok\nok true\n\
         err InvalidData\nok\nok false\nok false\nerr InvalidData\n\
         err NotFound\n",
    ),
];

/// Scripts with copy-on-write disks, and what they print.
const COPY_ON_WRITE: [(&str, &str); 15] = [
    // A disk over sixteen bytes. At the end the two data blocks that were given back are taken
    // again, the lower one first.
    (
        "mem b 16 11 1 1\nopen raw b ro\nmem c 0 00 1 1\nopen cow c 4\nmap 0 16\nwrite 5 aabb\n\
         read 0 16\nmap 6 16\n\
         zero 8 4\nmap 8 16\ndiscard backing 4 4\nread 4 8\nzero 13 2\nread 12 4\nmap 12 4\n\
         grow 18 full\nread 14 4\n\
         map 16 4\nshrink 6\ngrow 8 zero\nread 0 8\ngrow 10 full\nread 6 4\nmap 4 8\nmap 8 8\n\
         size\nshow\n",
        "ok\nok\nok\nok\nok 4 1/0:0x0/ro\nok\nok 1111111111aabb111111111111111111\n\
         ok 2 0/0:0x2/rw\nok\n\
         ok 4 <zero:explicit>\nok\nok 1111111100000000\nok\nok 11000011\nok 4 0/0:0x0/rw\nok\n\
         ok 00110000\n\
         ok 2 0/0:0x4/rw\nok\nok\nok 1111111111110000\nok\nok 00001111\nok 4 0/0:0x0/rw\n\
         ok 2 0/0:0x4/rw\nok 10\n\
         ok cow[mem:c]\n",
    ),
    // The same writes on a storage of old bytes, which takes whole blocks of 8 bytes alone: no old
    // byte shows.
    (
        "mem b 16 11 1 1\nopen raw b ro\nmem c 64 ff 8 8\nopen cow c 4\nwrite 5 aabb\nread 0 16\n\
         zero 8 4\n\
         discard backing 4 4\nread 4 8\nzero 13 2\nread 12 4\ngrow 18 full\nread 14 6\nshrink 6\n\
         grow 8 zero\n\
         read 0 8\ngrow 10 full\nread 6 4\n",
        "ok\nok\nok\nok\nok\nok 1111111111aabb111111111111111111\nok\nok\nok 1111111100000000\nok\n\
         ok 11000011\nok\n\
         ok 001100000000\nok\nok\nok 1111111111110000\nok\nok 00001111\n",
    ),
    // Over a disk of no bytes. Where a block is zero round a range that is zeroed, all of it
    // becomes an explicit zero.
    (
        "hex b -\nopen raw b ro\nmem c 0 00 1 1\nopen cow c 4\nsize\nmap 0 1\ngrow 16 none\n\
         map 0 16\nread 0 4\n\
         zero 1 2\nmap 0 4\nwrite 9 ab\nread 6 8\nmap 8 8\ngrow 18 data\nmap 16 4\nread 15 9\n",
        "ok\nok\nok\nok\nok 0\nok 0 <eof>\nok\nok 4 <zero:unallocated>\nok 00000000\nok\n\
         ok 4 <zero:explicit>\nok\n\
         ok 000000ab00000000\nok 4 0/0:0x0/rw\nok\nok 2 0/0:0x4/rw\nok 000000000000000000\n",
    ),
    // A block that is longer than the disk.
    (
        "mem b 10 22 1 1\nopen raw b ro\nmem c 0 00 1 1\nopen cow c 65536\nzero 3 4\nread 0 10\n\
         map 2 65536\n\
         zero 0 10\nmap 0 65536\nread 0 10\nwrite 9 01\nmap 0 1\nread 8 4\n",
        "ok\nok\nok\nok\nok\nok 22222200000000222222\nok 8 0/0:0x2/rw\nok\nok 10 <zero:explicit>\n\
         ok 00000000000000000000\nok\nok 1 0/0:0x0/rw\nok 00010000\n",
    ),
    // Where data are to stand: never past a block; what the block held is copied there, and nothing
    // changes.
    (
        "hex b 101112131415161718191a1b1c1d1e1f\nopen raw b ro\nmem c 0 00 1 1\nopen cow c 4\n\
         data 5 8 keep\n\
         read 0 16\nmap 4 8\ndata 6 1 keep\ndata 3 0 keep\nmap 0 4\ndata 12 4 over\nmap 12 4\n\
         read 4 8\n\
         data 15 2 keep\nwrite 16 00\nzero 15 2\nwrite 16 -\nflush\nsync\n",
        "ok\nok\nok\nok\nok 3 0:0x1\nok 101112131415161718191a1b1c1d1e1f\nok 4 0/0:0x0/rw\n\
         ok 1 0:0x2\nok 0 0:0x0\n\
         ok 4 1/0:0x0/ro\nok 4 0:0x4\nok 4 0/0:0x4/rw\nok 1415161718191a1b\nerr UnexpectedEof\n\
         err UnexpectedEof\n\
         err UnexpectedEof\nok\nok\nok\n",
    ),
    // Discards do whole blocks, and the last one where they reach the end of the disk. A discard to
    // zero fills the rest with zeroes.
    (
        "hex b 101112131415161718191a1b1c1d\nopen raw b ro\nmem c 0 00 1 1\nopen cow c 4\n\
         write 0 a0a1a2a3a4a5a6a7a8a9aaabacad\nmap 12 4\ndiscard backing 1 10\nread 0 14\n\
         discard any 3 9\nread 0 14\n\
         discard backing 13 1\nread 12 2\ndiscard backing 12 2\nread 12 2\nmap 12 4\n\
         discard zero 2 3\nread 0 8\n\
         map 4 4\nmap 0 4\ndiscard zero 12 2\nmap 12 4\ndiscard backing 0 14\nread 0 14\n",
        "ok\nok\nok\nok\nok\nok 2 0/0:0xc/rw\nok\nok a0a1a2a314151617a8a9aaabacad\nok\n\
         ok a0a1a2a30000000000000000acad\nok\nok acad\nok\nok 1c1d\nok 2 1/0:0xc/ro\nok\n\
         ok a0a1000000000000\n\
         ok 4 <zero:explicit>\nok 4 0/0:0x0/rw\nok\nok 2 <zero:explicit>\nok\n\
         ok 101112131415161718191a1b1c1d\n",
    ),
    // A block that leads below and is cut by the end of the disk, grown in each mode; and past the
    // end of the lower disk.
    (
        "hex b 101112131415161718191a1b1c1d1e1f\nopen raw b ro\nmem c 0 00 1 1\nopen cow c 4\n\
         shrink 6\ngrow 11 none\n\
         size\nread 4 7\nmap 4 8\nmap 8 8\nshrink 6\ngrow 11 zero\nread 4 7\nmap 4 8\nmap 8 8\n\
         shrink 6\n\
         discard backing 4 2\nmap 4 8\ngrow 8 format\nmap 4 8\nread 4 4\ngrow 11 format\nmap 8 8\n\
         read 4 7\nshrink 6\n\
         discard backing 4 2\nmap 4 8\ngrow 8 full\nmap 4 8\nread 4 4\ngrow 11 full\nmap 8 8\n\
         read 4 7\nshrink 6\n\
         discard backing 4 2\nmap 4 8\ngrow 8 data\nmap 4 8\nread 4 4\ngrow 11 data\nmap 8 8\n\
         read 4 7\nshrink 6\n\
         discard backing 4 2\nresize 18 full\nread 4 14\n",
        "ok\nok\nok\nok\nok\nok\nok 11\nok 1415161718191a\nok 4 1/0:0x4/ro\nok 3 1/0:0x8/ro\nok\n\
         ok\n\
         ok 14150000000000\nok 4 0/0:0x0/rw\nok 3 <zero:explicit>\nok\nok\nok 2 1/0:0x4/ro\nok\n\
         ok 4 0/0:0x0/rw\n\
         ok 14151617\nok\nok 3 0/0:0x4/rw\nok 1415161718191a\nok\nok\nok 2 1/0:0x4/ro\nok\n\
         ok 4 0/0:0x0/rw\n\
         ok 14151617\nok\nok 3 0/0:0x4/rw\nok 1415161718191a\nok\nok\nok 2 1/0:0x4/ro\nok\n\
         ok 4 0/0:0x0/rw\n\
         ok 14151617\nok\nok 3 0/0:0x4/rw\nok 1415161718191a\nok\nok\nok\n\
         ok 1415161718191a1b1c1d1e1f0000\n",
    ),
    // A block of data that is cut by the end, grown in each mode.
    (
        "hex b 101112131415161718191a1b1c1d1e1f\nopen raw b ro\nmem c 0 00 1 1\nopen cow c 4\n\
         write 4 e4e5e6e7\n\
         shrink 6\ngrow 11 none\nread 4 2\nmap 4 8\nmap 8 8\nread 8 3\nshrink 6\ngrow 11 zero\n\
         read 4 7\nmap 4 8\n\
         map 8 8\nshrink 6\ngrow 11 format\nread 4 7\nmap 4 8\nmap 8 8\nwrite 6 ffff\nshrink 6\n\
         grow 11 full\n\
         read 4 7\nmap 4 8\nmap 8 8\nwrite 6 ffff\nshrink 6\ngrow 11 data\nread 4 7\nmap 4 8\n\
         map 8 8\nwrite 6 ffff\n\
         shrink 5\ngrow 7 zero\nread 4 3\nmap 4 8\n",
        "ok\nok\nok\nok\nok\nok\nok\nok e4e5\nok 4 0/0:0x0/rw\nok 3 1/0:0x8/ro\nok 18191a\nok\nok\n\
         ok e4e50000000000\n\
         ok 4 0/0:0x0/rw\nok 3 <zero:explicit>\nok\nok\nok e4e5161718191a\nok 4 0/0:0x0/rw\n\
         ok 3 0/0:0x4/rw\nok\nok\n\
         ok\nok e4e5161718191a\nok 4 0/0:0x0/rw\nok 3 0/0:0x4/rw\nok\nok\nok\nok e4e5161718191a\n\
         ok 4 0/0:0x0/rw\n\
         ok 3 0/0:0x4/rw\nok\nok\nok\nok e40000\nok 3 0/0:0x0/rw\n",
    ),
    // A block of zeroes that is cut by the end, grown in each mode.
    (
        "hex b 101112131415161718191a1b1c1d1e1f\nopen raw b ro\nmem c 0 00 1 1\nopen cow c 4\n\
         zero 4 4\nshrink 6\n\
         grow 11 none\nread 4 2\nmap 4 8\nmap 8 8\nshrink 6\ngrow 11 zero\nread 4 7\nmap 4 8\n\
         map 8 8\nshrink 6\n\
         zero 4 2\nmap 4 8\ngrow 8 format\nmap 4 8\nread 4 4\ngrow 11 format\nmap 8 8\nread 4 7\n\
         shrink 6\nzero 4 2\n\
         map 4 8\ngrow 8 full\nmap 4 8\nread 4 4\ngrow 11 full\nmap 8 8\nread 4 7\nshrink 6\n\
         zero 4 2\nmap 4 8\n\
         grow 8 data\nmap 4 8\nread 4 4\ngrow 11 data\nmap 8 8\nread 4 7\n",
        "ok\nok\nok\nok\nok\nok\nok\nok 0000\nok 4 <zero:explicit>\nok 3 1/0:0x8/ro\nok\nok\n\
         ok 00000000000000\n\
         ok 4 <zero:explicit>\nok 3 <zero:explicit>\nok\nok\nok 2 <zero:explicit>\nok\n\
         ok 4 0/0:0x0/rw\nok 00001617\n\
         ok\nok 3 0/0:0x4/rw\nok 0000161718191a\nok\nok\nok 2 <zero:explicit>\nok\n\
         ok 4 0/0:0x0/rw\nok 00001617\nok\n\
         ok 3 0/0:0x4/rw\nok 0000161718191a\nok\nok\nok 2 <zero:explicit>\nok\nok 4 0/0:0x0/rw\n\
         ok 00001617\nok\n\
         ok 3 0/0:0x4/rw\nok 0000161718191a\n",
    ),
    // Three of them, one above the other. A write into the upper one copies what the layers below
    // show; zeroes of a lower layer are none of its own.
    (
        "hex b 000102030405060708090a0b0c0d0e0f\nopen raw b ro\nmem c 0 00 1 1\nopen cow c 2\n\
         write 3 c3\n\
         mem d 0 00 1 1\nopen cow d 4\nwrite 5 d5\nzero 12 4\nmem e 0 00 1 1\nopen cow e 8\n\
         read 0 16\nmap 0 16\n\
         map 2 16\nmap 5 16\nmap 8 16\nmap 12 16\nwrite 14 e7\nread 0 16\nmap 12 16\n\
         discard backing 8 8\nread 8 8\n\
         show\nsize\n",
        "ok\nok\nok\nok\nok\nok\nok\nok\nok\nok\nok\nok 000102c304d5060708090a0b00000000\n\
         ok 2 3/0:0x0/ro\n\
         ok 2 2/0:0x0/ro\nok 3 1/0:0x1/ro\nok 2 3/0:0x8/ro\nok 4 <zero:unallocated>\nok\n\
         ok 000102c304d5060708090a0b0000e700\nok 4 0/0:0x4/rw\nok\nok 08090a0b00000000\n\
         ok cow[mem:e]\nok 16\n",
    ),
    // An upper disk that is longer than the lower one, which a cut made shorter than its own lower
    // one.
    (
        "hex b 101112131415161718191a1b1c1d1e1f\nopen raw b ro\nmem c 0 00 1 1\nopen cow c 4\n\
         shrink 6\n\
         mem d 0 00 1 1\nopen cow d 4\nsize\ngrow 12 none\nread 4 8\nmap 4 4\nmap 6 2\nmap 8 4\n\
         write 7 d7\nread 4 8\n\
         map 4 8\n",
        "ok\nok\nok\nok\nok\nok\nok\nok 6\nok\nok 1415000000000000\nok 2 2/0:0x4/ro\n\
         ok 2 <zero:unallocated>\n\
         ok 4 <zero:unallocated>\nok\nok 141500d700000000\nok 4 0/0:0x0/rw\n",
    ),
    // With no image open, and with no such storage: nothing is taken out, and the open image stays.
    // A storage that the disk was laid on is gone.
    (
        "mem c 0 00 1 1\nopen cow c 4\nhex b 0102\nopen raw b ro\nopen cow x 4\nread 0 2\n\
         open cow c 1048576\n\
         write 1 ff\nread 0 2\nopen cow c 4\nread 0 2\nhex a 09\nopen raw a ro\nread 0 1\n",
        "ok\nerr NotFound\nok\nok\nerr NotFound\nok 0102\nok\nok\nok 01ff\nerr NotFound\nok 01ff\n\
         ok\nok\nok 09\n",
    ),
    // There can't be memory for the table of so many blocks: the open image stays, and the storage
    // is gone.
    (
        "null n 18446744073709551615\nopen raw n ro\nmem c 0 00 1 1\nopen cow c 1\nsize\nshow\n\
         open cow c 1\n\
         write 0 00\n",
        "ok\nok\nok\nerr OutOfMemory\nok 18446744073709551615\n\
         ok raw[null:[18446744073709551615B]]\nerr NotFound\n\
         err Other\n",
    ),
    // Over a VMDK image with a sector that may not be read: a write that has to copy it is refused,
    // and gives its block back; zeroes over all of it copy nothing.
    (
        "hex d 76657273696f6e3d310a52572031205a45524f0a4e4f41434345535320310a\nopen vmdk d\nsize\n\
         mem c 0 00 1 1\n\
         open cow c 512\nwrite 600 01\nwrite 0 01\nmap 0 1024\nread 0 2\nread 600 1\nzero 512 512\n\
         map 600 1024\n\
         write 600 01\nread 599 3\nmap 600 1024\n",
        "ok\nok\nok 1024\nok\nok\nerr Other\nok\nok 512 0/0:0x0/rw\nok 0100\nerr Other\nok\n\
         ok 424 <zero:explicit>\n\
         ok\nok 000100\nok 424 0/0:0x258/rw\n",
    ),
    // On a storage that forgets what is written to it.
    (
        "hex b 101112131415161718191a1b1c1d1e1f\nopen raw b ro\nnull c 8\nopen cow c 4\nshow\n\
         write 5 ff\nread 3 6\n\
         map 4 4\ndiscard backing 4 4\nread 3 6\n",
        "ok\nok\nok\nok\nok cow[null:[8B]]\nok\nok 130000000018\n\
         ok 4 0/0:0x0/rw\nok\n\
         ok 131415161718\n",
    ),
];

fn check_rows(rt: &(impl Abort + AllocGlobal)) {
    for &(text, printed) in &ROWS {
        check(rt, text.as_bytes(), printed, 0);
    }
}

#[test]
fn rows(rt: HostRuntime) {
    check_rows(&rt);
}

fn check_copy_on_write(rt: &(impl Abort + AllocGlobal)) {
    for &(text, printed) in &COPY_ON_WRITE {
        check(rt, text.as_bytes(), printed, 0);
    }
}

#[test]
fn copy_on_write(rt: HostRuntime) {
    check_copy_on_write(&rt);
}
