//! The scripts of examples/, and what they print. tools/examples-in-tests writes this file.

/// The name of each example, its script, and what that prints.
pub(super) const EXAMPLES: [(&str, &str, &str); 6] = [
    (
        "alignment",
        "# A storage that takes requests of whole blocks of 4 bytes alone, and a disk of 10 bytes
# on it.
mem a 10 a5 4 4
open raw a rw
# One byte is written: its block is read, changed, and written back. The bytes around it stay as
# they were.
write 5 01
read 3 5
# The disk ends inside its last block. A write there makes the storage longer, by zeroes, and the
# disk stays.
write 9 02
size
read 8 4
# Past the end of the disk nothing is written, though its block goes on.
write 10 03
# A disk that grows into that block finds zeroes there.
grow 12 zero
size
read 8 4
# Past the end of the disk zeroes are read.
read 8 6
",
        "ok
ok
ok
ok a5a501a5a5
ok
ok 10
ok a5020000
err UnexpectedEof
ok
ok 12
ok a5020000
ok a50200000000
",
    ),
    (
        "cow",
        "# A disk of 16 bytes that isn't to be changed. Above it a copy-on-write disk, in blocks of
# 4 bytes, whose data go to a storage of their own.
hex base 101112131415161718191a1b1c1d1e1f
open raw base ro
mem top 0 00 1 1
open cow top 4
show
# All of it leads to the layer below, block by block.
map 0 16
# A write takes a block of the storage, and copies there what the rest of its block was. The other
# blocks still lead below.
write 5 aabb
read 0 16
map 4 12
map 8 8
# A whole block of zeroes needs no data. A discard to backing makes a block lead below again.
zero 8 4
map 8 8
discard backing 4 4
read 4 8
# A second one above the first, in blocks of 8 bytes. Only what is written to goes to its storage.
mem upper 0 00 1 1
open cow upper 8
write 0 cc
read 0 16
# Layer 0 is the upper disk, layer 1 the first one, whose block of zeroes isn't the upper disk's
# own, and layer 2 the disk below.
map 0 16
map 8 8
map 12 4
# It grows past the end of the disks below, where there are zeroes to copy.
grow 20 full
read 12 8
map 16 8
",
        "ok
ok
ok
ok
ok cow[mem:top]
ok 4 1/0:0x0/ro
ok
ok 1011121314aabb1718191a1b1c1d1e1f
ok 4 0/0:0x0/rw
ok 4 1/0:0x8/ro
ok
ok 4 <zero:explicit>
ok
ok 1415161700000000
ok
ok
ok
ok cc11121314151617000000001c1d1e1f
ok 8 0/0:0x0/rw
ok 4 <zero:unallocated>
ok 4 2/0:0xc/ro
ok
ok 1c1d1e1f00000000
ok 4 0/0:0x8/rw
",
    ),
    (
        "first",
        "# A disk of 16 zero bytes in memory, opened as a raw image that may be written to.
mem a 16 00 1 1
open raw a rw
show
size
# Two bytes are written at offset 3, and six are read from the start.
write 3 0102
read 0 6
",
        "ok
ok
ok raw[mem:a]
ok 16
ok
ok 000000010200
",
    ),
    (
        "ranges",
        "# A disk of 16 bytes on a storage that takes requests of whole blocks of 8 bytes alone.
mem a 16 ff 8 8
open raw a rw
# What a range is: bytes of storage 0 of the top layer, from the same offset on, which may be
# written.
map 3 100
# Zeroes at any range: the blocks at its ends keep their other bytes.
zero 3 4
read 0 8
# A discard to backing gives up whole blocks alone. There is no layer below, so what is given up is
# zero.
discard backing 3 13
read 0 16
# Where the data of a range are to be written. Nothing changes.
data 9 4 keep
# Past the end of the disk nothing is zeroed, and nothing is mapped.
zero 15 2
map 16 1
",
        "ok
ok
ok 13 0/0:0x3/rw
ok
ok ffffff00000000ff
ok
ok ffffff00000000ff0000000000000000
ok 4 0:0x9
err UnexpectedEof
ok 0 <eof>
",
    ),
    (
        "sizes",
        "# A disk of the bytes 01 02 03 04.
hex a 01020304
open raw a rw
# What is read past the end is zero. A write has to stay inside.
read 2 4
read 100 2
write 3 aabb
# The disk is cut, and grows again by zeroes.
shrink 2
size
grow 4 zero
read 0 4
# grow never cuts, shrink never grows, resize does either.
grow 1 zero
shrink 9
size
resize 6 zero
resize 3 none
size
read 0 6
# There can't be memory for a disk of this size: nothing changes, and the script goes on.
grow 18446744073709551615 zero
size
# Zeroes take none. A disk that is opened to be read alone isn't resized.
null n 18446744073709551615
open raw n ro
size
shrink 1
read 18446744073709551614 2
",
        "ok
ok
ok 03040000
ok 0000
err UnexpectedEof
ok
ok 2
ok
ok 01020000
ok
ok
ok 4
ok
ok
ok 3
ok 010200000000
err OutOfMemory
ok 3
ok
ok
ok 18446744073709551615
err Other
ok 0000
",
    ),
    (
        "vmdk",
        "# A text descriptor of three extents, each of one sector: of a file, zeroes, and of
# another file from its second sector on.
hex disk.vmdk 76657273696f6e3d310a5257203120464c41542022612e696d67220a52572031205a45524f0a52444f4e4c59203120464c41542022622e696d672220310a
mem a.img 512 aa 1 1
mem b.img 600 bb 1 1
# Whether a storage has a descriptor. It stays where it is.
probe disk.vmdk
probe a.img
# The descriptor is opened, and the extents by the names that it gives them.
open vmdk disk.vmdk
show
size
# The first two extents, and the last two.
read 510 4
read 1022 4
# The second file ends inside its second sector: behind it zeroes are read.
read 1110 4
# What ranges are: bytes of the storages 1 and 2, since the descriptor's is storage 0, and explicit
# zeroes.
map 0 1536
map 512 1536
map 1024 1536
# The disk can't be written to.
write 0 00
# A key of a descriptor that isn't known is refused, unless it is to be accepted.
hex other.vmdk 76657273696f6e3d310a656e636f64696e673d225554462d38220a52572031205a45524f0a
open vmdk other.vmdk
hex other.vmdk 76657273696f6e3d310a656e636f64696e673d225554462d38220a52572031205a45524f0a
open vmdk other.vmdk lax
size
",
        "ok
ok
ok
ok true
ok false
ok
ok vmdk[mem:disk.vmdk]
ok 1536
ok aaaa0000
ok 0000bbbb
ok bbbb0000
ok 512 0/1:0x0/rw
ok 512 <zero:explicit>
ok 512 0/2:0x200/ro
err Other
ok
err InvalidData
ok
ok
ok 512
",
    ),
];
