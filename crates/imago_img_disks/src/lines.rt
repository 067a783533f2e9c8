// SPDX-License-Identifier: MIT
//! Lines that tell where the bytes of a disk stand.
ghost use Rattle.std.specs.Prelude.{◌≡◌, ◌≤◌, length, OnOk, option_map};
ghost use Rattle.std.specs.Io.KnownBytes.{Appends};
ghost use Rattle.imago_img_disks.specs.Lines.{line as line_text, object};
ghost use Rattle.imago_img_disks.specs.Lines.{kind_word as kind_text};
ghost use Rattle.imago_img_disks.specs.Lines.{kind_members as kind_members_text};

use crate::text::Text;
use std::io::{self, Write};

/// What bytes of a disk are.
#[derive(Clone, Copy)]
pub(crate) enum LineKind {
    /// Data, as it stands in a file.
    Data,
    /// Known to be 0, and one layer says so.
    Zero,
    /// In no layer, and so 0.
    Absent,
    /// Data that is compressed in a file, so that it stands at no offset there.
    Compressed,
}

/// Bytes of a disk that all are of one kind.
#[derive(Clone, Copy)]
pub(crate) struct Line<'a> {
    /// The first byte's offset on the disk.
    pub(crate) start: u64,
    /// How many bytes there are.
    pub(crate) length: u64,
    pub(crate) kind: LineKind,
    /// The depth of the layer that has them; of absent ones, of the last layer that they lie in.
    pub(crate) depth: usize,
    /// The file that they stand in, as it is printed, and from which offset on; or none.
    pub(crate) place: Option<(&'a str, u64)>,
}

/// What a line of columns calls bytes.
#[tactic(auto, unfolding(crate::specs::Lines::kind_word))]
fn kind_word(kind: LineKind) -> &'static [u8]
    ensures word { result.now ≡ kind_text kind }
    ensures few { length result.now ≤ 10 }
{
    match kind {
        LineKind::Data => b"data",
        LineKind::Zero => b"zero",
        LineKind::Absent => b"absent",
        LineKind::Compressed => b"compressed",
    }
}

/// Prints a run as a line of columns.
pub(crate) fn print_line<W: Write>(output: &mut W, line: Line<'_>) -> io::Result<()>
    ensures { OnOk result (Appends (W.contents output.old) (W.contents output.new)
        (line_text line.entry.start line.entry.length line.entry.kind
        (option_map (λ at. (at.0.now, at.1)) line.entry.place))) }
{
    let mut text = Text::new();
    text.put_column(line.start);
    text.put_column(line.length);
    text.put(kind_word(line.kind));
    let Some((file, offset)) = line.place else {
        return text.print_with(output, b"", b"\n");
    };
    text.put(b" ");
    text.put_column(offset);
    text.print_with(output, file.as_bytes(), b"\n")
}

/// What JSON says of bytes. Only those that are compressed have the member `compressed`.
#[tactic(auto, unfolding(crate::specs::Lines::kind_members))]
fn kind_members(kind: LineKind) -> &'static [u8]
    ensures members { result.now ≡ kind_members_text kind }
    ensures few { length result.now ≤ 80 }
{
    match kind {
        LineKind::Data => b", \"present\": true, \"zero\": false, \"data\": true",
        LineKind::Zero => b", \"present\": true, \"zero\": true, \"data\": false",
        LineKind::Absent => b", \"present\": false, \"zero\": true, \"data\": false",
        LineKind::Compressed =>
            b", \"present\": true, \"zero\": false, \"data\": true, \"compressed\": true",
    }
}

/// Prints a run as a JSON object, with the names that `qemu-img map` has.
pub(crate) fn print_object<W: Write>(output: &mut W, line: Line<'_>) -> io::Result<()>
    ensures { OnOk result (Appends (W.contents output.old) (W.contents output.new)
        (object line.entry.start line.entry.length line.entry.depth line.entry.kind
        (option_map (λ at. (at.0.now, at.1)) line.entry.place))) }
{
    let mut text = Text::new();
    text.put(b"{ \"start\": ");
    text.put_number(line.start);
    text.put(b", \"length\": ");
    text.put_number(line.length);
    text.put(b", \"depth\": ");
    text.put_number(line.depth as u64);
    text.put(kind_members(line.kind));
    let Some((file, offset)) = line.place else {
        return text.print_with(output, b"", b"}");
    };
    text.put(b", \"offset\": ");
    text.put_number(offset);
    text.put(b", \"filename\": ");
    text.print_with(output, file.as_bytes(), b"}")
}
