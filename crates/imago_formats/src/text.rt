// SPDX-License-Identifier: MIT
//! The text by which QEMU sees a VMDK descriptor.
ghost use Rattle.std.specs.Prelude.{◌≡◌, ◌<◌, ◌+◌, ◌∷◌, [], length, take, drop, MatchOption};
ghost use Rattle.std.specs.Str.Lines.{strip_carriage_return};
ghost use Rattle.imago_formats.specs.Text.{lines_of, sees_descriptor, is_passed_over as is_passed};
ghost use Rattle.imago_formats.specs.Text.{is_spaces};
ghost use Rattle.imago_formats.specs.Text.{names_version as names_version_by};

/// Whether the first line of a text that is no comment and not blank names a version.
pub fn is_descriptor(text: &[u8]) -> bool
    ensures { result ≡ sees_descriptor text.now }
{
    let mut rest = text;
    while let Some((line, behind)) = cut_line(rest) {
        if !is_passed_over(line) {
            return names_version(line);
        }
        rest = behind;
    }
    false
}

/// The first line of a text and what stands behind it, if there is one that ends.
fn cut_line(text: &[u8]) -> Option<(&[u8], &[u8])>
    ensures { MatchOption result (lines_of text.now ≡ text.now ∷ [])
        (λ x. (length x.1.now < length text.now)
        × (lines_of text.now ≡ x.0.now ∷ lines_of x.1.now)) }
{
    match line_end(text) {
        Some(end) => Some((&text[..end], &text[end + 1..])),
        None => None,
    }
}

/// Where the first newline of a text stands, if it has one.
fn line_end(text: &[u8]) -> Option<usize>
    ensures { MatchOption result (lines_of text.now ≡ text.now ∷ []) (λ at. (at < length text.now)
        × (lines_of text.now ≡ take at text.now ∷ lines_of (drop (at + 1) text.now))) }
{
    text.iter().position(|byte| *byte == b'\n')
}

/// Whether a line is a comment or blank.
fn is_passed_over(line: &[u8]) -> bool
    ensures { result ≡ is_passed line.now }
{
    line.starts_with(b"#") || is_blank(without_return(line))
}

/// Whether there are only spaces, and one at least.
fn is_blank(text: &[u8]) -> bool
    ensures { result ≡ is_spaces text.now }
{
    !text.is_empty() && text.iter().all(|byte| *byte == b' ')
}

/// Whether a line is that of a known version.
fn names_version(line: &[u8]) -> bool
    ensures { result ≡ names_version_by line.now }
{
    let text = without_return(line);
    text == b"version=1".as_slice()
        || text == b"version=2".as_slice()
        || text == b"version=3".as_slice()
}

/// A line without the carriage return at its end, if it has one.
fn without_return(line: &[u8]) -> &[u8]
    ensures { result.now ≡ strip_carriage_return line.now }
{
    let count = line.len();
    if count > 0 && line[count - 1] == b'\r' {
        &line[..count - 1]
    } else {
        line
    }
}
