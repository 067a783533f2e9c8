// SPDX-License-Identifier: MIT
//! Where a word is cut: at its dashes, its equals sign, its first letter.
ghost use Rattle.std.specs.Prelude.{◌≡◌, ◌+◌, length, IfSome, option_map};
ghost use Rattle.imago_words.specs.Reading.{begins_number, behind_dash, cut_at, first_letter};

/// What stands before and behind the first equals sign.
pub(crate) fn cut_at_equals(text: &str) -> Option<(&str, &str)>
    ensures { option_map (λ x. (x.0.now, x.1.now)) result ≡ cut_at 61 text.now }
{
    text.split_once('=')
}

/// The first letter of a text, if it is ASCII, and what stands behind it.
#[tactic(auto, using(crate::proofs::ReadingSteps::none_is, crate::proofs::ReadingSteps::long_is))]
pub(crate) fn cut_letter(text: &str) -> Option<(&str, &str)>
    ensures parts { option_map (λ x. (x.0.now, x.1.now)) result ≡ first_letter text.now }
    ensures shorter { IfSome result (λ x. length x.1.now + 1 ≡ length text.now) }
{
    if text.is_empty() {
        return None;
    }
    let bytes = text.as_bytes();
    if bytes[0] >= 128 {
        return None;
    }
    text.split_at_checked(1)
}

/// What stands behind the dash that a text begins with.
pub(crate) fn cut_dash(text: &str) -> Option<&str>
    ensures { option_map (λ r. r.now) result ≡ behind_dash text.now }
{
    match cut_letter(text) {
        Some(("-", rest)) => Some(rest),
        _ => None,
    }
}

/// Whether a text begins with a digit.
pub(crate) fn begins_number(text: &[u8]) -> bool
    ensures { result ≡ begins_number text.now }
{
    match text.split_first() {
        Some((first, _)) => 47 < *first && *first < 58,
        None => false,
    }
}
