// SPDX-License-Identifier: MIT
//! Command lines, computed from their words on. Nothing calls these functions: their contracts are
//! what is proved.
ghost use Rattle.std.specs.Prelude.{◌≡◌, ◌∷◌, [], IfErr, IfOk, IsErr, codes, map, string_bytes};
ghost use Rattle.std.specs.Prelude.{true};
ghost use Rattle.imago_words.specs.declared.fault.Fault.TheVariants.{Memory};
ghost use Rattle.imago_words.specs.Laws.{IsWorked, options_differ, refused_line, worked_line};
ghost use Rattle.imago_words.specs.Line.{status_of};
ghost use Rattle.imago_words.specs.Options.{options_of};

use crate::command::Command;
use crate::kind::Kind;
use crate::refusal::Refusal;
use std::alloc::Global;

/// `convert -pfqcow2 a --tables=1G --force -1` converts `a`, a qcow2 image, to `-1`. It is
/// refused only if memory is.
pub fn convert_is_read<'a>(alloc: Global, words: &'a [String]) -> Result<Command<'a>, Refusal<'a>>
    requires { map string_bytes words.now ≡ worked_line }
    ensures ok { IfOk result (λ command. IsWorked command) }
    ensures err { IfErr result (λ refusal. refusal.fault ≡ Memory) }
{
    Command::read(alloc, words)
}

/// No two options of a command have the same letter, name or key.
pub fn options_differ(kind: Kind)
    ensures { options_differ (options_of kind) ≡ true }
{
    let _ = kind;
}

/// `compare -q a b --force` is refused, with status 2: `compare` has no such option.
pub fn compare_is_refused<'a>(
    alloc: Global,
    words: &'a [String],
) -> Result<Command<'a>, Refusal<'a>>
    requires { map string_bytes words.now ≡ refused_line }
    ensures refused { IsErr result }
    ensures status { IfErr result (λ refusal. status_of refusal ≡ 2) }
{
    Command::read(alloc, words)
}
