//! The command whose words these are.
ghost use Rattle.std.specs.Prelude.{◌≡◌, false, IfOk};
ghost use Rattle.clap.specs.Words.{app_of, rule_of};
ghost use Rattle.program_words.specs.Words.{command, flag, option};

use clap::{Arg, ArgAction, Command};
use std::alloc::{AllocError, Global};

/// The command, as clap takes it.
pub(crate) fn command<'a>(alloc: Global) -> Result<Command<'a>, AllocError>
    ensures { IfOk result (λ made. app_of made ≡ command) }
{
    Command::new(alloc, "wpinq")
        .no_binary_name(true)
        .disable_help_flag(true)
        .arg(flag(alloc, "curator"))?
        .arg(option(alloc, "demo"))?
        .arg(option(alloc, "max-bytes"))
}

/// An argument that is there or not.
fn flag<'a>(alloc: Global, name: &'a str) -> Arg<'a>
    ensures rule { rule_of result ≡ flag name.now }
    ensures local { result.global ≡ false }
{
    Arg::new(alloc, name).long(name).action(ArgAction::SetTrue)
}

/// An argument with one value, whose form is tested once clap has read it: clap's own numbers may have
/// signs and leading zeros.
fn option<'a>(alloc: Global, name: &'a str) -> Arg<'a>
    ensures rule { rule_of result ≡ option name.now }
    ensures local { result.global ≡ false }
{
    Arg::new(alloc, name).long(name).action(ArgAction::Set)
}
