//! The command by which the words are taken apart.
ghost use Rattle.std.specs.Prelude.{◌≡◌, IfOk, false};
ghost use Rattle.clap.specs.Words.{app_of, rule_of};
ghost use Rattle.run_words.specs.Words.{json_rule, mode_rule, option_rule, words_app};

use clap::{Arg, ArgAction, Command};
use std::alloc::{AllocError, Global};

fn mode_arg<'a>(alloc: Global) -> Arg<'a>
    ensures rule { rule_of result ≡ mode_rule }
    ensures local { result.global ≡ false }
{
    Arg::new(alloc, "mode").required(true)
}

fn json_arg<'a>(alloc: Global) -> Arg<'a>
    ensures rule { rule_of result ≡ json_rule }
    ensures local { result.global ≡ false }
{
    Arg::new(alloc, "json")
        .long("json")
        .action(ArgAction::SetTrue)
}

// An option with one value.
fn option_arg<'a>(alloc: Global, name: &'a str) -> Arg<'a>
    ensures rule { rule_of result ≡ option_rule name.entry.now }
    ensures local { result.global ≡ false }
{
    Arg::new(alloc, name).long(name)
}

// The command: a mode, a flag, and three options.
pub fn command<'a>(alloc: Global) -> Result<Command<'a>, AllocError>
    ensures { IfOk result (λ c. app_of c ≡ words_app) }
{
    Command::new(alloc, "run")
        .no_binary_name(true)
        .disable_help_flag(true)
        .arg(mode_arg(alloc))?
        .arg(json_arg(alloc))?
        .arg(option_arg(alloc, "workers"))?
        .arg(option_arg(alloc, "count"))?
        .arg(option_arg(alloc, "number"))
}
