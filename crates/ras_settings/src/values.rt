ghost use Rattle.std.specs.Prelude.{◌≡◌, false, IfOk, IfErr, List, ℕ, map};
ghost use Rattle.clap.specs.Words.{app_of, rule_of, found_of, kind_of};
ghost use Rattle.std.specs.String.{string_bytes};
ghost use Rattle.ras_settings.specs.App.{name_rule, option_rule, words_app};
ghost use Rattle.ras_settings.specs.Form.{Given, HasForm, HasSomeForm};
ghost use Rattle.ras_settings.specs.Values.{AreValues, Finds};

use clap::error::ErrorKind;
use clap::{Arg, ArgAction, ArgMatches, Command, Error};
use std::alloc::{AllocError, Global};

/// The command's name and the values of its options, each as a text.
#[derive(Clone, Copy)]
pub(crate) struct Values<'a> {
    pub(crate) command: &'a str,
    pub(crate) workers: Option<&'a str>,
    pub(crate) schedule: Option<&'a str>,
    pub(crate) seed: Option<&'a str>,
    pub(crate) size: Option<&'a str>,
}

/// The command's name, a word of its own.
fn name_arg<'a>(alloc: Global) -> Arg<'a>
    ensures rule { rule_of result ≡ name_rule }
    ensures own { result.global ≡ false }
{
    Arg::new(alloc, "command")
        .required(true)
        .action(ArgAction::Set)
}

/// An option that takes one value.
fn option_arg<'a>(alloc: Global, name: &'a str) -> Arg<'a>
    ensures rule { rule_of result ≡ option_rule name.entry.now }
    ensures own { result.global ≡ false }
{
    Arg::new(alloc, name).long(name).action(ArgAction::Set)
}

/// One simple command: a required name and four options that each take one value.
fn simple_command<'a>(alloc: Global) -> Result<Command<'a>, AllocError>
    ensures { IfOk result (λ command. app_of command ≡ words_app) }
{
    let bare = Command::new(alloc, "rasq")
        .no_binary_name(true)
        .disable_help_flag(true);
    bare.arg(name_arg(alloc))?
        .arg(option_arg(alloc, "workers"))?
        .arg(option_arg(alloc, "schedule"))?
        .arg(option_arg(alloc, "seed"))?
        .arg(option_arg(alloc, "size"))
}

/// Words of the form are parsed, and refused for want of memory alone.
fn parse<'a>(alloc: Global, words: &'a [String]) -> Result<ArgMatches<'a>, Error>
    requires { HasSomeForm (map string_bytes words.now) }
    ensures found { IfOk result (λ matches. (command : List ℕ) (given : Given)
        → HasForm (map string_bytes words.entry.now) command given → Finds (found_of matches) command given) }
    ensures refused { IfErr result (λ error. kind_of error ≡ ErrorKind.OutOfMemory) }
{
    let command = simple_command(alloc)?;
    command.try_get_matches_from(words)
}

/// The values of words of the form.
pub(crate) fn read_values<'a>(alloc: Global, words: &'a [String]) -> Result<Values<'a>, Error>
    requires { HasSomeForm (map string_bytes words.now) }
    ensures found { IfOk result (λ values. (command : List ℕ) (given : Given)
        → HasForm (map string_bytes words.entry.now) command given → AreValues values command given) }
    ensures refused { IfErr result (λ error. kind_of error ≡ ErrorKind.OutOfMemory) }
{
    let matches = parse(alloc, words)?;
    Ok(Values {
        command: matches.get_str("command").unwrap(),
        workers: matches.get_str("workers"),
        schedule: matches.get_str("schedule"),
        seed: matches.get_str("seed"),
        size: matches.get_str("size"),
    })
}
