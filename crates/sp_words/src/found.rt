// The texts of the options, as `clap` finds them.
ghost use Rattle.std.specs.Prelude.{◌≡◌, map, List, [], false, IfOk, IfErr, string_bytes, codes};
ghost use Rattle.std.specs.List.{list_any};
ghost use Rattle.clap.specs.Words.{app_of, kind_of, rule_of};
ghost use Rattle.sp_words.specs.Words.{Text, Spells, AreNewOptions, names_for};
ghost use Rattle.sp_words.specs.Found.{ArePlain, HasTexts, is_dashes, plain_rule, program};

use clap::error::ErrorKind;
use clap::{Arg, ArgAction, Command, Error};
use std::alloc::{AllocError, Global};

/// The texts that stand with the options.
#[derive(Clone, Copy)]
pub(crate) struct Texts<'a> {
    pub workers: Option<&'a str>,
    pub limit: Option<&'a str>,
    pub generate: Option<&'a str>,
}

/// Whether one of the words is two dashes and no more.
pub(crate) fn has_dashes(words: &[String]) -> bool
    ensures { result ≡ list_any (λ word. is_dashes (string_bytes word)) words.now }
{
    words.iter().any(|word| word.as_str() == "--")
}

/// The texts with which the words name options.
pub(crate) fn texts_of<'a>(
    alloc: Global,
    words: &'a [String],
    many: bool,
) -> Result<Texts<'a>, Error>
    requires { list_any (λ word. is_dashes (string_bytes word)) words.now ≡ false }
    ensures found { IfOk result (λ texts. (options : List (Text × Text)) ×
        Spells (map string_bytes words.now) options × AreNewOptions (names_for many) [] options
        × HasTexts texts options) }
    ensures only { IfOk result (λ texts. (options : List (Text × Text)) →
        Spells (map string_bytes words.now) options → AreNewOptions (names_for many) [] options →
        ArePlain options → HasTexts texts options) }
    ensures fails { IfErr result (λ error. (options : List (Text × Text)) →
        Spells (map string_bytes words.now) options → AreNewOptions (names_for many) [] options →
        ArePlain options → kind_of error ≡ ErrorKind.OutOfMemory) }
{
    let matches = command(alloc, many)?.try_get_matches_from(words)?;
    Ok(Texts {
        workers: matches.get_str("workers"),
        limit: matches.get_str("limit"),
        generate: matches.get_str("generate"),
    })
}

/// The command of the options alone: a call for help is refused as any other word.
fn command<'a>(alloc: Global, many: bool) -> Result<Command<'a>, AllocError>
    ensures { IfOk result (λ command. app_of command ≡ program (names_for many)) }
{
    let shared = shared_command(alloc)?;
    if many {
        shared.arg(option(alloc, "workers"))
    } else {
        Ok(shared)
    }
}

/// The command of the options that both programs take.
fn shared_command<'a>(alloc: Global) -> Result<Command<'a>, AllocError>
    ensures { IfOk result (λ command. app_of command ≡ program (names_for false)) }
{
    Command::new(alloc, "specht")
        .no_binary_name(true)
        .disable_help_flag(true)
        .arg(option(alloc, "limit"))?
        .arg(option(alloc, "generate"))
}

fn option<'a>(alloc: Global, name: &'a str) -> Arg<'a>
    ensures rule { rule_of result ≡ plain_rule name.entry.now }
    ensures local { result.global ≡ false }
{
    Arg::new(alloc, name).long(name).action(ArgAction::Set)
}
