//! The command as `clap` sees it, and what it finds in the words.
ghost use Rattle.std.specs.Prelude.{◌≡◌, ◌==◌, IfOk, IfErr, false, [], ◌∷◌, length, map};
ghost use Rattle.clap.specs.Words.{app_of, rule_of, found_of, rows_of, kind_of};
ghost use Rattle.command_line.specs.Faults.{Finds, fault_by_kind};
ghost use Rattle.command_line.specs.Parsing.{bounds_command, command_rule, files_rule, option_rule, brief_rule, given_in, found_rows, says_true};
ghost use Rattle.command_line.specs.declared.fault.UsageFault.TheVariants.{FileCount};
ghost use Rattle.command_line.specs.Tasks.{text_of};
ghost use Rattle.command_line.specs.Given.{meant_given, text_within};

use crate::{Name, UsageFault};
use clap::error::ErrorKind;
use clap::{Arg, ArgAction, ArgMatches, Command};
use std::alloc::{AllocError, Global};

/// What the words give, as text: the word of the command, the names of its files, the values of its options.
#[derive(Clone, Copy)]
pub(crate) struct Given<'a, 'm> {
    pub(crate) command: &'a str,
    pub(crate) files: Option<&'m [&'a str]>,
    pub(crate) kind: Option<&'a str>,
    pub(crate) form: Option<&'a str>,
    pub(crate) p: Option<&'a str>,
    pub(crate) k: Option<&'a str>,
    pub(crate) frame: Option<&'a str>,
    pub(crate) seed: Option<&'a str>,
    pub(crate) count: Option<&'a str>,
    pub(crate) brief: bool,
}

impl<'a, 'm> Given<'a, 'm> {
    /// What was found in the words. The word of the command is required, so it is there.
    pub(crate) fn of(matches: &'m ArgMatches<'a>) -> Given<'a, 'm>
        ensures { meant_given result ≡ given_in (rows_of (found_of matches.entry.now)) }
    {
        Given {
            command: matches.get_str("command").unwrap_or(""),
            files: matches.get_strs("files"),
            kind: matches.get_str("kind"),
            form: matches.get_str("form"),
            p: matches.get_str("p"),
            k: matches.get_str("k"),
            frame: matches.get_str("box"),
            seed: matches.get_str("seed"),
            count: matches.get_str("count"),
            brief: is_set(matches.get_str("brief")),
        }
    }

    /// The file, where one is named and no other.
    pub(crate) fn one_file(&self) -> Result<Name<'a>, UsageFault>
        ensures name { IfOk result (λ name. (meant_given self.now).files ≡ text_of name ∷ []) }
        ensures count { IfErr result (λ fault. (fault ≡ FileCount) × ((length (meant_given self.now).files == 1) ≡ false)) }
    {
        match self.files {
            Some([file]) => Ok(Name::new(file)),
            _ => Err(UsageFault::FileCount),
        }
    }

    /// The two files, where two are named.
    pub(crate) fn two_files(&self) -> Result<(Name<'a>, Name<'a>), UsageFault>
        ensures names { IfOk result (λ names. (meant_given self.now).files ≡ text_of names.0 ∷ text_of names.1 ∷ []) }
        ensures count { IfErr result (λ fault. (fault ≡ FileCount) × ((length (meant_given self.now).files == 2) ≡ false)) }
    {
        match self.files {
            Some([first, second]) => Ok((Name::new(first), Name::new(second))),
            _ => Err(UsageFault::FileCount),
        }
    }

    /// Refuses a file.
    pub(crate) fn no_file(&self) -> Result<(), UsageFault>
        ensures none { IfOk result (λ _. (meant_given self.now).files ≡ []) }
        ensures count { IfErr result (λ fault. (fault ≡ FileCount) × ((length (meant_given self.now).files == 0) ≡ false)) }
    {
        match self.files {
            None | Some([]) => Ok(()),
            _ => Err(UsageFault::FileCount),
        }
    }
}

// A flag has the value `true` where it is given, and `false` where it is not.
fn is_set(flag: Option<&str>) -> bool
    ensures { result ≡ says_true (text_within flag.entry) }
{
    matches!(flag, Some("true"))
}

/// What is found in the words after the program's name, where they are those of a command with its options.
pub(crate) fn parse<'a>(alloc: Global, words: &'a [&'a str]) -> Result<ArgMatches<'a>, UsageFault>
    ensures { Finds (λ m. rows_of (found_of m)) result (found_rows (map (λ w. w.now) words.entry.now)) }
{
    match command(alloc)?.try_get_matches_from(words) {
        Ok(matches) => Ok(matches),
        Err(error) => Err(fault(error)),
    }
}

// Whatever else is wrong with the words, they are not understood.
fn fault(error: clap::Error) -> UsageFault
    ensures { result ≡ fault_by_kind (kind_of error) }
{
    match error.kind() {
        ErrorKind::OutOfMemory => UsageFault::OutOfMemory,
        _ => UsageFault::Words,
    }
}

/// All that may stand in the words: no help and no version.
fn command<'a>(alloc: Global) -> Result<Command<'a>, AllocError>
    ensures { IfOk result (λ c. app_of c ≡ bounds_command) }
{
    Command::new(alloc, "bounds")
        .no_binary_name(true)
        .disable_help_flag(true)
        .arg(word(alloc))?
        .arg(files(alloc))?
        .arg(option(alloc, "kind"))?
        .arg(option(alloc, "form"))?
        .arg(option(alloc, "p"))?
        .arg(option(alloc, "k"))?
        .arg(option(alloc, "box"))?
        .arg(option(alloc, "seed"))?
        .arg(option(alloc, "count"))?
        .arg(brief(alloc))
}

/// The word of the command.
fn word<'a>(alloc: Global) -> Arg<'a>
    ensures rule { rule_of result ≡ command_rule }
    ensures local { result.global ≡ false }
{
    Arg::new(alloc, "command").required(true)
}

/// The names of files, as many as there are.
fn files<'a>(alloc: Global) -> Arg<'a>
    ensures rule { rule_of result ≡ files_rule }
    ensures local { result.global ≡ false }
{
    Arg::new(alloc, "files").action(ArgAction::Append)
}

/// An option with one value.
fn option<'a>(alloc: Global, name: &'a str) -> Arg<'a>
    ensures rule { rule_of result ≡ option_rule name.entry.now }
    ensures local { result.global ≡ false }
{
    Arg::new(alloc, name).long(name)
}

/// The flag.
fn brief<'a>(alloc: Global) -> Arg<'a>
    ensures rule { rule_of result ≡ brief_rule }
    ensures local { result.global ≡ false }
{
    Arg::new(alloc, "brief")
        .long("brief")
        .action(ArgAction::SetTrue)
}
