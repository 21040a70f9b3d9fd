// The words of the command line.
ghost use Rattle.std.specs.Prelude.{◌≡◌, IfSome, IfNone, List, ℕ};
ghost use Rattle.commands.specs.Commands.{FileNames as AnyNames, is_file_name};
ghost use Rattle.commands.specs.Commands.{IsSpelled, IsCompile, IsCommand, IsUsage, verb_word};
ghost use Rattle.commands.specs.CommandViews.{names_of, command_of as command_view};
ghost use Rattle.commands.specs.declared.command.Verb.{Verb as AnyVerb};

use crate::trial::{TrialWords, trial_of};
use crate::word::Word;

/// The names of the model, of the transfer, and of a third file, which the verb reads or writes.
#[derive(Clone, Copy)]
pub struct FileNames<'a> {
    pub model: &'a str,
    pub transfer: &'a str,
    pub third: &'a str,
}

/// What is done with a model, a transfer and a third file.
#[derive(Clone, Copy)]
pub enum Verb {
    /// `check M T C`: the certificates are written to their file.
    Check,
    /// `verify M T C`: the certificates are read from their file.
    Verify,
    /// `polygons M T P`: the polygons of the areas are written to their file.
    Polygons,
    /// `canonical M T O`: the transfer is written to a file in its canonical text.
    Canonical,
    /// `points M T L`: the links are read from their file.
    Points,
}

/// What the words ask for.
#[derive(Clone, Copy)]
pub enum Command<'a> {
    /// `compile M`: the name of the model.
    Compile(&'a str),
    /// A command on three files.
    OnFiles(Verb, FileNames<'a>),
    /// `trial N C`: the files are made, and the certificates written to their file.
    Trial(TrialWords<'a>),
}

/// A name of a file is not empty and does not begin with a minus.
pub fn is_file_name(name: &str) -> bool
    ensures { result ≡ is_file_name name.now }
{
    match name.as_bytes() {
        [first, ..] => *first != b'-',
        [] => false,
    }
}

// The model that the words ask to compile, if they do.
fn compile_of(words: &[Word]) -> Option<&str>
    ensures some { IfSome result (λ model. IsCompile words.now model.now) }
    ensures none { IfNone result ((model : List ℕ) → IsCompile words.now model → ⊥) }
{
    let [command, model] = words else {
        return None;
    };
    let model = model.text();
    if command.text() == "compile" && is_file_name(model) {
        Some(model)
    } else {
        None
    }
}

// The verb that a word is.
fn verb_of(word: &str) -> Option<Verb>
    ensures some { IfSome result (λ verb. word.now ≡ verb_word verb) }
    ensures none { IfNone result ((verb : AnyVerb) → word.now ≡ verb_word verb → ⊥) }
{
    if word == "check" {
        return Some(Verb::Check);
    }
    if word == "verify" {
        return Some(Verb::Verify);
    }
    if word == "polygons" {
        return Some(Verb::Polygons);
    }
    if word == "canonical" {
        return Some(Verb::Canonical);
    }
    if word == "points" {
        return Some(Verb::Points);
    }
    None
}

// The files that the words name after their verb, if they do.
fn files_of(words: &[Word]) -> Option<(Verb, FileNames<'_>)>
    ensures some { IfSome result (λ found. IsSpelled (verb_word found.0) words.now
        (names_of found.1)) }
    ensures none { IfNone result ((verb : AnyVerb) (c : AnyNames)
        → IsSpelled (verb_word verb) words.now c → ⊥) }
{
    let [command, model, transfer, third] = words else {
        return None;
    };
    let names = FileNames {
        model: model.text(),
        transfer: transfer.text(),
        third: third.text(),
    };
    let verb = verb_of(command.text())?;
    if is_file_name(names.model) && is_file_name(names.transfer) && is_file_name(names.third) {
        Some((verb, names))
    } else {
        None
    }
}

/// The command that the words spell; none where they have no right form.
pub fn command_of(words: &[Word]) -> Option<Command<'_>>
    ensures command { IfSome result (λ command. IsCommand words.now (command_view command)) }
    ensures usage { IfNone result (IsUsage words.now) }
{
    if let Some((verb, names)) = files_of(words) {
        return Some(Command::OnFiles(verb, names));
    }
    if let Some(trial) = trial_of(words) {
        return Some(Command::Trial(trial));
    }
    match compile_of(words) {
        Some(model) => Some(Command::Compile(model)),
        None => None,
    }
}
