// The words of a trial.
ghost use Rattle.std.specs.Prelude.{◌≡◌, ℕ, List, IfSome, IfNone};
ghost use Rattle.commands.specs.Commands.{IsTrial};

use super::size_of;
use crate::command::is_file_name;
use crate::word::Word;

/// What a trial is asked for: how many cells a side has, and the name of the file of the
/// certificates.
#[derive(Clone, Copy)]
pub struct TrialWords<'a> {
    pub size: u32,
    pub certificate: &'a str,
}

/// The trial that the words ask for, if they do.
pub fn trial_of(words: &[Word]) -> Option<TrialWords<'_>>
    ensures some { IfSome result (λ trial. IsTrial words.now trial.size trial.certificate.now) }
    ensures none { IfNone result ((size : ℕ) (certificate : List ℕ)
        → IsTrial words.now size certificate → ⊥) }
{
    let [command, size, certificate] = words else {
        return None;
    };
    let certificate = certificate.text();
    if command.text() != "trial" || !is_file_name(certificate) {
        return None;
    }
    match size_of(size.text()) {
        Some(size) => Some(TrialWords { size, certificate }),
        None => None,
    }
}

/// Words ask for one trial at most.
pub fn one_trial()
    ensures { (words : List (List ℕ)) (m n : ℕ) (a b : List ℕ)
        → IsTrial words m a → IsTrial words n b → (m ≡ n) × (a ≡ b) }
{}
