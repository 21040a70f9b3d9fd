// The three files that the words name.
ghost use Rattle.std.specs.Prelude.{IfSome, IfNone};
ghost use Rattle.commands.specs.Commands.{FileNames as AnyNames};
ghost use Rattle.commands.specs.CommandViews.{names_of};
ghost use Rattle.itffaults.specs.Faults.{AreNames};

use commands::{FileNames, Word, is_file_name};

/// The model, the transfer and the file of faults that the words name; none where they have no
/// right form.
pub fn file_names(words: &[Word]) -> Option<FileNames<'_>>
    ensures some { IfSome result (λ names. AreNames words.now (names_of names)) }
    ensures none { IfNone result ((names : AnyNames) → AreNames words.now names → ⊥) }
{
    let [model, transfer, third] = words else {
        return None;
    };
    let names = FileNames {
        model: model.text(),
        transfer: transfer.text(),
        third: third.text(),
    };
    if is_file_name(names.model) && is_file_name(names.transfer) && is_file_name(names.third) {
        Some(names)
    } else {
        None
    }
}
