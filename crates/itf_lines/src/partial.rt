// A logical line whose fields are still being added.
ghost use Rattle.std.specs.Prelude.{◌≡◌, [], ◌∷◌, OnOk};
ghost use Rattle.itf_lines.specs.Fields.{fields};
ghost use Rattle.itf_lines.specs.Pass.{open_line_view, no_fields, with_word, with_others};
ghost use Rattle.itf_lines.specs.Pass.{with_fields, line_in, any_line};
ghost use Rattle.itf_lines.specs.Views.{line_view};
ghost use Rattle.itf_lines.specs.Feeds.{line_if};

use super::cut::{skip_blanks, split_field, split_front};
use super::field::Field;
use super::logical::Line;
use super::word::{LineWord, word_of};
use ports::Memory;
use std::alloc::Global;

/// The fields of a logical line so far. The first one gives its word.
#[derive(Drop)]
pub struct PartialLine {
    number: u32,
    word: Option<LineWord>,
    fields: Vec<Field>,
}

impl PartialLine {
    /// A line without fields.
    pub fn new(alloc: Global) -> PartialLine {
        PartialLine {
            number: 0,
            word: None,
            fields: Vec::new(alloc),
        }
    }

    /// Begins a line of that number. The room of the fields before stays.
    pub fn restart(&mut self, number: u32)
        ensures { open_line_view self.new ≡ no_fields number }
    {
        self.number = number;
        self.word = None;
        self.fields.clear();
    }

    /// Begins a line of that number with that word.
    pub fn begin(&mut self, number: u32, word: LineWord)
        ensures { open_line_view self.new ≡ with_word number word }
    {
        self.number = number;
        self.word = Some(word);
        self.fields.clear();
    }

    // Adds a field after the word, which is filled where it lies.
    fn add_other(&mut self, alloc: Global, field: &[u8]) -> Result<(), Memory>
        ensures { OnOk result (open_line_view self.new
            ≡ with_others (open_line_view self.old) (field.now ∷ [])) }
    {
        self.fields.push(Field::empty())?;
        let last = self.fields.len() - 1;
        self.fields[last].set(alloc, field)
    }

    /// Adds the fields of a text after the word.
    pub fn add_others(&mut self, alloc: Global, text: &[u8]) -> Result<(), Memory>
        ensures { OnOk result
            (open_line_view self.new ≡ with_others (open_line_view self.old) (fields text.now)) }
    {
        let mut rest = skip_blanks(text);
        while !rest.is_empty() {
            let (field, others) = split_front(rest);
            self.add_other(alloc, field)?;
            rest = skip_blanks(others);
        }
        Ok(())
    }

    /// Adds the fields of a text.
    #[tactic(auto, using(crate::proofs::Gathering::others, crate::proofs::Gathering::word_first))]
    pub fn add_all(&mut self, alloc: Global, text: &[u8]) -> Result<(), Memory>
        ensures { OnOk result
            (open_line_view self.new ≡ with_fields (open_line_view self.old) (fields text.now)) }
    {
        if self.word.is_some() {
            return self.add_others(alloc, text);
        }
        let Some((field, others)) = split_field(text) else {
            return Ok(());
        };
        self.word = Some(word_of(field));
        self.add_others(alloc, others)
    }

    /// Moves the line into `line`, also where it has no field; its word is then `Other`.
    pub fn move_any_into(&mut self, line: &mut Line)
        ensures { line_view line.new ≡ any_line (open_line_view self.old) }
    {
        line.number = self.number;
        line.word = self.word.unwrap_or(LineWord::Other);
        std::mem::swap(&mut line.fields, &mut self.fields);
    }

    /// Moves the line into `line`; false where it has no field.
    pub fn move_into(&mut self, line: &mut Line) -> bool
        ensures { line_if result (line_view line.new) ≡ line_in (open_line_view self.old) }
    {
        let has_field = self.word.is_some();
        self.move_any_into(line);
        has_field
    }
}
