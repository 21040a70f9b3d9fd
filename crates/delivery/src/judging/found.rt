// What is wrong with the rows of a table.
ghost use Rattle.std.specs.Prelude.{◌≡◌, [], IfOk, OnOk};
ghost use Rattle.ili_grammar.specs.Syntax.{Codes as GivenCodes};
ghost use Rattle.ili_grammar.specs.Values.{codes_of};
ghost use Rattle.table_layout.specs.Values.{table_view};
ghost use Rattle.itf_reader.specs.Few.{HasFew};
ghost use Rattle.itf_reader.specs.Views.{row_of};
ghost use Rattle.delivery.specs.KeptRows.{rows_found, with_found};
ghost use Rattle.delivery.specs.KeptViews.{AreReadAs, found_of};

use ili_grammar::Codes;
use itf_reader::{Finding, Row, RowReader, RowValues};
use ports::Memory;
use std::alloc::Global;
use table_layout::Table;

/// How the rows of a table are read, and their findings.
#[derive(Drop)]
pub struct TableFound<'a> {
    pub reader: RowReader<'a>,
    pub found: Vec<Finding>,
}

impl<'a> TableFound<'a> {
    /// No row.
    pub fn new(alloc: Global, table: &'a Table) -> Result<TableFound<'a>, Memory>
        requires { HasFew (table_view table.now) }
        ensures { IfOk result (λ f. (codes : GivenCodes)
            → found_of f ≡ rows_found codes (table_view table.now) []) }
    {
        let reader = RowReader::new(alloc, table)?;
        Ok(TableFound {
            reader,
            found: Vec::new(alloc),
        })
    }

    /// Reads a row, and adds what is wrong with it.
    pub fn add_row(
        &mut self,
        codes: &Codes,
        row: &Row,
        values: &mut RowValues,
    ) -> Result<(), Memory>
        ensures found { OnOk result (found_of self.new ≡ with_found (codes_of codes.now)
            (row_of row.now) (found_of self.old)) }
        ensures read { OnOk result (AreReadAs (codes_of codes.now) (found_of self.old).table
            (row_of row.now) values.new) }
    {
        self.reader.read(codes, row, values, &mut self.found)?;
        Ok(())
    }
}
