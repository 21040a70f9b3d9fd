// Writing a transfer in its canonical text.
ghost use Rattle.std.specs.Prelude.{◌≡◌, ◌≤◌, ◌++◌, ◌∷◌, [], OnOk, OnErr, IsOk, length, map, codes};
ghost use Rattle.ports.specs.Faults.{NoReadFell, Rose, CountsStay};
ghost use Rattle.ports.specs.Files.{Puts, Gained, OthersStay, bytes_of};
ghost use Rattle.ports.specs.Rooms.{HasRoom};
ghost use Rattle.file_pages.specs.Writing.{sight, Wrote};
ghost use Rattle.itf_reader.specs.Layouts.{form_of};
ghost use Rattle.itf_reader.specs.Views.{transfer_of};
ghost use Rattle.table_layout.specs.Valid.{IsValid};
ghost use Rattle.table_layout.specs.Values.{layout_view};
ghost use Rattle.itf_writer.specs.Canonical.{canon_text};

use super::lines::{put_line, put_named};
use super::tables::put_tables;
use file_pages::{Page, finish, put};
use itf_lines::LineWord;
use itf_reader::Transfer;
use ports::{Failed, Shelf};
use table_layout::Layout;

// Puts the whole text.
fn put_text<S: Shelf>(
    shelf: &mut S,
    name: &str,
    page: &mut Page,
    layout: &Layout,
    transfer: &Transfer,
)
    requires { IsValid (layout_view layout.now) }
    ensures { Wrote name.now (canon_text layout.now.codes.continued
        (form_of (layout_view layout.now)) (transfer_of transfer.now))
        (sight (S.held shelf.old) (S.space shelf.old name.now) (S.read_faults shelf.old)
        (S.write_faults shelf.old)) page.old
        (sight (S.held shelf.new) (S.space shelf.new name.now) (S.read_faults shelf.new)
        (S.write_faults shelf.new)) page.new }
{
    let code = layout.codes.continued;
    put(shelf, name, page, b"SCNT\n////\n");
    put_line(shelf, name, page, code, LineWord::Mtid, &[]);
    put_named(
        shelf,
        name,
        page,
        code,
        LineWord::Modl,
        layout.model.bytes(),
    );
    put_tables(
        shelf,
        name,
        page,
        code,
        &layout.topics,
        &layout.tables,
        &transfer.tables,
    );
    put_line(shelf, name, page, code, LineWord::Emod, &[]);
    put_line(shelf, name, page, code, LineWord::Ende, &[]);
}

/// Appends the canonical text of a transfer to the file of that name, makes the file if there is
/// none, and changes no other file. It takes no memory. What it means that the text is read again,
/// `canonical_text_is_read` says: of a transfer that was read, where the continue code is not T.
pub fn write_transfer<S: Shelf>(
    layout: &Layout,
    transfer: &Transfer,
    shelf: &mut S,
    name: &str,
) -> Result<(), Failed>
    requires { IsValid (layout_view layout.now) }
    // The file gained exactly the text.
    ensures done { OnOk result (Puts (S.held shelf.old) name.now
        (λ file. bytes_of file ++ canon_text layout.now.codes.continued
        (form_of (layout_view layout.now)) (transfer_of transfer.now)) (S.held shelf.new)) }
    // After a failure it gained at most a front of the text.
    ensures failed { OnErr result (Gained (S.held shelf.old) name.now
        (canon_text layout.now.codes.continued (form_of (layout_view layout.now))
        (transfer_of transfer.now)) (S.held shelf.new)) }
    ensures others { OthersStay (S.held shelf.old) name.now (S.held shelf.new) }
    ensures reads { NoReadFell (S.read_faults shelf.old) (S.read_faults shelf.new) }
    ensures writes { S.write_faults shelf.old ≤ S.write_faults shelf.new }
    // It fails only where a write failed.
    ensures cause { OnErr result (Rose (S.write_faults shelf.old) (S.write_faults shelf.new)) }
    // Where the file has room for the text it does not fail, and then no count moved.
    ensures answers { HasRoom (length (canon_text layout.now.codes.continued
        (form_of (layout_view layout.now)) (transfer_of transfer.now)))
        (S.space shelf.old name.now) → IsOk result }
    ensures uncounted { OnOk result (CountsStay (S.read_faults shelf.old) (S.write_faults shelf.old)
        (S.read_faults shelf.new) (S.write_faults shelf.new)) }
{
    let mut page = Page::new();
    put_text(shelf, name, &mut page, layout, transfer);
    finish(shelf, name, page)
}
