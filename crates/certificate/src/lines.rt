// The parts of a line, put into the page of a file.
ghost use Rattle.std.specs.Prelude.{◌++◌, codes};
ghost use Rattle.std.specs.Fmt.{decimal};
ghost use Rattle.file_pages.specs.Writing.{sight, Wrote};
ghost use Rattle.certificate.specs.Spelling.{bent_word, link_word, side_word};
ghost use Rattle.certificate.specs.Words.{next_word, note_words};

use crate::notes::{HalfNote, Link};
use file_pages::{Page, put, put_byte};
use itoa::Buffer;
use ports::Shelf;

/// Puts a blank and a word.
pub fn put_word<S: Shelf>(shelf: &mut S, name: &str, page: &mut Page, word: &[u8])
    ensures { Wrote name.now (next_word word.now)
        (sight (S.held shelf.old) (S.space shelf.old name.now) (S.read_faults shelf.old)
        (S.write_faults shelf.old)) page.old
        (sight (S.held shelf.new) (S.space shelf.new name.now) (S.read_faults shelf.new)
        (S.write_faults shelf.new)) page.new }
{
    put_byte(shelf, name, page, b' ');
    put(shelf, name, page, word);
}

// Puts the digits of a number.
fn put_digits<S: Shelf>(shelf: &mut S, name: &str, page: &mut Page, number: u64)
    ensures { Wrote name.now (decimal number)
        (sight (S.held shelf.old) (S.space shelf.old name.now) (S.read_faults shelf.old)
        (S.write_faults shelf.old)) page.old
        (sight (S.held shelf.new) (S.space shelf.new name.now) (S.read_faults shelf.new)
        (S.write_faults shelf.new)) page.new }
{
    if number < 10 {
        put_byte(shelf, name, page, b'0' + number as u8);
        return;
    }
    let mut digits = Buffer::new();
    put(shelf, name, page, digits.format(number).as_bytes());
}

/// Puts a blank and a number in decimal.
pub fn put_number<S: Shelf>(shelf: &mut S, name: &str, page: &mut Page, number: u64)
    ensures { Wrote name.now (next_word (decimal number))
        (sight (S.held shelf.old) (S.space shelf.old name.now) (S.read_faults shelf.old)
        (S.write_faults shelf.old)) page.old
        (sight (S.held shelf.new) (S.space shelf.new name.now) (S.read_faults shelf.new)
        (S.write_faults shelf.new)) page.new }
{
    put_byte(shelf, name, page, b' ');
    put_digits(shelf, name, page, number);
}

// Puts a blank, `C` and the number of a half-edge.
fn put_across<S: Shelf>(shelf: &mut S, name: &str, page: &mut Page, half: u32)
    ensures { Wrote name.now (next_word (codes "C" ++ decimal half))
        (sight (S.held shelf.old) (S.space shelf.old name.now) (S.read_faults shelf.old)
        (S.write_faults shelf.old)) page.old
        (sight (S.held shelf.new) (S.space shelf.new name.now) (S.read_faults shelf.new)
        (S.write_faults shelf.new)) page.new }
{
    put(shelf, name, page, b" C");
    put_digits(shelf, name, page, u64::from(half));
}

// Puts a blank and the word of a link.
fn put_link<S: Shelf>(shelf: &mut S, name: &str, page: &mut Page, link: Link)
    ensures { Wrote name.now (next_word (link_word link))
        (sight (S.held shelf.old) (S.space shelf.old name.now) (S.read_faults shelf.old)
        (S.write_faults shelf.old)) page.old
        (sight (S.held shelf.new) (S.space shelf.new name.now) (S.read_faults shelf.new)
        (S.write_faults shelf.new)) page.new }
{
    match link {
        Link::Root => put(shelf, name, page, b" R"),
        Link::Next => put(shelf, name, page, b" N"),
        Link::Prev => put(shelf, name, page, b" P"),
        Link::Across(half) => put_across(shelf, name, page, half),
    }
}

/// Puts the words of a note, a blank before each.
pub fn put_note<S: Shelf>(shelf: &mut S, name: &str, page: &mut Page, note: &HalfNote)
    ensures { Wrote name.now (note_words note.now)
        (sight (S.held shelf.old) (S.space shelf.old name.now) (S.read_faults shelf.old)
        (S.write_faults shelf.old)) page.old
        (sight (S.held shelf.new) (S.space shelf.new name.now) (S.read_faults shelf.new)
        (S.write_faults shelf.new)) page.new }
{
    put_number(shelf, name, page, u64::from(note.label));
    put_link(shelf, name, page, note.link);
    put_number(shelf, name, page, u64::from(note.rank));
}

/// Puts a blank and the word of a side.
pub fn put_side<S: Shelf>(shelf: &mut S, name: &str, page: &mut Page, inside: bool)
    ensures { Wrote name.now (next_word (side_word inside))
        (sight (S.held shelf.old) (S.space shelf.old name.now) (S.read_faults shelf.old)
        (S.write_faults shelf.old)) page.old
        (sight (S.held shelf.new) (S.space shelf.new name.now) (S.read_faults shelf.new)
        (S.write_faults shelf.new)) page.new }
{
    if inside {
        put(shelf, name, page, b" I");
    } else {
        put(shelf, name, page, b" O");
    }
}

/// Puts a blank and the word that says whether a certificate is of the bent drawing.
pub fn put_bent<S: Shelf>(shelf: &mut S, name: &str, page: &mut Page, bent: bool)
    ensures { Wrote name.now (next_word (bent_word bent))
        (sight (S.held shelf.old) (S.space shelf.old name.now) (S.read_faults shelf.old)
        (S.write_faults shelf.old)) page.old
        (sight (S.held shelf.new) (S.space shelf.new name.now) (S.read_faults shelf.new)
        (S.write_faults shelf.new)) page.new }
{
    if bent {
        put(shelf, name, page, b" 1");
    } else {
        put(shelf, name, page, b" 0");
    }
}

/// Puts the end of a line.
pub fn put_end<S: Shelf>(shelf: &mut S, name: &str, page: &mut Page)
    ensures { Wrote name.now (codes "\n")
        (sight (S.held shelf.old) (S.space shelf.old name.now) (S.read_faults shelf.old)
        (S.write_faults shelf.old)) page.old
        (sight (S.held shelf.new) (S.space shelf.new name.now) (S.read_faults shelf.new)
        (S.write_faults shelf.new)) page.new }
{
    put_byte(shelf, name, page, b'\n');
}
