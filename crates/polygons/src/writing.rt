// The text of the polygons of areas, put line by line into the page of a file.
ghost use Rattle.std.specs.Prelude.{◌≡◌, ◌≤◌, ◌++◌, ◌∷◌, [], IsOk, OnErr, OnOk, Some, codes};
ghost use Rattle.std.specs.Prelude.{length, map};
ghost use Rattle.std.specs.Fmt.{decimal, signed_decimal};
ghost use Rattle.std.specs.List.{flat_map};
ghost use Rattle.ports.specs.Faults.{CountsStay, NoReadFell, Rose};
ghost use Rattle.ports.specs.Files.{Gained, OthersStay, Puts, bytes_of};
ghost use Rattle.ports.specs.Rooms.{HasRoom};
ghost use Rattle.file_pages.specs.Writing.{Wrote, sight};
ghost use Rattle.polygons.specs.Leading.{shapes};
ghost use Rattle.polygons.specs.Text.{area_text, corner_line, next_word, object_text};
ghost use Rattle.polygons.specs.Text.{object_view, objects_view, polygons_text, rest_text};
ghost use Rattle.polygons.specs.Text.{ring_text, view, views};

use super::areas::{AreaObjects, AreaPolygons, ObjectPolygon};
use super::kinds::Ring;
use file_pages::{Page, finish, put, put_byte};
use itoa::Buffer;
use plane::Point;
use ports::{Failed, Shelf};

// Puts a whole number.
fn put_whole<S: Shelf>(shelf: &mut S, name: &str, page: &mut Page, number: i64)
    ensures { Wrote name.now (signed_decimal number)
        (sight (S.held shelf.old) (S.space shelf.old name.now) (S.read_faults shelf.old)
        (S.write_faults shelf.old)) page.old
        (sight (S.held shelf.new) (S.space shelf.new name.now) (S.read_faults shelf.new)
        (S.write_faults shelf.new)) page.new }
{
    let mut digits = Buffer::new();
    put(shelf, name, page, digits.format(number).as_bytes());
}

// Puts the digits of a count.
fn put_digits<S: Shelf>(shelf: &mut S, name: &str, page: &mut Page, count: u64)
    ensures { Wrote name.now (decimal count)
        (sight (S.held shelf.old) (S.space shelf.old name.now) (S.read_faults shelf.old)
        (S.write_faults shelf.old)) page.old
        (sight (S.held shelf.new) (S.space shelf.new name.now) (S.read_faults shelf.new)
        (S.write_faults shelf.new)) page.new }
{
    let mut digits = Buffer::new();
    put(shelf, name, page, digits.format(count).as_bytes());
}

// Puts a blank and a count.
fn put_count<S: Shelf>(shelf: &mut S, name: &str, page: &mut Page, count: u64)
    ensures { Wrote name.now (next_word (decimal count))
        (sight (S.held shelf.old) (S.space shelf.old name.now) (S.read_faults shelf.old)
        (S.write_faults shelf.old)) page.old
        (sight (S.held shelf.new) (S.space shelf.new name.now) (S.read_faults shelf.new)
        (S.write_faults shelf.new)) page.new }
{
    put_byte(shelf, name, page, b' ');
    put_digits(shelf, name, page, count);
}

// Puts a blank and a word.
fn put_word<S: Shelf>(shelf: &mut S, name: &str, page: &mut Page, word: &[u8])
    ensures { Wrote name.now (next_word word.now)
        (sight (S.held shelf.old) (S.space shelf.old name.now) (S.read_faults shelf.old)
        (S.write_faults shelf.old)) page.old
        (sight (S.held shelf.new) (S.space shelf.new name.now) (S.read_faults shelf.new)
        (S.write_faults shelf.new)) page.new }
{
    put_byte(shelf, name, page, b' ');
    put(shelf, name, page, word);
}

// Puts the end of a line.
fn put_end<S: Shelf>(shelf: &mut S, name: &str, page: &mut Page)
    ensures { Wrote name.now (codes "\n")
        (sight (S.held shelf.old) (S.space shelf.old name.now) (S.read_faults shelf.old)
        (S.write_faults shelf.old)) page.old
        (sight (S.held shelf.new) (S.space shelf.new name.now) (S.read_faults shelf.new)
        (S.write_faults shelf.new)) page.new }
{
    put_byte(shelf, name, page, b'\n');
}

// The line of a corner.
fn put_corner<S: Shelf>(shelf: &mut S, name: &str, page: &mut Page, corner: Point)
    ensures { Wrote name.now (corner_line corner)
        (sight (S.held shelf.old) (S.space shelf.old name.now) (S.read_faults shelf.old)
        (S.write_faults shelf.old)) page.old
        (sight (S.held shelf.new) (S.space shelf.new name.now) (S.read_faults shelf.new)
        (S.write_faults shelf.new)) page.new }
{
    put_whole(shelf, name, page, corner.x);
    put_byte(shelf, name, page, b' ');
    put_whole(shelf, name, page, corner.y);
    put_end(shelf, name, page);
}

// The lines of corners.
fn put_corners<S: Shelf>(shelf: &mut S, name: &str, page: &mut Page, corners: &[Point])
    ensures { Wrote name.now (flat_map corner_line corners.now)
        (sight (S.held shelf.old) (S.space shelf.old name.now) (S.read_faults shelf.old)
        (S.write_faults shelf.old)) page.old
        (sight (S.held shelf.new) (S.space shelf.new name.now) (S.read_faults shelf.new)
        (S.write_faults shelf.new)) page.new }
{
    for corner in corners {
        put_corner(shelf, name, page, *corner);
    }
}

// The lines of a ring.
fn put_ring<S: Shelf>(shelf: &mut S, name: &str, page: &mut Page, ring: &Ring)
    ensures { Wrote name.now (ring_text ring.now.corners.items)
        (sight (S.held shelf.old) (S.space shelf.old name.now) (S.read_faults shelf.old)
        (S.write_faults shelf.old)) page.old
        (sight (S.held shelf.new) (S.space shelf.new name.now) (S.read_faults shelf.new)
        (S.write_faults shelf.new)) page.new }
{
    put(shelf, name, page, b"RING");
    put_count(shelf, name, page, ring.corners.len() as u64);
    put_end(shelf, name, page);
    put_corners(shelf, name, page, &ring.corners);
}

// The lines of rings.
fn put_rings<S: Shelf>(shelf: &mut S, name: &str, page: &mut Page, rings: &[Ring])
    ensures { Wrote name.now (flat_map ring_text (shapes rings.now))
        (sight (S.held shelf.old) (S.space shelf.old name.now) (S.read_faults shelf.old)
        (S.write_faults shelf.old)) page.old
        (sight (S.held shelf.new) (S.space shelf.new name.now) (S.read_faults shelf.new)
        (S.write_faults shelf.new)) page.new }
{
    for ring in rings {
        put_ring(shelf, name, page, ring);
    }
}

// The lines of an object.
fn put_object<S: Shelf>(shelf: &mut S, name: &str, page: &mut Page, object: &ObjectPolygon)
    ensures { Wrote name.now (object_text (object_view object.now))
        (sight (S.held shelf.old) (S.space shelf.old name.now) (S.read_faults shelf.old)
        (S.write_faults shelf.old)) page.old
        (sight (S.held shelf.new) (S.space shelf.new name.now) (S.read_faults shelf.new)
        (S.write_faults shelf.new)) page.new }
{
    put(shelf, name, page, b"POINT");
    put_count(shelf, name, page, u64::from(object.line));
    put_count(shelf, name, page, object.polygon.rings.len() as u64);
    put_end(shelf, name, page);
    put_rings(shelf, name, page, &object.polygon.rings);
}

// The lines of objects.
fn put_objects<S: Shelf>(shelf: &mut S, name: &str, page: &mut Page, objects: &[ObjectPolygon])
    ensures { Wrote name.now (flat_map object_text (map object_view objects.now))
        (sight (S.held shelf.old) (S.space shelf.old name.now) (S.read_faults shelf.old)
        (S.write_faults shelf.old)) page.old
        (sight (S.held shelf.new) (S.space shelf.new name.now) (S.read_faults shelf.new)
        (S.write_faults shelf.new)) page.new }
{
    for object in objects {
        put_object(shelf, name, page, object);
    }
}

// The names of an area, without the end of their line.
fn put_names<S: Shelf>(shelf: &mut S, name: &str, page: &mut Page, area: &AreaPolygons)
    ensures { Wrote name.now (codes "AREA" ++ (next_word area.now.topic ++ (next_word area.now.table
        ++ next_word area.now.attribute)))
        (sight (S.held shelf.old) (S.space shelf.old name.now) (S.read_faults shelf.old)
        (S.write_faults shelf.old)) page.old
        (sight (S.held shelf.new) (S.space shelf.new name.now) (S.read_faults shelf.new)
        (S.write_faults shelf.new)) page.new }
{
    put(shelf, name, page, b"AREA");
    put_word(shelf, name, page, area.topic.bytes());
    put_word(shelf, name, page, area.table.bytes());
    put_word(shelf, name, page, area.attribute.bytes());
}

// What follows the names: how many objects there are, and their lines; or that the area is
// skipped.
fn put_rest<S: Shelf>(shelf: &mut S, name: &str, page: &mut Page, objects: &AreaObjects)
    ensures { Wrote name.now (rest_text (objects_view objects.now))
        (sight (S.held shelf.old) (S.space shelf.old name.now) (S.read_faults shelf.old)
        (S.write_faults shelf.old)) page.old
        (sight (S.held shelf.new) (S.space shelf.new name.now) (S.read_faults shelf.new)
        (S.write_faults shelf.new)) page.new }
{
    match objects {
        AreaObjects::Skipped => put(shelf, name, page, b" SKIPPED\n"),
        AreaObjects::Polygons(objects) => put_counted(shelf, name, page, objects),
    }
}

// How many objects there are, and their lines.
fn put_counted<S: Shelf>(shelf: &mut S, name: &str, page: &mut Page, objects: &[ObjectPolygon])
    ensures { Wrote name.now (rest_text (Some (map object_view objects.now)))
        (sight (S.held shelf.old) (S.space shelf.old name.now) (S.read_faults shelf.old)
        (S.write_faults shelf.old)) page.old
        (sight (S.held shelf.new) (S.space shelf.new name.now) (S.read_faults shelf.new)
        (S.write_faults shelf.new)) page.new }
{
    put_count(shelf, name, page, objects.len() as u64);
    put_end(shelf, name, page);
    put_objects(shelf, name, page, objects);
}

// The lines of an area.
fn put_area<S: Shelf>(shelf: &mut S, name: &str, page: &mut Page, area: &AreaPolygons)
    ensures { Wrote name.now (area_text (view area.now))
        (sight (S.held shelf.old) (S.space shelf.old name.now) (S.read_faults shelf.old)
        (S.write_faults shelf.old)) page.old
        (sight (S.held shelf.new) (S.space shelf.new name.now) (S.read_faults shelf.new)
        (S.write_faults shelf.new)) page.new }
{
    put_names(shelf, name, page, area);
    put_rest(shelf, name, page, &area.objects);
}

// The lines of areas.
fn put_areas<S: Shelf>(shelf: &mut S, name: &str, page: &mut Page, areas: &[AreaPolygons])
    ensures { Wrote name.now (flat_map area_text (views areas.now))
        (sight (S.held shelf.old) (S.space shelf.old name.now) (S.read_faults shelf.old)
        (S.write_faults shelf.old)) page.old
        (sight (S.held shelf.new) (S.space shelf.new name.now) (S.read_faults shelf.new)
        (S.write_faults shelf.new)) page.new }
{
    for area in areas {
        put_area(shelf, name, page, area);
    }
}

// The whole text.
fn put_text<S: Shelf>(shelf: &mut S, name: &str, page: &mut Page, areas: &[AreaPolygons])
    ensures { Wrote name.now (polygons_text (views areas.now))
        (sight (S.held shelf.old) (S.space shelf.old name.now) (S.read_faults shelf.old)
        (S.write_faults shelf.old)) page.old
        (sight (S.held shelf.new) (S.space shelf.new name.now) (S.read_faults shelf.new)
        (S.write_faults shelf.new)) page.new }
{
    put(shelf, name, page, b"ITFPOLY 1\n");
    put(shelf, name, page, b"AREAS");
    put_count(shelf, name, page, areas.len() as u64);
    put_end(shelf, name, page);
    put_areas(shelf, name, page, areas);
    put(shelf, name, page, b"END\n");
}

/// Appends the text of the polygons of areas to the file of that name, makes the file if there is
/// none, and changes no other file. It takes no memory.
pub fn write_polygons<S: Shelf>(
    areas: &[AreaPolygons],
    shelf: &mut S,
    name: &str,
) -> Result<(), Failed>
    // The file gained exactly the text.
    ensures done { OnOk result (Puts (S.held shelf.old) name.now
        (λ file. bytes_of file ++ polygons_text (views areas.now)) (S.held shelf.new)) }
    // After a failure it gained at most a front of the text.
    ensures failed { OnErr result (Gained (S.held shelf.old) name.now
        (polygons_text (views areas.now)) (S.held shelf.new)) }
    ensures others { OthersStay (S.held shelf.old) name.now (S.held shelf.new) }
    ensures reads { NoReadFell (S.read_faults shelf.old) (S.read_faults shelf.new) }
    ensures writes { S.write_faults shelf.old ≤ S.write_faults shelf.new }
    // It fails only where a write failed.
    ensures cause { OnErr result (Rose (S.write_faults shelf.old) (S.write_faults shelf.new)) }
    // Where the file has room for the text it does not fail, and then no count moved.
    ensures answers { HasRoom (length (polygons_text (views areas.now)))
        (S.space shelf.old name.now) → IsOk result }
    ensures uncounted { OnOk result (CountsStay (S.read_faults shelf.old) (S.write_faults shelf.old)
        (S.read_faults shelf.new) (S.write_faults shelf.new)) }
{
    let mut page = Page::new();
    put_text(shelf, name, &mut page, areas);
    finish(shelf, name, page)
}
