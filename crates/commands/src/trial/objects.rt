// Objects of a trial's transfer.
ghost use Rattle.std.specs.Prelude.{◌≡◌, ◌++◌, codes, decimal, OnOk};
ghost use Rattle.commands.specs.TrialFiles.{coordinate, place_text, straight_text, cell_text};

use crate::text::Text;
use decimals::write_scaled;
use ports::Memory;

/// A place of the grid, in units.
#[derive(Clone, Copy)]
pub struct Place {
    pub x: u32,
    pub y: u32,
}

impl Text {
    fn add_coordinate(&mut self, units: u32) -> Result<(), Memory>
        ensures { OnOk result (self.new ≡ self.old ++ coordinate units) }
    {
        let mut digits = [0; 24];
        let length = write_scaled(1000 * i64::from(units), 3, &mut digits);
        self.add(&digits[..length])
    }

    fn add_place(&mut self, place: Place) -> Result<(), Memory>
        ensures { OnOk result (self.new ≡ self.old ++ place_text place) }
    {
        self.add_coordinate(place.x)?;
        self.add(b" ")?;
        self.add_coordinate(place.y)
    }

    // An object, as far as its identification.
    fn add_object(&mut self, number: u32) -> Result<(), Memory>
        ensures { OnOk result (self.new ≡ self.old ++ (codes "OBJE " ++ decimal number)) }
    {
        self.add(b"OBJE ")?;
        self.add_number(number)
    }

    // Words, and a place.
    fn add_place_after(&mut self, words: &[u8], place: Place) -> Result<(), Memory>
        ensures { OnOk result (self.new ≡ self.old ++ (words.now ++ place_text place)) }
    {
        self.add(words)?;
        self.add_place(place)
    }

    /// Adds the object of a straight, with this identification.
    pub fn add_straight(&mut self, number: u32, from: Place, to: Place) -> Result<(), Memory>
        ensures { OnOk result (self.new ≡ self.old ++ straight_text number from to) }
    {
        self.add_object(number)?;
        self.add_place_after(b"\nSTPT ", from)?;
        self.add_place_after(b"\nLIPT ", to)?;
        self.add(b"\nELIN\n")
    }

    /// Adds the object of a cell, with this identification.
    pub fn add_cell(&mut self, number: u32, point: Place) -> Result<(), Memory>
        ensures { OnOk result (self.new ≡ self.old ++ cell_text number point) }
    {
        self.add_object(number)?;
        self.add_place_after(b" ", point)?;
        self.add(b"\n")
    }
}
