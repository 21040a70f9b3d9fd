// What is told of an area.
ghost use Rattle.std.specs.Prelude.{◌≤◌};

use area_faults::AreaFaults;
use plane::Drawing;
use ports::Name;

/// The names of an area's topic, of its main table and of its attribute, how many decimals its
/// coordinates have, its drawing, and what is told of that.
#[derive(Drop)]
pub struct AreaTelling<'a> {
    pub topic: Name,
    pub table: Name,
    pub attribute: Name,
    pub scale: u8,
    pub drawing: &'a Drawing,
    pub faults: AreaFaults,
    pub ghost scaled: { scale ≤ 9 },
}
