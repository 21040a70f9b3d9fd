// Why a model is refused.
ghost use Rattle.std.specs.Prelude.{◌≡◌};
ghost use Rattle.resolver.specs.declared.faults.ModelFault.TheVariants.{Memory as OutOfMemory};

use ili_grammar::Ident;
use ports::Memory;

/// A rule on the names and types of a model.
#[derive(Clone, Copy, Debug, PartialEq, Eq)]
pub enum ModelCode {
    /// A name is neither a domain that is visible there nor, of a reference, a table.
    Unknown,
    /// A name is declared a second time, or stands twice in one IDENT list.
    Twice,
    /// A reference names a domain.
    NotTable,
    /// A domain leads back to itself.
    Cycle,
    /// A low bound is above its high one, or a text length is not whole from 1 to 65,535.
    Bounds,
    /// A bound or an overlap has more than 18 digits at its scale.
    Decimals,
    /// A window of an area is 2^40 units wide or wider.
    Wide,
    /// The vertices of a line have no coordinates of two axes, or of a POLYLINE none at all.
    NotCoord,
    /// An attribute of a line's own part is a line.
    LineAttr,
    /// An IDENT name is no attribute.
    IdentUnknown,
}

/// The rule that is broken first in the text, and the name at which it is; or out of memory.
#[derive(Drop)]
pub enum ModelFault {
    At { code: ModelCode, name: Ident },
    Memory,
}

impl From<Memory> for ModelFault {
    ghost from_gives = { λ _ e. e ≡ OutOfMemory };

    fn from(_: Memory) -> ModelFault {
        ModelFault::Memory
    }
}
