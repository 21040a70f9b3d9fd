// The fault that counts among those reported so far.
ghost use Rattle.std.specs.Prelude.{◌≡◌};
ghost use Rattle.resolver.specs.Faults.{rank};

use super::faults::ModelCode;
use ili_grammar::Ident;

/// A rule that is broken, and the name at which it is.
#[derive(Clone, Copy)]
pub struct FaultAt<'a> {
    pub code: ModelCode,
    pub name: &'a Ident,
}

/// The fault that counts among those reported so far, if any was.
#[derive(Drop)]
pub struct Earliest<'a> {
    best: Option<FaultAt<'a>>,
}

// Of two rules at one name the one with the lower rank counts.
fn rank(code: ModelCode) -> u8
    ensures { result ≡ rank code }
{
    match code {
        ModelCode::Unknown => 0,
        ModelCode::NotTable => 1,
        ModelCode::Twice => 2,
        ModelCode::Cycle => 3,
        ModelCode::Bounds => 4,
        ModelCode::Decimals => 5,
        ModelCode::NotCoord => 6,
        ModelCode::Wide => 7,
        ModelCode::LineAttr => 8,
        ModelCode::IdentUnknown => 9,
    }
}

impl<'a> FaultAt<'a> {
    ghost use Rattle.std.specs.Prelude.{◌≡◌};
    ghost use Rattle.resolver.specs.Faults.{is_before};
    ghost use Rattle.resolver.specs.FaultViews.{fault_of};

    // Whether this one counts before another.
    fn is_before(&self, other: &FaultAt<'a>) -> bool
        ensures { result ≡ is_before (fault_of self.now) (fault_of other.now) }
    {
        let (line, of_line) = (self.name.line, other.name.line);
        let (column, of_column) = (self.name.column, other.name.column);
        let first_rule = rank(self.code) < rank(other.code);
        let first_column = column < of_column || (column == of_column && first_rule);
        line < of_line || (line == of_line && first_column)
    }
}

impl<'a> Earliest<'a> {
    ghost use Rattle.std.specs.Prelude.{◌≡◌, None};
    ghost use Rattle.ili_grammar.specs.Values.{ident_of};
    ghost use Rattle.resolver.specs.Faults.{fault_if};
    ghost use Rattle.resolver.specs.FaultViews.{fault_in, fault_of, Reports};
    ghost use Rattle.std.specs.Option.{option_map};

    /// Nothing is reported yet.
    pub fn new() -> Earliest<'a>
        ensures { fault_in result ≡ None }
    {
        Earliest { best: None }
    }

    /// Reports a fault at a name, if the rule is broken there.
    pub fn report(&mut self, broken: bool, code: ModelCode, name: &'a Ident)
        ensures { Reports self.old self.new (fault_if broken code (ident_of name.now)) }
    {
        if !broken {
            return;
        }
        let fault = FaultAt { code, name };
        match &self.best {
            Some(best) if !fault.is_before(best) => {}
            _ => self.best = Some(fault),
        }
    }

    /// The fault that counts.
    pub fn fault(&self) -> Option<FaultAt<'a>>
        ensures { option_map fault_of result ≡ fault_in self.now }
    {
        self.best
    }
}
