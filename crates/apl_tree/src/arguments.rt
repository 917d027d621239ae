//! How many arguments the function of a name has.

ghost use Rattle.std.specs.Prelude.{◌≡◌, List};
ghost use Rattle.apl_model.specs.Grammar as grammar;
ghost use Rattle.apl_model.specs.declared.tokens.Heading.{Heading};

use apl_base::Name;
use apl_model::Classes;

/// Classes of names that can be asked for the class of one.
pub(crate) trait NameClasses {
    ghost headings: { Self → List Heading };

    /// How many arguments the function of this name has, or none where the name heads no
    /// definition.
    fn arguments(&self, name: &Name) -> Option<u8>
        ensures { result ≡ grammar.arguments_of (headings self.now) name.now };
}

impl NameClasses for Classes {
    ghost headings = { λ c. c.headings };

    // One heading after the other.
    fn arguments(&self, name: &Name) -> Option<u8> {
        arguments_of(self, name)
    }
}

/// How many arguments the function of this name has, by one heading after the other.
fn arguments_of(classes: &Classes, name: &Name) -> Option<u8>
    ensures { result ≡ grammar.arguments_of classes.now.headings name.now }
{
    for heading in classes.headings.as_slice() {
        if heading.name.is(name) {
            return Some(heading.arguments);
        }
    }
    None
}
