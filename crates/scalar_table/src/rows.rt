//! What each scalar function is proved to be.

ghost use Rattle.std.specs.Prelude.{◌≡◌, List, Option, IfSome};
ghost use Rattle.std.specs.List.{AllByRecursion};
ghost use Rattle.apl_base.specs.declared.cells.Elem.{Elem};
ghost use Rattle.scalar_table.specs.Row.{Row, scalar, IsElement, IsNumberElement};

use apl_base::Elem;

/// A scalar function, as a type.
pub trait ScalarRow {
    /// One element, or two of which the left stands first.
    type Arguments;

    // which of the functions it is, its arguments as a list, and its value
    ghost function: { Row };

    ghost elements: { Self.Arguments → List Elem };

    ghost value: { Self.Arguments → Option Elem };

    /// The value at these arguments, or `None` where there is none.
    fn value_at(arguments: Self::Arguments) -> Option<Elem>
        requires { AllByRecursion IsElement (elements arguments) }
        ensures { result ≡ value arguments };

    // it is defined exactly where the definition is, and equals it there
    ghost exact: { (x : Self.Arguments) → value x ≡ scalar function (elements x) };

    // it is a number of the language
    ghost lawful: { (x : Self.Arguments) → AllByRecursion IsElement (elements x) → IfSome (value x) IsNumberElement };
}

/// The value of a scalar function, by no more than its laws.
pub(crate) fn value_of<R: ScalarRow>(arguments: R::Arguments) -> Option<Elem>
    requires { AllByRecursion IsElement (R.elements arguments) }
    ensures exact { result ≡ scalar R.function (R.elements arguments) }
    ensures lawful { IfSome result IsNumberElement }
{
    R::value_at(arguments)
}
