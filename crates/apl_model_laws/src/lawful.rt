//! What is lawful stays lawful: numbers within -M..M, characters of Unicode, and lengths that make a shape.
ghost use Rattle.apl_model_laws.specs.Lawful.{ShapesAreTested, AxesAreTested, LiteralsAreLawful, MonadicValuesAreLawful, DyadicValuesAreLawful, ReductionsAreLawful, OuterProductsAreLawful, InnerProductsAreLawful, SubscriptsAreLawful, ReplacementsAreLawful, ExpressionsAreLawful, PositionsAreLawful, StatementsAreLawful, FunctionsAreLawful, RunsAreLawful, ScriptsHaveLawfulItems, ImmediateIsLawful};

/// The test of a shape is true exactly of lengths that make one.
pub fn shapes_are_tested()
    ensures { ShapesAreTested }
{}

/// The test of axes is true exactly of numbers that are 0 to k - 1 for some k.
pub fn axes_are_tested()
    ensures { AxesAreTested }
{}

/// A literal of the language is a lawful array.
pub fn literals_are_lawful()
    ensures { LiteralsAreLawful }
{}

/// A function of one argument gives a lawful array of a lawful one, or an error.
pub fn monadic_values_are_lawful()
    ensures { MonadicValuesAreLawful }
{}

/// A function of two arguments gives a lawful array of lawful ones, or an error.
pub fn dyadic_values_are_lawful()
    ensures { DyadicValuesAreLawful }
{}

/// A reduction gives a lawful array of a lawful one, or an error.
pub fn reductions_are_lawful()
    ensures { ReductionsAreLawful }
{}

/// An outer product gives a lawful array of lawful ones, or an error.
pub fn outer_products_are_lawful()
    ensures { OuterProductsAreLawful }
{}

/// An inner product gives a lawful array of lawful ones, or an error.
pub fn inner_products_are_lawful()
    ensures { InnerProductsAreLawful }
{}

/// A subscript gives a lawful array of a lawful one, or an error.
pub fn subscripts_are_lawful()
    ensures { SubscriptsAreLawful }
{}

/// A replacement gives a lawful array of lawful ones, or an error.
pub fn replacements_are_lawful()
    ensures { ReplacementsAreLawful }
{}

/// The value of an expression of the language over lawful variables is lawful, and so are the variables that it
/// leaves, where that holds of its calls.
pub fn expressions_are_lawful()
    ensures { ExpressionsAreLawful }
{}

/// The same of the positions of a subscript.
pub fn positions_are_lawful()
    ensures { PositionsAreLawful }
{}

/// The same of a statement.
pub fn statements_are_lawful()
    ensures { StatementsAreLawful }
{}

/// The same of the call of a function, however many more calls may be pending.
pub fn functions_are_lawful()
    ensures { FunctionsAreLawful }
{}

/// A run of items of the language leaves lawful variables.
pub fn runs_are_lawful()
    ensures { RunsAreLawful }
{}

/// The items of a script are items of the language, where a number of the language counts its lines.
pub fn scripts_have_lawful_items()
    ensures { ScriptsHaveLawfulItems }
{}

/// Immediate evaluation of such a script leaves lawful globals, and the origin 0 or 1.
pub fn immediate_is_lawful()
    ensures { ImmediateIsLawful }
{}
