//! Laws of the interval rules.

ghost use Rattle.apl_base.specs.declared.cells.Elem.{Elem};
ghost use Rattle.apl_base.specs.declared.cells.Interval.{Interval};
ghost use Rattle.apl_base.specs.declared.cells.Kind.TheVariants.{Num};
ghost use Rattle.apl_base.specs.declared.rows.Dya.{Dya};
ghost use Rattle.apl_base.specs.declared.rows.Mon.{Mon};
ghost use Rattle.apl_base.specs.Interval.{IsInterval, IsWithin};
ghost use Rattle.apl_base.specs.Number.{IsNumber};
ghost use Rattle.std.specs.Prelude.{◌≡◌};
ghost use Rattle.value_range.specs.declared.sides.Side.{Side};
ghost use Rattle.value_range.specs.Interval.{ranged1, ranged2};
ghost use Rattle.value_range.specs.Sound.{IsMember, IsPart, IsSharper, IsMonotoneRule};

/// Where less is known of the arguments, no more is known of the values: over sides within others,
/// the range is within the other's, and safe where that is.
pub fn rules_are_monotone()
    ensures one_argument { (f : Mon) (a wide : Side) → IsInterval a.interval
        → IsInterval wide.interval → IsPart a wide → IsSharper (ranged1 f a) (ranged1 f wide) }
    ensures two_arguments { (f : Dya) → IsMonotoneRule (ranged2 f) }
{}

/// The elements of a side: those of a part are those of the whole, and those of numbers are numbers
/// of the language.
pub fn members_of_sides()
    ensures of_parts { (side wide : Side) (e : Elem) → IsPart side wide → IsMember side e
        → IsMember wide e }
    ensures of_numbers { (side : Side) (e : Elem) → IsInterval side.interval → side.kind ≡ Num
        → IsMember side e → IsNumber e.cell }
{}

/// To lie within is an order of intervals.
pub fn intervals_nest()
    ensures reflexive { (p : Interval) → IsWithin p p }
    ensures transitive { (p q r : Interval) → IsWithin p q → IsWithin q r → IsWithin p r }
{}
