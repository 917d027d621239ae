//! Laws of stores, and worked examples.

ghost use Rattle.std.specs.Prelude.{◌≡◌, ◌-◌, ◌^◌, pos, negsuc, [], ◌∷◌, Some, None};
ghost use Rattle.apl_base.specs.declared.cells.Interval.TheVariants as interval;
ghost use Rattle.apl_base.specs.declared.cells.Kind.TheVariants as kind;
ghost use Rattle.apl_base.specs.Interval.{hull, exact_interval};
ghost use Rattle.array_store.specs.Stores.{counted, cell_of, empty_store, holders_of, interval_of, new_owner, owner_at, with_cell, with_holders, with_owner, without_owner};
ghost use Rattle.array_store.specs.Follows.{one_of};
ghost use Rattle.array_store.specs.Places.{cells_along};
ghost use Rattle.array_store.specs.Examples.{HoldFollows, FreeingFollows, ReuseFollows, BesideFollows, UncountedFollowsNot};
ghost use Rattle.array_store.specs.Laws.{ExactIsLeastToGreatest, FollowsThen, FollowsBeside, HoldsThen, LeafKept, DataSays, PutIsFound, PutLeavesOthers, NobodyHoldsNone, WrittenIsOnly, RenewsNothing, RenewsThen, RenewsMade, RenewsHeld, RenewsFreed, RenewsCounted, RenewsWritten, LiveAtMost, CostsNothing, CostsThen, CostsMore, CostsFetched, CostsComputed, CostsMade, WholeRun};

/// The exact interval of cells is the one from the least of them to the greatest.
pub fn interval_laws()
    ensures { ExactIsLeastToGreatest }
{}

/// How changes of holders go together.
pub fn follows_laws()
    ensures then { FollowsThen }
    ensures beside { FollowsBeside }
    ensures holds { HoldsThen }
    ensures kept { LeafKept }
{}

/// What a look-up finds.
pub fn look_up_laws()
    ensures says { DataSays }
    ensures put { PutIsFound }
    ensures others { PutLeavesOthers }
    ensures none { NobodyHoldsNone }
    ensures written { WrittenIsOnly }
{}

/// Which owners come with each change.
pub fn came_laws()
    ensures nothing { RenewsNothing }
    ensures then { RenewsThen }
    ensures made { RenewsMade }
    ensures held { RenewsHeld }
    ensures freed { RenewsFreed }
    ensures counted { RenewsCounted }
    ensures written { RenewsWritten }
    ensures live { LiveAtMost }
{}

/// How costs go together.
pub fn costs_laws()
    ensures nothing { CostsNothing }
    ensures then { CostsThen }
    ensures more { CostsMore }
    ensures fetched { CostsFetched }
    ensures computed { CostsComputed }
    ensures made { CostsMade }
{}

/// Cells read a run at a time.
pub fn run_laws()
    ensures { WholeRun }
{}

/// Worked examples of how holders follow leaves.
pub fn follows_examples()
    ensures hold { HoldFollows }
    ensures freeing { FreeingFollows }
    ensures reuse { ReuseFollows }
    ensures beside { BesideFollows }
    ensures uncounted { UncountedFollowsNot }
{}

/// Worked examples of the definitions.
pub fn worked_rows()
    ensures widened { hull (interval.Span (pos 2) (pos 5)) (negsuc 0)
        ≡ interval.Span (negsuc 0) (pos 5) }
    ensures inside { hull (interval.Span (pos 2) (pos 5)) (pos 3) ≡ interval.Span (pos 2) (pos 5) }
    ensures exact { exact_interval (pos 3 ∷ negsuc 1 ∷ pos 7 ∷ [])
        ≡ interval.Span (negsuc 1) (pos 7) }
    ensures nothing { exact_interval [] ≡ interval.Empty }
    ensures forwards { cells_along (pos 3 ∷ negsuc 1 ∷ pos 7 ∷ []) (pos 0) (pos 2) 2
        ≡ pos 3 ∷ pos 7 ∷ [] }
    ensures backwards { cells_along (pos 3 ∷ negsuc 1 ∷ pos 7 ∷ []) (pos 2) (negsuc 0) 3
        ≡ pos 7 ∷ negsuc 1 ∷ pos 3 ∷ [] }
    ensures again { cells_along (pos 3 ∷ negsuc 1 ∷ pos 7 ∷ []) (pos 1) (pos 0) 2
        ≡ negsuc 1 ∷ negsuc 1 ∷ [] }
    ensures counts { counted 5 4 ≡ 9 }
    ensures stops { counted (2 ^ 64 - 2) 5 ≡ 2 ^ 64 - 1 }
{}
