//! Worked examples. Each function does nothing: its contract is the examples.

ghost use Rattle.apl_cost.specs.Costs as cost;
ghost use Rattle.apl_cost.specs.Examples as example;
ghost use Rattle.apl_cost.specs.Peaks as peak;
ghost use Rattle.apl_cost.specs.Table as table;

/// The work of plain statements, and statements that are not plain.
pub fn examples_of_work()
    ensures take { example.WorkOfATake }
    ensures assignment { example.WorkOfAnAssignment }
    ensures reversal { example.WorkOfAReversal }
    ensures product { example.WorkOfAProduct }
    ensures sum { example.NoWorkOfASum }
    ensures name { example.WorkOverAName }
    ensures sixty_four { example.WorkOfSixtyFour }
    ensures sixty_five { example.NoWorkOfSixtyFive }
    ensures may_fail { example.NoWorkWhereItMayFail }
    ensures progression { example.WorkByAProgression }
    ensures other_positions { example.NoWorkByOtherPositions }
    ensures beyond { example.NoWorkBeyondTheArray }
    ensures padding { example.NoWorkOfPadding }
    ensures position_by_name { example.WorkByAName }
    ensures other_name { example.NoWorkByAnotherName }
    ensures numbers { example.WorkByNumbers }
    ensures million { example.WorkOfAMillion }
    ensures turned_name { example.WorkOfATurnedName }
    ensures output { example.NoWorkOfAnOutput }
    ensures dropped_scalar { example.WorkOfADroppedScalar }
    ensures scalar_with_axes { example.WorkOfAScalarWithAxes }
    ensures functions_in_arguments { example.WorkOfFunctionsInArguments }
    ensures many_in_arguments { example.NoWorkOfFunctionsInArguments }
    ensures two_positions { example.WorkByTwoPositions }
{}

/// The intervals of variables, and the footprints of runs.
pub fn examples_of_runs()
    ensures product { example.IntervalOfAProduct }
    ensures write { example.IntervalOfAWrite }
    ensures selection { example.IntervalOfASelection }
    ensures footprints { example.FootprintsOfAnAssignment }
    ensures failure { example.PeakOfAFailure }
    ensures footprints_of_a_write { example.FootprintsOfAWrite }
    ensures inner_assignment { example.FootprintsOfAnInnerAssignment }
    ensures footprints_of_a_call { example.FootprintsOfACall }
    ensures call { example.IntervalOfACall }
    ensures turned_product { example.IntervalOfATurnedProduct }
    ensures erased { example.NoIntervalOfAnErasedName }
    ensures origin { example.IntervalFromOriginZero }
    ensures nothing_selected { example.IntervalWhereNothingIsSelected }
    ensures written_in_call { example.IntervalOfAWriteInACall }
    ensures outer_product { example.IntervalOfAnOuterProduct }
    ensures text { example.IntervalOfAText }
    ensures table { table.IntervalsOfTheTable }
{}

/// The peaks of scripts.
pub fn examples_of_peaks()
    ensures squares { peak.PeakOfSquares }
    ensures fewer_squares { peak.PeakOfFewerSquares }
    ensures take { peak.PeakOfATake }
    ensures workload { peak.PeakOfAWorkload }
    ensures nested_calls { peak.PeakOfNestedCalls }
    ensures fewer_turns { peak.PeakOfFewerTurns }
{}

/// The statements that ended in a run.
pub fn examples_of_statements()
    ensures statements { peak.StatementsEntered }
    ensures calls { peak.CallsEntered }
{}

/// Costs that keep the statements of cost, room and sharing, and costs that don't.
pub fn examples_of_costs()
    ensures work { cost.CostsKeepTheirWork }
    ensures above { cost.CostsAboveTheirWork }
    ensures no_statement { cost.CostsOfNoStatement }
    ensures sharing { cost.SharingIsFree }
    ensures dear_sharing { cost.SharingIsNotDear }
    ensures second_writes { cost.SecondWritesAreFree }
    ensures dear_writes { cost.SecondWritesAreNotDear }
    ensures room { cost.RoomForSquares }
    ensures no_stop { cost.NoStopWithRoom }
    ensures one_statement { cost.WorkOfOneStatement }
    ensures shares { cost.SharingStatements }
    ensures single_writes { cost.WritesOfSingleElements }
{}
