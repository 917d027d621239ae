//! In every run each cell lies in the interval beside it.

ghost use Rattle.apl_cost_laws.specs.Inside.{ExpressionsStayInside, PositionsStayInside, StatementsStayInside, LinesStayInside, FunctionsStayInside, RunsStayInside, ScriptsStayInside};

/// In every run each cell lies in the interval beside it.
pub fn cells_stay_inside()
    ensures expressions { ExpressionsStayInside }
    ensures positions { PositionsStayInside }
    ensures statements { StatementsStayInside }
    ensures lines { LinesStayInside }
    ensures functions { FunctionsStayInside }
    ensures runs { RunsStayInside }
    ensures scripts { ScriptsStayInside }
{}
