//! The laws of balance and conform: each function ensures one of them, and does nothing.
ghost use Rattle.even.specs.Laws.{BalanceEvens, ConformEvens, DefinitionsAgree, OneEvening};
ghost use Rattle.even.specs.Later.{MoreSplitsFinerMesh, LaterSplitsSameMesh, RoomForParts};
ghost use Rattle.even.specs.LaterBoard.{FactsAtWork};

/// What balance makes of any well-formed table.
pub fn balance_evens()
    ensures { BalanceEvens }
{}

/// What conform makes of it.
pub fn conform_evens()
    ensures { ConformEvens }
{}

/// The two definitions of both calls, by passes and by names, say the same of every row.
pub fn definitions_agree()
    ensures { DefinitionsAgree }
{}

/// The contracts of `balance` and `conform` permit one answer each.
pub fn one_evening()
    ensures { OneEvening }
{}

/// More marks, finer mesh: of what two accepted calls leave in their rows.
pub fn more_splits_finer_mesh()
    ensures { MoreSplitsFinerMesh }
{}

/// Marks that come later: evening, splitting more and evening again leaves what splitting all and evening once does.
pub fn later_splits_same_mesh()
    ensures { LaterSplitsSameMesh }
{}

/// Whoever has room for all splits and one evening has room for the parts, and no split of the list is lost by them.
pub fn room_for_parts()
    ensures { RoomForParts }
{}

/// A board on which both facts are at work, for balance and for conform: what they ask for can be met.
pub fn facts_at_work()
    ensures { FactsAtWork }
{}
