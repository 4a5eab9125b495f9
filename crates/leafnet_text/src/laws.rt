//! Lines that the rules give, and what input that is too long comes to. No function here does anything: each promises a
//! law, which its specs state and its proof file proves.

ghost use Rattle.leafnet_text.specs.Worked.{WorkedBoardIsPrinted, RefusalIsPrinted, RangesArePrinted};
ghost use Rattle.leafnet_text.specs.Cut.{CutIsEnough};

/// The lines come out letter by letter.
pub fn lines_are_worked()
    ensures board { WorkedBoardIsPrinted }
    ensures refusal { RefusalIsPrinted }
    ensures ranges { RangesArePrinted }
{}

/// Of any input the same is said as of the bytes that are read of it.
pub fn front_is_enough()
    ensures { CutIsEnough }
{}
