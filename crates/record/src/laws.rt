//! What the definitions of the record come to. No function here does anything: each promises a law, which its specs
//! state and its proof file proves.

ghost use Rattle.record.specs.Laws.{ReadWrite, ReadsInRange, DefaultIsFour, OneRead, OneWritten};

/// For every board in range: reading what `write` wrote of its rows gives the board back.
pub fn read_write()
    ensures { ReadWrite }
{}

/// What is read is a board in range.
pub fn reads_in_range()
    ensures { ReadsInRange }
{}

/// 255 for max_level means 4, whatever else a record says.
pub fn default_is_four()
    ensures { DefaultIsFour }
{}

/// The contract of `check` and of `read` permits one answer.
pub fn one_read()
    ensures { OneRead }
{}

/// The contract of `write` permits one answer.
pub fn one_written()
    ensures { OneWritten }
{}
