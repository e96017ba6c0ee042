// The laws of the answer to `dims`, and of runs whose streams do not fail.
ghost use Rattle.sp_session.specs.Modules.{DimsLaw};
ghost use Rattle.sp_session.specs.Sure.{AnswersWhole, HasNoReadFault};

use sp_base::{MemSink, MemSource, Sink, Source, SureSource};

/// For every limit, every e of at least 2 and every degree at which no column is refused: the reply to `dims` tells the
/// only list of numbers that solves the equations of the dimensions, or the greatest column at which they get too
/// large. It takes and answers nothing: its contract is the theorem.
pub fn dims_law()
    ensures { DimsLaw }
{}

/// For all words, all painters and every sink: what `IsRun` says of a run over a `SureSource` does not hold of the
/// status `ReadFault`. It takes and answers nothing, like `memory_law`.
pub fn sure_source_law<K: Sink>()
    ensures { HasNoReadFault
        ⟦<SureSource as Source>⟧.left ⟦<SureSource as Source>⟧.faults ⟦<SureSource as Source>⟧.steady
        K.written K.faults K.steady }
{}

/// For all words that are allowed and all painters: a run over a `MemSource` of at most as many bytes as are answered
/// and a `MemSink` with room for what is written, neither with a call that fails, ends by `Done` with the whole
/// transcript written, or by `OutOfMemory`. Where the words name a number, the source may be any, and the line that
/// sums up takes the place of the transcript.
pub fn memory_law()
    ensures { AnswersWhole
        ⟦<MemSource as Source>⟧.left ⟦<MemSource as Source>⟧.faults ⟦<MemSource as Source>⟧.steady
        ⟦<MemSink as Sink>⟧.written ⟦<MemSink as Sink>⟧.faults ⟦<MemSink as Sink>⟧.steady }
{}
