//! What holds of the texts of traces and of BUILDS.
ghost use Rattle.traces.specs.Laws.{
  LineFeedBehindATraceChangesNothing,
  LineFeedBehindBuildsChangesNothing,
  TraceLineIsReadAgain,
  TraceTextIsReadAgain,
};

/// The text of a trace is parsed as that trace, also with a line feed after it, if names of files
/// are UTF-8 and stops are inside steps.
pub fn texts_are_read_again()
    ensures text { TraceTextIsReadAgain }
    ensures line { TraceLineIsReadAgain }
{}

/// A line feed after a text doesn't change which trace it is, where it is bad, or its contents as
/// BUILDS.
pub fn line_feeds_change_nothing()
    ensures trace { LineFeedBehindATraceChangesNothing }
    ensures builds { LineFeedBehindBuildsChangesNothing }
{}
