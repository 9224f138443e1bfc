//! What is supposed about a log's file before it is opened.
ghost use Rattle.run_file.specs.Looking.{empty_past};
ghost use Rattle.stable_record.specs.Events.{Past};

/// A supposition about a log's file before it is opened. Code can't see it, so what is proved for
/// code that is generic in it holds whatever happened to the file before.
pub trait Supposed {
    ghost past: { Past };
}

/// It is supposed that the file is empty. Once a read contradicts this, nothing more is claimed.
#[derive(Drop)]
pub struct SupposedEmpty;

impl Supposed for SupposedEmpty {
    ghost past = { empty_past };
}
