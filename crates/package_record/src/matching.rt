//! Whether a text is that of a known build.
ghost use Rattle.std.specs.Prelude.{◌≡◌, ◌++◌, IfSome, IsTrue};
ghost use Rattle.package_record.specs.Build.{build_text};
ghost use Rattle.package_record.specs.Content.{record_text};

use crate::likely::may_begin_with;
use crate::{Build, Record};

impl Build {
    /// Whether this text is the build's own, so that it need not be parsed. Also false if memory
    /// runs out.
    pub fn is_text(&self, text: &[u8]) -> bool
        ensures { IsTrue result → text.now ≡ build_text self.now }
    {
        match behind_build(self, text) {
            Some(rest) => rest.is_empty(),
            None => false,
        }
    }
}

/// The text after these bytes, if it begins with them.
fn behind<'a>(front: &[u8], text: &'a [u8]) -> Option<&'a [u8]>
    ensures { IfSome result (λ rest. text.entry.now ≡ front.now ++ rest.now) }
{
    text.strip_prefix(front)
}

/// The text after the record's text, if it begins with that. None also if memory runs out. The
/// record's header is written only if the text is at least as long.
fn behind_record<'a>(own: &Record, text: &'a [u8]) -> Option<&'a [u8]>
    ensures { IfSome result (λ rest. text.entry.now ≡ record_text own.now ++ rest.now) }
{
    if !may_begin_with(own, text) {
        return None;
    }
    let Ok(header) = own.header() else {
        return None;
    };
    let mut rest = behind(header.as_slice(), text)?;
    for file in own.files() {
        rest = behind(file.bytes.as_slice(), rest)?;
    }
    Some(rest)
}

/// The text after the build's text, if it begins with that. None also if memory runs out.
fn behind_build<'a>(build: &Build, text: &'a [u8]) -> Option<&'a [u8]>
    ensures { IfSome result (λ rest. text.entry.now ≡ build_text build.now ++ rest.now) }
{
    let Ok(lines) = build.lines() else {
        return None;
    };
    let mut rest = behind(lines.as_slice(), text)?;
    for record in build.packages() {
        rest = behind_record(record, rest)?;
    }
    Some(rest)
}
