//! Parsing of a text as a record.
ghost use Rattle.std.specs.Prelude.{◌≡◌, ◌≤◌, [], length, map, sum_by};
ghost use Rattle.package_record.specs.inside.Given.{Gives};
ghost use Rattle.package_record.specs.inside.Heads.{head_of, header_view};
ghost use Rattle.package_record.specs.FileView.{file_view};
ghost use Rattle.package_record.specs.Views.{content_of};
ghost use Rattle.package_record.specs.Reading.{content_of_parts, files_in, first_of, total_of, whole_of};

use crate::fault::ReadError;
use crate::fields::Fields;
use crate::hashed_files::HashedFiles;
use crate::header::{Head, Header, read_header};
use crate::{File, LIMIT, RecordFault};
use claims::Deps;
use sha2::{Digest, Sha256};
use std::alloc::Global;

/// The files of these heads, one after the other, and the bytes after them.
fn files<'a>(
    alloc: Global,
    heads: &[Head<'_>],
    bytes: &'a [u8],
) -> Result<(HashedFiles, &'a [u8]), ReadError>
    requires { sum_by (λ h. h.size) (map head_of heads.now) ≤ length bytes.now }
    ensures { Gives (λ x. (x.0, x.1.now)) result
        (files_in [] (map head_of heads.now) bytes.entry.now) }
{
    let mut files = HashedFiles::with_capacity(alloc, heads.len())?;
    let mut rest = bytes;
    for head in heads {
        let (front, behind) = rest.split_at(head.size);
        let digest: [u8; 32] = Sha256::digest(front);
        if digest != head.digest {
            return Err(ReadError::Fault(RecordFault::DigestDiffers(head.line)));
        }
        let name = Vec::from_slice(alloc, head.name)?;
        let bytes = Vec::from_slice(alloc, front)?;
        files.push(File { name, bytes }, digest)?;
        rest = behind;
    }
    Ok((files, rest))
}

#[tactic(auto, unfolding(crate::specs::Reading::content_of_parts))]
fn fields<'a>(
    alloc: Global,
    header: Header<'_>,
    bytes: &'a [u8],
) -> Result<(Fields, &'a [u8]), ReadError>
    requires { header.heads.total ≡ total_of (header_view header) }
    ensures { Gives (λ x. (content_of x.0, x.1.now)) result
        (content_of_parts (header_view header.entry) bytes.entry.now) }
{
    if bytes.len() < header.heads.total {
        return Err(ReadError::Fault(RecordFault::Truncated));
    }
    let (files, rest) = files(alloc, header.heads.items.as_slice(), bytes)?;
    let Header {
        front,
        built,
        run,
        heads: _,
    } = header;
    let fields = Fields {
        path: front.path,
        name: front.name,
        host: front.host,
        claim: front.claim,
        built: Deps::new(built),
        run,
        files,
    };
    Ok((fields, rest))
}

/// The contents of the record that is the whole text.
#[tactic(auto, unfolding(crate::specs::Reading::whole_of))]
pub fn whole(alloc: Global, text: &[u8]) -> Result<Fields, ReadError>
    ensures { Gives content_of result (whole_of text.now) }
{
    if text.len() > LIMIT {
        return Err(ReadError::Fault(RecordFault::TooLarge));
    }
    let (header, bytes) = read_header(alloc, text)?;
    let (fields, rest) = fields(alloc, header, bytes)?;
    if !rest.is_empty() {
        return Err(ReadError::Fault(RecordFault::Trailing));
    }
    Ok(fields)
}

/// The contents of the record at the front, and the text after it.
#[tactic(auto, unfolding(crate::specs::Reading::first_of))]
pub fn first<'a>(alloc: Global, text: &'a [u8]) -> Result<(Fields, &'a [u8]), ReadError>
    ensures { Gives (λ x. (content_of x.0, x.1.now)) result (first_of text.entry.now) }
{
    let (header, bytes) = read_header(alloc, text)?;
    let header_length = text.len().saturating_sub(bytes.len());
    if header_length > LIMIT - header.heads.total {
        return Err(ReadError::Fault(RecordFault::TooLarge));
    }
    fields(alloc, header, bytes)
}
