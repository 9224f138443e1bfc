//! The text of a record.
ghost use Rattle.std.specs.Prelude.{◌≡◌, ◌++◌, [], ◌∷◌, All, OnOk, IfOk, codes, decimal, flat_map, length, map};
ghost use Rattle.hex.specs.Hex.{encode_lower};
ghost use Rattle.sha2.specs.Sha256.{sha256};
ghost use Rattle.claims.specs.PkgName.{IsName};
ghost use Rattle.claims.specs.PkgPath.{IsPath};
ghost use Rattle.package_record.specs.Content.{HasNames, IsDep, built_line, claim_line, ended, file_lines, front_lines, header_text, name_lines, record_text, run_line};
ghost use Rattle.package_record.specs.FileView.{file_view};
ghost use Rattle.package_record.specs.Views.{content_of};

use crate::File;
use crate::digest::digest_text;
use crate::fields::Fields;
use crate::hashed_files::HashedFiles;
use crate::room::{header_room, text_room};
use claims::{Claim, Dep, PkgPath};
use faults::Memory;
use itoa::Buffer;
use std::alloc::Global;

/// Appends a line made of these parts.
#[tactic(auto, unfolding(crate::specs::Content::ended))]
fn put_line(out: &mut Vec<u8>, parts: &[&[u8]]) -> Result<(), Memory>
    ensures { OnOk result
        (out.new.items ≡ out.old.items ++ ended (flat_map (λ part. part.now) parts.now ∷ [])) }
{
    for part in parts {
        out.extend_from_slice(part)?;
    }
    out.push(b'\n')?;
    Ok(())
}

/// Appends a line made of a word and its text.
pub fn put_field(out: &mut Vec<u8>, word: &[u8], text: &[u8]) -> Result<(), Memory>
    ensures { OnOk result (out.new.items ≡ out.old.items ++ ended ((word.now ++ text.now) ∷ [])) }
{
    put_line(out, &[word, text])
}

/// Appends the lines with the version of the format, and the package's name and path.
fn put_names(out: &mut Vec<u8>, fields: &Fields) -> Result<(), Memory>
    ensures text { OnOk result
        (out.new.items ≡ out.old.items ++ ended (name_lines (content_of fields.now))) }
    ensures names { OnOk result (IsName fields.now.name × IsPath fields.now.path) }
{
    put_field(out, b"@dpb 1", b"")?;
    put_field(out, b"@name ", fields.name.as_bytes())?;
    put_field(out, b"@comment pkgpath=", fields.path.as_bytes())?;
    Ok(())
}

fn put_host(out: &mut Vec<u8>, host: u16) -> Result<(), Memory>
    ensures { OnOk result
        (out.new.items ≡ out.old.items ++ ended ((codes "@host " ++ decimal host) ∷ [])) }
{
    let mut text = Buffer::new();
    put_field(out, b"@host ", text.format(host).as_bytes())
}

fn put_claim(out: &mut Vec<u8>, claim: Claim) -> Result<(), Memory>
    ensures { OnOk result (out.new.items ≡ out.old.items ++ ended (claim_line claim ∷ [])) }
{
    let mut round = Buffer::new();
    let mut member = Buffer::new();
    put_line(
        out,
        &[
            b"@claim ".as_slice(),
            round.format(claim.round).as_bytes(),
            b".".as_slice(),
            member.format(claim.member).as_bytes(),
        ],
    )
}

fn put_front(out: &mut Vec<u8>, fields: &Fields) -> Result<(), Memory>
    ensures text { OnOk result
        (out.new.items ≡ out.old.items ++ ended (front_lines (content_of fields.now))) }
    ensures names { OnOk result (IsName fields.now.name × IsPath fields.now.path) }
{
    put_names(out, fields)?;
    put_host(out, fields.host)?;
    put_claim(out, fields.claim)?;
    Ok(())
}

fn put_built(out: &mut Vec<u8>, dep: &Dep) -> Result<(), Memory>
    ensures text { OnOk result (out.new.items ≡ out.old.items ++ ended (built_line dep.now ∷ [])) }
    ensures names { OnOk result (IsDep dep.now) }
{
    put_line(
        out,
        &[
            b"@built ".as_slice(),
            dep.path.as_bytes(),
            b" ".as_slice(),
            dep.name.as_bytes(),
            b" ".as_slice(),
            digest_text(&dep.digest).as_slice(),
        ],
    )
}

fn put_digest(out: &mut Vec<u8>, digest: &[u8; 32]) -> Result<(), Memory>
    ensures { OnOk result (out.new.items
        ≡ out.old.items ++ ended ((codes "@sha " ++ encode_lower digest.now) ∷ [])) }
{
    put_field(out, b"@sha ", digest_text(digest).as_slice())
}

fn put_size(out: &mut Vec<u8>, size: usize) -> Result<(), Memory>
    ensures { OnOk result
        (out.new.items ≡ out.old.items ++ ended ((codes "@size " ++ decimal size) ∷ [])) }
{
    let mut text = Buffer::new();
    put_field(out, b"@size ", text.format(size).as_bytes())
}

fn put_file(out: &mut Vec<u8>, file: &File, digest: &[u8; 32]) -> Result<(), Memory>
    requires { digest.now ≡ sha256 file.now.bytes.items }
    ensures { OnOk result
        (out.new.items ≡ out.old.items ++ ended (file_lines (file_view file.now))) }
{
    put_field(out, b"", file.name.as_slice())?;
    put_digest(out, digest)?;
    put_size(out, file.bytes.len())?;
    Ok(())
}

fn put_dependencies(out: &mut Vec<u8>, deps: &[Dep]) -> Result<(), Memory>
    ensures text { OnOk result (out.new.items ≡ out.old.items ++ ended (map built_line deps.now)) }
    ensures names { OnOk result (All IsDep deps.now) }
{
    for dep in deps {
        put_built(out, dep)?;
    }
    Ok(())
}

fn put_run(out: &mut Vec<u8>, paths: &[PkgPath]) -> Result<(), Memory>
    ensures text { OnOk result (out.new.items ≡ out.old.items ++ ended (map run_line paths.now)) }
    ensures names { OnOk result (All IsPath paths.now) }
{
    for path in paths {
        put_field(out, b"@run ", path.as_bytes())?;
    }
    Ok(())
}

fn put_files(out: &mut Vec<u8>, files: &HashedFiles) -> Result<(), Memory>
    ensures { OnOk result
        (out.new.items ≡ out.old.items ++ ended (flat_map file_lines files.now)) }
{
    for (index, file) in files.as_slice().iter().enumerate() {
        put_file(out, file, files.digest(index))?;
    }
    Ok(())
}

/// Appends the header with the empty line at its end.
fn put_header(out: &mut Vec<u8>, fields: &Fields) -> Result<(), Memory>
    ensures text { OnOk result
        (out.new.items ≡ out.old.items ++ header_text (content_of fields.now)) }
    ensures names { OnOk result (HasNames (content_of fields.now)) }
{
    put_front(out, fields)?;
    put_dependencies(out, fields.built.as_slice())?;
    put_run(out, fields.run.as_slice())?;
    put_files(out, &fields.files)?;
    out.push(b'\n')?;
    Ok(())
}

/// The header with the empty line at its end.
pub fn header(alloc: Global, fields: &Fields) -> Result<Vec<u8>, Memory>
    ensures text { IfOk result (λ text.
        text.items ≡ header_text (content_of fields.now)) }
    ensures names { OnOk result (HasNames (content_of fields.now)) }
{
    let mut text = Vec::with_capacity(alloc, header_room(fields))?;
    put_header(&mut text, fields)?;
    Ok(text)
}

/// Appends the bytes of the files, one file after the other.
fn put_bodies(out: &mut Vec<u8>, files: &[File]) -> Result<(), Memory>
    ensures { OnOk result
        (out.new.items ≡ out.old.items ++ flat_map (λ f. f.bytes) (map file_view files.now)) }
{
    for file in files {
        out.extend_from_slice(file.bytes.as_slice())?;
    }
    Ok(())
}

/// Appends the whole text.
pub fn put_text(out: &mut Vec<u8>, fields: &Fields) -> Result<(), Memory>
    ensures { OnOk result (out.new.items ≡ out.old.items ++ record_text (content_of fields.now)) }
{
    out.reserve(text_room(fields))?;
    put_header(out, fields)?;
    put_bodies(out, fields.files.as_slice())?;
    Ok(())
}

/// The whole text.
pub fn text(alloc: Global, fields: &Fields) -> Result<Vec<u8>, Memory>
    ensures { IfOk result (λ text. text.items ≡ record_text (content_of fields.now)) }
{
    let mut text = Vec::new(alloc);
    put_text(&mut text, fields)?;
    Ok(text)
}
