//! Valid names of files.
ghost use Rattle.std.specs.Prelude.{◌≡◌, nat_le, ◌&&◌};
ghost use Rattle.std.specs.List.{list_all};
ghost use Rattle.faults.specs.Bytes.{slash};
ghost use Rattle.faults.specs.Pieces.{pieces_at};
ghost use Rattle.package_record.specs.Content.{is_file_component, is_file_name, is_printable};

use crate::LONGEST_FILE_NAME;

fn is_file_component(component: &[u8]) -> bool
    ensures { result ≡ is_file_component component.now }
{
    !component.is_empty() && component != b".".as_slice() && component != b"..".as_slice()
}

fn has_file_components(name: &[u8]) -> bool
    ensures { result ≡ list_all is_file_component (pieces_at slash name.now) }
{
    name.split(|byte| *byte == b'/')
        .all(|component| is_file_component(component))
}

fn is_printable(name: &[u8]) -> bool
    ensures { result ≡ list_all is_printable name.now }
{
    name.iter().all(|byte| *byte >= b' ' && *byte <= b'~')
}

/// Whether the name is valid: it has 1 to `LONGEST_FILE_NAME` printable bytes, doesn't begin with
/// `@`, and its components between slashes are neither empty nor `.` nor `..`.
pub fn is_file_name(name: &[u8]) -> bool
    ensures { result ≡ is_file_name name.now }
{
    name.len() <= LONGEST_FILE_NAME
        && is_printable(name)
        && !name.starts_with(b"@")
        && has_file_components(name)
}
