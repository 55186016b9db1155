//! Paths of files as URIs, and back. What is no URI of a file is its own path.
ghost use Rattle.std.specs.Str.Lossy.{utf8_lossy};
ghost use Rattle.occ_editor_edits.specs.Messages.{from_slash as spec_from_slash, path_of_uri};
ghost use Rattle.occ_editor_edits.specs.Uris.{IsUriOf, is_rooted};
ghost use Rattle.percent_encoding.specs.AsciiSet.{contains};
ghost use Rattle.percent_encoding.specs.Percent.{percent_decode as spec_percent_decode};
ghost use Rattle.std.specs.Prelude.{◌≡◌, IfOk, false, option_map, true};
ghost use Rattle.std.specs.String.{string_bytes};

use percent_encoding::{AsciiSet, NON_ALPHANUMERIC, percent_decode, percent_encode};
use std::alloc::{AllocError, Global};

/// What stands before the name of a machine in the URI of a file.
const FILE: &[u8; 7] = b"file://";

/// What is escaped in a path.
fn escaped() -> AsciiSet
    ensures percent { contains result 37 ≡ true }
    ensures slash { contains result 47 ≡ false }
{
    NON_ALPHANUMERIC
        .remove(b'/')
        .remove(b'-')
        .remove(b'.')
        .remove(b'_')
        .remove(b'~')
}

/// The path of a URI.
pub fn path_of(alloc: Global, uri: &str) -> Result<String, AllocError>
    ensures { IfOk result (λ path. string_bytes path ≡ path_of_uri uri.now) }
{
    let Some(rest) = uri.as_bytes().strip_prefix(FILE.as_slice()) else {
        return String::from_str(alloc, uri);
    };
    match from_slash(rest) {
        Some(path) => spelled(alloc, path),
        None => String::from_str(alloc, uri),
    }
}

/// The path behind the name of a machine, which may be empty.
fn from_slash(rest: &[u8]) -> Option<&[u8]>
    ensures { option_map (λ path. path.now) result ≡ spec_from_slash rest.now }
{
    for at in 0..rest.len() {
        if rest[at] == b'/' {
            return rest.get(at..);
        }
    }
    None
}

/// The path that is escaped so.
fn spelled(alloc: Global, path: &[u8]) -> Result<String, AllocError>
    ensures { IfOk result (λ made. string_bytes made ≡ utf8_lossy (spec_percent_decode path.now)) }
{
    let mut bytes = Vec::new(alloc);
    percent_decode(path).append_to(&mut bytes)?;
    String::from_utf8_lossy(alloc, bytes.as_slice())
}

/// The URI of a path.
pub fn uri_of(alloc: Global, path: &str) -> Result<String, AllocError>
    ensures { IfOk result (λ uri. IsUriOf path.now (string_bytes uri)) }
{
    if path.as_bytes().first() == Some(&b'/') {
        escaped_uri(alloc, path)
    } else {
        String::from_str(alloc, path)
    }
}

/// The URI of a path from the root.
fn escaped_uri(alloc: Global, path: &str) -> Result<String, AllocError>
    ensures { IfOk result (λ uri. is_rooted path.now ≡ true → path_of_uri (string_bytes uri) ≡ path.now) }
{
    let mut uri = String::from_str(alloc, "file://")?;
    percent_encode(path.as_bytes(), escaped()).append_to(&mut uri)?;
    Ok(uri)
}
