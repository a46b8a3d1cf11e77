//! Names of included files.

ghost use Rattle.std.specs.Prelude.{◌≡◌, ◌+◌, map, reverse, length, IfOk, OnOk, IfSome};
ghost use Rattle.std.specs.Str.{IsCharBoundary};
ghost use Rattle.std.specs.Path.{rfind_below};
ghost use Rattle.std.specs.String.{string_bytes};
ghost use Rattle.planus_cli.specs.Including as spec;

use std::alloc::{AllocError, Global};

fn stays(segment: &str) -> bool
    ensures { result ≡ spec.stays segment.now }
{
    segment == "" || segment == "."
}

fn leaves(segment: &str) -> bool
    ensures { result ≡ spec.leaves segment.now }
{
    segment == ".."
}

/// Goes into a folder, or out of the last one.
fn enter<'a>(segments: &mut Vec<&'a str>, segment: &'a str) -> Result<(), AllocError>
    ensures { OnOk result (reverse (map (λ s. s.now) segments.new.items)
        ≡ spec.entered (reverse (map (λ s. s.now) segments.old.items)) segment.now) }
{
    let last_stays = match segments.last() {
        Some(last) => !leaves(*last),
        None => false,
    };
    if leaves(segment) && last_stays {
        segments.pop();
    } else if !stays(segment) {
        segments.push(segment)?;
    }
    Ok(())
}

/// Returns the folders that a path goes through.
fn walk(alloc: Global, path: &str) -> Result<Vec<&str>, AllocError>
    ensures { IfOk result (λ segments. reverse (map (λ s. s.now) segments.items)
        ≡ spec.walked path.now) }
{
    let mut segments: Vec<&str> = Vec::new(alloc);
    'path: for segment in path.split('/') {
        enter(&mut segments, segment)?;
    }
    Ok(segments)
}

fn named(alloc: Global, path: &str, name: String) -> Result<String, AllocError>
    ensures { IfOk result (λ named. string_bytes named
        ≡ spec.named path.now (string_bytes name)) }
{
    if path.starts_with('/') {
        return format!(in alloc; "/{name}");
    }
    if name.as_str() == "" || name.as_str() == "-" {
        return format!(in alloc; "./{name}");
    }
    Ok(name)
}

/// One file must have one name: without `.` and without a folder that `..` leaves again. It is
/// never `-`, which names standard input.
pub fn normal(alloc: Global, path: &str) -> Result<String, AllocError>
    ensures { IfOk result (λ name. string_bytes name ≡ spec.normal path.now) }
{
    let segments = walk(alloc, path)?;
    let name = segments.join(alloc, "/")?;
    named(alloc, path, name)
}

/// Returns the name of a file in a folder.
pub fn file_in(alloc: Global, folder: &str, path: &str) -> Result<String, AllocError>
    ensures { IfOk result (λ name. string_bytes name ≡ spec.file_in folder.now path.now) }
{
    let whole = format!(in alloc; "{folder}/{path}")?;
    normal(alloc, whole.as_str())
}

/// Returns how many bytes the folder in a name has, if there is one.
fn folder_length(name: &str) -> Option<usize>
    ensures found { result ≡ rfind_below 47 name.now (length name.now) }
    ensures boundary { IfSome result (λ n. IsCharBoundary name.now n) }
    ensures behind { IfSome result (λ n. IsCharBoundary name.now (n + 1)) }
{
    let bytes = name.as_bytes();
    let mut n = bytes.len();
    'bytes: while n > 0 {
        n -= 1;
        if bytes[n] == b'/' {
            return Some(n);
        }
    }
    None
}

/// Returns the last part of a path.
pub fn last_part(path: &str) -> &str
    ensures { result.now ≡ spec.last_part path.now }
{
    match folder_length(path) {
        Some(length) => &path[length + 1..],
        None => path,
    }
}

/// Returns the name of a file beside another one.
pub fn file_beside(alloc: Global, name: &str, path: &str) -> Result<String, AllocError>
    ensures { IfOk result (λ found. string_bytes found ≡ spec.file_beside name.now path.now) }
{
    match folder_length(name) {
        Some(length) => file_in(alloc, &name[..length], path),
        None => normal(alloc, path),
    }
}
