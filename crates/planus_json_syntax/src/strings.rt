//! What is between quotes.

ghost use Rattle.std.specs.Prelude.{◌≡◌, ◌≤◌, ◌+◌, ◌++◌, length, IfErr, IfOk, OnOk};
ghost use Rattle.std.specs.Char.{encode_utf8};
ghost use Rattle.std.specs.String.{string_bytes};
ghost use Rattle.planus_json_syntax.specs.Strings as spec;
ghost use Rattle.planus_json_syntax.specs.Steps.{Gives, left_of};

use crate::escapes::escape_at;
use crate::fault_kind::FaultKind;
use crate::read_error::ReadError;
use std::alloc::{AllocError, Global};

fn push_char(said: &mut Vec<u8>, c: char) -> Result<(), AllocError>
    ensures { OnOk result (said.new.items ≡ said.old.items ++ encode_utf8 c) }
{
    let mut bytes = [0; 4];
    said.extend_from_slice(c.encode_utf8(&mut bytes).as_bytes())
}

fn closed(said: Vec<u8>, rest: &[u8]) -> Result<(String, &[u8]), ReadError>
    ensures reads { Gives (λ x. (string_bytes x.0, x.1.now)) result
        (spec.closed said.items rest.now) }
    ensures shorter { IfOk result (λ x. length x.1.now ≤ length rest.now) }
    ensures within { IfErr result (λ error. left_of error ≤ length rest.now + 1) }
{
    match String::from_utf8(said) {
        Ok(text) => Ok((text, rest)),
        Err(_) => Err(ReadError::Fault {
            kind: FaultKind::NotUtf8,
            left: rest.len() + 1,
        }),
    }
}

/// Returns what the string whose opening quote stood before these bytes says, and what follows it.
pub(crate) fn string_at(alloc: Global, bytes: &[u8]) -> Result<(String, &[u8]), ReadError>
    ensures reads { Gives (λ x. (string_bytes x.0, x.1.now)) result (spec.string_at bytes.now) }
    ensures shorter { IfOk result (λ x. length x.1.now ≤ length bytes.now) }
    ensures within { IfErr result (λ error. left_of error ≤ length bytes.now) }
{
    let mut said = Vec::new(alloc);
    let mut rest = bytes;
    'bytes: while let Some((first, after)) = rest.split_first() {
        if *first == b'"' {
            return closed(said, after);
        }
        if *first == b'\\' {
            let Some((letter, digits)) = after.split_first() else {
                let kind = FaultKind::OpenString;
                return Err(ReadError::Fault { kind, left: 0 });
            };
            match escape_at(*letter, digits) {
                Ok((c, next)) => {
                    push_char(&mut said, c)?;
                    rest = next;
                }
                Err(kind) => {
                    let left = rest.len();
                    return Err(ReadError::Fault { kind, left });
                }
            }
        } else if *first < 32 {
            let (kind, left) = (FaultKind::Control, rest.len());
            return Err(ReadError::Fault { kind, left });
        } else {
            said.push(*first)?;
            rest = after;
        }
    }
    let kind = FaultKind::OpenString;
    Err(ReadError::Fault { kind, left: 0 })
}
