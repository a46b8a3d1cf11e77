//! Services.

ghost use Rattle.planus_syntax.specs.Tokens.{pieces_of};
ghost use Rattle.planus_syntax.specs.Values.{MethodV, method_of, item_of, service as service_item};
ghost use Rattle.planus_syntax.specs.Reading as spec;
ghost use Rattle.planus_syntax.specs.Counting.{GivesCounted, ItemCounted, MethodCounted};
ghost use Rattle.planus_syntax.specs.Values.{method_before};

use crate::parse::attributes::{attributes_at, closing_at, docs_at};
use crate::parse::lists::{Items, list_of};
use crate::parse::paths::path_at;
use crate::parse::tokens::{inside, mark_at, word_at};
use crate::read_error::ReadError;
use crate::token::Token;
use crate::value::{Item, Method, Service};
use std::alloc::Global;

/// The methods of a service.
pub(crate) struct Methods;

impl Items for Methods {
    ghost Value = { MethodV };

    ghost goes_on = { spec.inside };

    ghost item_at = { spec.method_at };

    ghost value_of = { method_of };

    ghost before = { method_before };

    ghost Counted = { MethodCounted };

    type Item = Method;

    fn goes_on(tokens: &[Token]) -> bool {
        inside(tokens)
    }

    fn item_at(alloc: Global, tokens: &[Token]) -> Result<(Method, &[Token]), ReadError> {
        let (docs, start) = or_return!(docs_at(alloc, tokens));
        let (name, rest) = or_return!(word_at(alloc, start));
        let rest = or_return!(mark_at(rest, b'('));
        let (request, rest) = or_return!(path_at(alloc, rest));
        let rest = or_return!(mark_at(rest, b')'));
        let rest = or_return!(mark_at(rest, b':'));
        let (response, rest) = or_return!(path_at(alloc, rest));
        let (attributes, rest) = or_return!(attributes_at(alloc, rest));
        let rest = or_return!(mark_at(rest, b';'));
        Ok((
            Method {
                docs,
                left: start.len(),
                name,
                request,
                response,
                attributes,
            },
            rest,
        ))
    }
}

pub(crate) fn service_at(alloc: Global, tokens: &[Token]) -> Result<(Item, &[Token]), ReadError>
    ensures { GivesCounted (λ x. ItemCounted x.0 (pieces_of x.1.now))
        (λ x. (item_of x.0, pieces_of x.1.now)) result
        (spec.as_item service_item (spec.service_at (pieces_of tokens.now))) }
{
    let (name, rest) = or_return!(word_at(alloc, tokens));
    let (attributes, rest) = or_return!(attributes_at(alloc, rest));
    let rest = or_return!(mark_at(rest, b'{'));
    let (methods, rest) = or_return!(list_of::<Methods>(alloc, rest));
    let (trailing, rest) = or_return!(closing_at(alloc, rest));
    Ok((
        Item::Service(Service {
            name,
            attributes,
            methods,
            trailing,
        }),
        rest,
    ))
}
