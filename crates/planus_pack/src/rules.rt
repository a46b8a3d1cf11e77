use crate::pack_options::PackOptions;
use planus_schema::Declared;

/// By what a value is packed.
#[derive(Clone, Copy)]
pub(crate) struct Rules<'a> {
    pub declared: &'a [Declared],
    pub options: PackOptions,
}
