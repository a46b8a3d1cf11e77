//! Sites, read back.
ghost use Rattle.std.specs.Prelude.{◌≡◌, IfOk, IsOkAnd};

use crate::pos::Pos;
use crate::site::{Site, SiteFields, SiteRef};
use planus::{BuildError, Builder, Result, read_root};

/// Writes a site and reads its home. Once written and finished, the read never fails. No clause says
/// when writing fails, or what the builder then holds.
pub fn home_read_back(
    builder: &mut Builder,
    site: SiteFields<'_>,
) -> std::result::Result<Result<Pos>, BuildError>
    ensures { IfOk result (λ read. IsOkAnd read (λ home. home ≡ site.entry.home)) }
{
    builder.has_a_history();
    let offset = Site::create(builder, site)?;
    let bytes = builder.finish(offset, None)?;
    let root: Result<SiteRef<'_>> = read_root(bytes);
    match root {
        Ok(site) => Ok(site.home()),
        Err(error) => Ok(Err(error)),
    }
}
