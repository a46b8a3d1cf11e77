//! Sites: tables of the schema
//!
//! ```text
//! table Site { home: Pos (required); track: [Pos]; fix: Fix (deprecated); kind: Kind = Bike;
//!     heat: float = 1.0; kinds: [Kind]; leg: Leg (deprecated); features: Features;
//!     depth: double; levels: [double]; }
//! ```

ghost use Rattle.std.specs.Prelude.{◌≡◌, ◌*◌, ◌≤◌, length, codes, IfOk, Some, slice_get, ℕ};
ghost use Rattle.std.specs.Prelude.{List as list};
ghost use Rattle.planus.specs.read.Shapes.{f32_shape, f64_shape};
ghost use Rattle.planus.specs.view.Indexes.{GetsItem};
ghost use Rattle.planus.specs.view.VectorView.{count_of, view_of};
ghost use Rattle.planus.specs.write.State.{Grows};
ghost use Rattle.planus.specs.Contents.{WritesContents};
ghost use Rattle.planus.specs.Accessors.{IsPlainRequired, IsPlainVector};
ghost use Rattle.planus.specs.ReadPlain.{ArePlain, IsPlainFieldOr};
ghost use Rattle.by_hand.specs.Structs.{pos_shape, features_shape};
ghost use Rattle.by_hand.specs.Kinds.{kind_shape};
ghost use Rattle.by_hand.specs.Sites.{site_contents, IsKnownOr};
ghost use Rattle.by_hand.specs.declared.pos.Pos.{Pos};
ghost use Rattle.by_hand.specs.declared.kind.Kind.TheVariants.{Bike};

use crate::features::Features;
use crate::kind::Kind;
use crate::pos::Pos;
use planus::table_reader::Table;
use planus::{
    BuildError, Builder, List, Offset, OrDefault, Required, Result, TableKind, TableView,
    TableWriter, Vector, create_table, fields, known_or, plain_field_or, plain_item,
    plain_required, plain_vector,
};

/// The kind of a site.
pub struct Site;

pub const USUAL_HEAT: f32 = 1.0;

pub const USUAL_DEPTH: f64 = 0.0;

/// The fields of a site.
#[derive(Drop)]
pub struct SiteFields<'a> {
    pub home: Pos,
    pub track: Option<&'a [Pos]>,
    pub kind: Kind,
    pub heat: f32,
    pub kinds: &'a [Kind],
    pub features: Features,
    pub depth: f64,
    pub levels: &'a [f64],
}

impl Site {
    /// Writes a site. The kind `Bike`, and a depth of 0 of either sign, are left out.
    pub fn create(
        builder: &mut Builder,
        site: SiteFields<'_>,
    ) -> std::result::Result<Offset<Site>, BuildError>
        ensures kept { IfOk result (λ offset. WritesContents
            (site_contents ⟦<Kind as PartialEq>⟧.eq site.entry)
            builder.old offset.distance builder.new) }
        ensures reached { IfOk result (λ offset. offset.distance ≤ length builder.new.bytes) }
        ensures grows { Grows builder.old builder.new }
    {
        let depth = OrDefault {
            value: site.depth,
            default: USUAL_DEPTH,
        };
        let kind = OrDefault {
            value: site.kind,
            default: Kind::Bike,
        };
        let fields = fields![
            8: f64 = depth,
            0: Pos = Required(site.home),
            1: Offset<List<Pos>> = site.track,
            4: f32 = site.heat,
            5: Offset<List<Kind>> = site.kinds,
            9: Offset<List<f64>> = site.levels,
            3: Kind = kind,
            7: Features = site.features,
        ];
        create_table::<Site, _>(builder, fields)
    }
}

/// A site in a buffer.
#[derive(Clone, Copy)]
pub struct SiteRef<'a> {
    table: Table<'a>,
}

impl<'a> SiteRef<'a> {
    pub fn home(&self) -> Result<Pos>
        ensures { IsPlainRequired pos_shape self.now.table 0 (codes "Site") (codes "home") result }
    {
        plain_required(&self.table, 0, "Site", "home")
    }

    pub fn track(&self) -> Result<Option<Vector<'a, Pos>>>
        ensures { IsPlainVector self.now.table 1 (codes "Site") (codes "track") result }
    {
        plain_vector(&self.table, 1, "Site", "track")
    }

    pub fn kind(&self) -> Result<Kind>
        ensures { IsPlainFieldOr kind_shape Bike self.now.table 3 (codes "Site") (codes "kind")
            result }
    {
        plain_field_or(&self.table, 3, Kind::Bike, "Site", "kind")
    }

    /// Returns the kind, or another for an unknown number.
    pub fn kind_or(&self, other: Kind) -> Result<Kind>
        ensures { IsKnownOr other (IsPlainFieldOr kind_shape Bike self.now.table 3 (codes "Site")
            (codes "kind")) result }
    {
        known_or(self.kind(), other)
    }

    pub fn heat(&self) -> Result<f32>
        ensures { IsPlainFieldOr f32_shape USUAL_HEAT self.now.table 4 (codes "Site")
            (codes "heat") result }
    {
        plain_field_or(&self.table, 4, USUAL_HEAT, "Site", "heat")
    }

    /// Returns the kinds, whose numbers may be unknown.
    pub fn kinds(&self) -> Result<Option<Vector<'a, Result<Kind>>>>
        ensures { IsPlainVector self.now.table 5 (codes "Site") (codes "kinds") result }
    {
        plain_vector(&self.table, 5, "Site", "kinds")
    }

    pub fn features(&self) -> Result<Features>
        ensures { IsPlainFieldOr features_shape Features.NOTHING self.now.table 7 (codes "Site")
            (codes "features") result }
    {
        plain_field_or(&self.table, 7, Features::NOTHING, "Site", "features")
    }

    pub fn depth(&self) -> Result<f64>
        ensures { IsPlainFieldOr f64_shape USUAL_DEPTH self.now.table 8 (codes "Site")
            (codes "depth") result }
    {
        plain_field_or(&self.table, 8, USUAL_DEPTH, "Site", "depth")
    }

    pub fn levels(&self) -> Result<Option<Vector<'a, f64>>>
        ensures { IsPlainVector self.now.table 9 (codes "Site") (codes "levels") result }
    {
        plain_vector(&self.table, 9, "Site", "levels")
    }
}

/// Returns a point, or `None` out of bounds.
pub fn point(track: &Vector<'_, Pos>, index: usize) -> Option<Pos>
    ensures item { GetsItem (λ v. count_of v)
        (λ v i x. pos_shape.There (view_of v).bytes (i * 12) x) track.now index result }
    ensures read_back { (B : list ℕ) (positions : list Pos) (pos : Pos)
        → ArePlain B positions track.now → slice_get positions index ≡ Some pos
        → pos_shape.fits pos → result ≡ Some pos }
{
    plain_item(track, index)
}

impl<'a> TableView<'a> for SiteRef<'a> {
    type Kind = Site;

    ghost table = { λ site. site.table };

    fn of_table(read: Table<'a>) -> SiteRef<'a> {
        SiteRef { table: read }
    }
}

impl TableKind for Site {
    type Writer = TableWriter<24>;

    ghost name = { codes "[SiteRef]" };

    fn name() -> &'static str
        ensures { result.now ≡ codes "[SiteRef]" }
    {
        "[SiteRef]"
    }
}
