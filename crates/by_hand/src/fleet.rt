//! Fleets: tables of the schema
//!
//! ```text
//! table Fleet { owner: Owner; heir: Owner; shares: [Owner]; }
//! ```

ghost use Rattle.std.specs.Prelude.{◌≡◌, ◌≤◌, [], ◌∷◌, length, codes, IfOk, MatchOption, ⊤};
ghost use Rattle.planus.specs.read.Values.{text};
ghost use Rattle.planus.specs.write.InBuilder.{IsIn};
ghost use Rattle.planus.specs.write.State.{Grows};
ghost use Rattle.planus.specs.Contents.{WritesContents};
ghost use Rattle.planus.specs.Holds.{holds_text, holds_u8, holds_union_tag, holds_union_value};
ghost use Rattle.planus.specs.Holds.{holds_variant_tags, holds_variant_values};
ghost use Rattle.planus.specs.UnionAccessors.{IsUnionField, IsUnionVector};
ghost use Rattle.planus.specs.Unions.{ReadsVariants};
ghost use Rattle.by_hand.specs.declared.owner.Owner.{Owner};
ghost use Rattle.by_hand.specs.Owners.{owner_variants};

use crate::owner::{Owner, OwnerRef};
use planus::{
    BuildError, Builder, Offset, Result, TableKind, TableRef, TableWriter, Text, UnionOffset,
    UnionVector, Variant, create_table, fields, union_field, union_vector, variant,
};

/// The kind of a fleet.
pub struct Fleet;

/// An owner by name.
pub type Named<'a> = Variant<1, Text, &'a str>;

impl Fleet {
    /// Writes a fleet, with the names of its heir and shareholders. Its owner is written already.
    pub fn create(
        builder: &mut Builder,
        owner: Option<UnionOffset<Owner>>,
        heir: &str,
        shares: &[Named<'_>],
    ) -> std::result::Result<Offset<Fleet>, BuildError>
        requires { MatchOption owner ⊤ (λ owner. IsIn builder.old owner.offset) }
        ensures kept { IfOk result (λ offset. WritesContents
            ((1, holds_union_value owner)
            ∷ (3, holds_text heir.now)
            ∷ (4, holds_variant_tags 1 (λ share. text share.value.now) shares.now)
            ∷ (5, holds_variant_values 1 (λ share. text share.value.now) shares.now)
            ∷ (0, holds_union_tag owner) ∷ (2, holds_u8 1) ∷ [])
            builder.old offset.distance builder.new) }
        ensures reached { IfOk result (λ offset. offset.distance ≤ length builder.new.bytes) }
        ensures grows { Grows builder.old builder.new }
    {
        let fields = fields![
            (0, 1): union Owner = owner,
            (2, 3): union Owner = variant![1: Text = heir],
            (4, 5): unions Owner = shares,
        ];
        create_table::<Fleet, _>(builder, fields)
    }

    pub fn owner<'a>(fleet: &TableRef<'a, Fleet>) -> Result<Option<OwnerRef<'a>>>
        ensures { IsUnionField (ReadsVariants owner_variants) fleet.now.table 0 (codes "Fleet")
            (codes "owner") Owner result }
    {
        union_field::<Owner, OwnerRef<'a>>(&fleet.table, 0, "Fleet", "owner")
    }

    pub fn heir<'a>(fleet: &TableRef<'a, Fleet>) -> Result<Option<OwnerRef<'a>>>
        ensures { IsUnionField (ReadsVariants owner_variants) fleet.now.table 2 (codes "Fleet")
            (codes "heir") Owner result }
    {
        union_field::<Owner, OwnerRef<'a>>(&fleet.table, 2, "Fleet", "heir")
    }

    pub fn shares<'a>(fleet: &TableRef<'a, Fleet>) -> Result<Option<UnionVector<'a, OwnerRef<'a>>>>
        ensures { IsUnionVector fleet.now.table 4 (codes "Fleet") (codes "shares") result }
    {
        union_vector(&fleet.table, 4, "Fleet", "shares")
    }
}

impl TableKind for Fleet {
    type Writer = TableWriter<16>;

    ghost name = { codes "[FleetRef]" };

    fn name() -> &'static str
        ensures { result.now ≡ codes "[FleetRef]" }
    {
        "[FleetRef]"
    }
}
