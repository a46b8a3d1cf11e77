//! Buffers whose values are where the format puts them.

ghost use Rattle.planus_read.specs.Aligned.{AlignedAt};
ghost use Rattle.planus_testing.specs.Rows.{text_axe_bytes, u64_list_bytes, one_u64};
ghost use Rattle.planus_testing.specs.Rows.{weapon_bytes, weapon_fields, union_vector_bytes};
ghost use Rattle.planus_testing.specs.Rows.{two_texts, u16_table_bytes, u16_table_fields};
ghost use Rattle.planus_read.specs.Stands.{Stands, ReferenceStands, at, at_both};
ghost use Rattle.planus_read.specs.Values.{text, plain_list, union_vector, table};
ghost use Rattle.std.specs.Prelude.{◌∷◌, []};

/// The string `Axe`, aligned at 4.
pub fn text_axe()
    ensures root { ReferenceStands text_axe_bytes 0 8 }
    ensures stands { Stands text_axe_bytes (at 4) (text (65 ∷ 120 ∷ 101 ∷ [])) }
    ensures aligned { AlignedAt text_axe_bytes (at 4) (text (65 ∷ 120 ∷ 101 ∷ [])) }
{}

/// The number of 8 bytes is at a multiple of 8.
pub fn u64_list()
    ensures root { ReferenceStands u64_list_bytes 0 19 }
    ensures stands { Stands u64_list_bytes (at 4) (plain_list 8 8 one_u64) }
    ensures aligned { AlignedAt u64_list_bytes (at 4) (plain_list 8 8 one_u64) }
    ensures text_stands { Stands u64_list_bytes (at 16) (text (72 ∷ 105 ∷ [])) }
    ensures text_aligned { AlignedAt u64_list_bytes (at 16) (text (72 ∷ 105 ∷ [])) }
{}

/// A table of two fields.
pub fn weapon()
    ensures root { ReferenceStands weapon_bytes 0 28 }
    ensures stands { Stands weapon_bytes (at 4) (table weapon_fields) }
    ensures aligned { AlignedAt weapon_bytes (at 4) (table weapon_fields) }
    ensures text_stands { Stands weapon_bytes (at 24) (text (65 ∷ 120 ∷ 101 ∷ [])) }
    ensures text_aligned { AlignedAt weapon_bytes (at 24) (text (65 ∷ 120 ∷ 101 ∷ [])) }
{}

/// Two strings and their union vector.
pub fn union_vector()
    ensures stands { Stands union_vector_bytes (at_both 0 8) (union_vector two_texts) }
    ensures aligned { AlignedAt union_vector_bytes (at_both 0 8) (union_vector two_texts) }
    ensures first_stands { Stands union_vector_bytes (at 28) (text (65 ∷ [])) }
    ensures first_aligned { AlignedAt union_vector_bytes (at 28) (text (65 ∷ [])) }
    ensures second_stands { Stands union_vector_bytes (at 20) (text (66 ∷ [])) }
    ensures second_aligned { AlignedAt union_vector_bytes (at 20) (text (66 ∷ [])) }
{}

/// A table of one field.
pub fn u16_table()
    ensures root { ReferenceStands u16_table_bytes 0 12 }
    ensures stands { Stands u16_table_bytes (at 4) (table u16_table_fields) }
    ensures aligned { AlignedAt u16_table_bytes (at 4) (table u16_table_fields) }
{}
