//! Laws over encoded values and readers. Each function is a theorem.

ghost use Rattle.std.specs.Int.{Width};
ghost use Rattle.std.specs.Prelude.{◌≡◌, ℕ, List};
ghost use Rattle.planus_read.specs.ListItems.{PlainItemsStand, ReferenceItemsStand};
ghost use Rattle.planus_read.specs.ListItems.{UnionItemsStand};
ghost use Rattle.planus_read.specs.Reading.{number_reading, signed_reading, truth_reading};
ghost use Rattle.planus_read.specs.Reading.{head_reading, text_reading, byte_list_reading};
ghost use Rattle.planus_read.specs.Reading.{vector_reading, union_vector_reading, table_reading};
ghost use Rattle.planus_read.specs.Reading.{plain_ref_reading};
ghost use Rattle.planus_read.specs.ReadingLaws.{IsLawful, IsShown};
ghost use Rattle.planus_read.specs.Heads.{ShowsItems};
ghost use Rattle.planus_read.specs.Slices.{ShowsBytes};
ghost use Rattle.planus_read.specs.SignedBytes.{ShowsSigned};
ghost use Rattle.planus_read.specs.SizePrefixed.{prefixed_reading, ShowsPrefixed};
ghost use Rattle.planus_read.specs.SizePrefixed.{BuffersAreRead, StreamsRead};
ghost use Rattle.planus_read.specs.SizePrefixed.{CutsAreRefused};
ghost use Rattle.planus_read.specs.Tables.{ShowsTable};
ghost use Rattle.planus_read.specs.SliceLaws.{ReferencesLead, LeadsInSlices, FieldsStandInSlices};
ghost use Rattle.planus_read.specs.SliceLaws.{StandsInSlices};
ghost use Rattle.planus_read.specs.ReadsBack.{FieldsReadBack, WhatStandsReadsBack};
ghost use Rattle.planus_read.specs.TableReading.{FieldsRead, UnionsRead, UnionVectorsRead};
ghost use Rattle.planus_read.specs.Moves.{KeepsStanding, KeepsLeading, StandsAlone, LeadsAlone};

use crate::plain::Plain;
use crate::traits::{TableRead, TableReadUnion, TableReadUnionVector};

/// A scalar's alignment is its size.
pub fn scalars_are_aligned_to_their_size()
    ensures u8 { ⟦<u8 as Plain>⟧.ALIGNMENT ≡ ⟦<u8 as Plain>⟧.SIZE }
    ensures u16 { ⟦<u16 as Plain>⟧.ALIGNMENT ≡ ⟦<u16 as Plain>⟧.SIZE }
    ensures u32 { ⟦<u32 as Plain>⟧.ALIGNMENT ≡ ⟦<u32 as Plain>⟧.SIZE }
    ensures u64 { ⟦<u64 as Plain>⟧.ALIGNMENT ≡ ⟦<u64 as Plain>⟧.SIZE }
    ensures i8 { ⟦<i8 as Plain>⟧.ALIGNMENT ≡ ⟦<i8 as Plain>⟧.SIZE }
    ensures i16 { ⟦<i16 as Plain>⟧.ALIGNMENT ≡ ⟦<i16 as Plain>⟧.SIZE }
    ensures i32 { ⟦<i32 as Plain>⟧.ALIGNMENT ≡ ⟦<i32 as Plain>⟧.SIZE }
    ensures i64 { ⟦<i64 as Plain>⟧.ALIGNMENT ≡ ⟦<i64 as Plain>⟧.SIZE }
    ensures bool { ⟦<bool as Plain>⟧.ALIGNMENT ≡ ⟦<bool as Plain>⟧.SIZE }
    ensures f32 { ⟦<f32 as Plain>⟧.ALIGNMENT ≡ ⟦<f32 as Plain>⟧.SIZE }
    ensures f64 { ⟦<f64 as Plain>⟧.ALIGNMENT ≡ ⟦<f64 as Plain>⟧.SIZE }
{}

/// Whatever is prepended, values stay encoded and references lead to the same distance from the
/// end.
pub fn keeps_standing()
    ensures value { KeepsStanding }
    ensures reference { KeepsLeading }
{}

/// A value or a reference needs no bytes before it.
pub fn stands_alone()
    ensures value { StandsAlone }
    ensures reference { LeadsAlone }
{}

/// All clauses hold exactly where a value is encoded, which is then the only result.
pub fn readings_are_lawful()
    ensures number { (S : List ℕ) (f : ℕ) (width : Width) → IsLawful (number_reading S f width) }
    ensures signed { (S : List ℕ) (f : ℕ) (width : Width) → IsLawful (signed_reading S f width) }
    ensures truth { (S : List ℕ) (f : ℕ) → IsLawful (truth_reading S f) }
    ensures head { (S : List ℕ) (f : ℕ) → IsLawful (head_reading S f) }
    ensures text { (S : List ℕ) (f : ℕ) → IsLawful (text_reading S f) }
    ensures byte_list { (S : List ℕ) (f : ℕ) → IsLawful (byte_list_reading S f) }
    ensures vector { (S : List ℕ) (f stride : ℕ) → IsLawful (vector_reading S f stride) }
    ensures union_vector { (S : List ℕ) (f g : ℕ) → IsLawful (union_vector_reading S f g) }
    ensures table { (S : List ℕ) (f : ℕ) → IsLawful (table_reading S f) }
    ensures plain_ref { (size : ℕ) (S : List ℕ) (f : ℕ) → IsLawful (plain_ref_reading size S f) }
    ensures size_prefixed { (B : List ℕ) → IsLawful (prefixed_reading B) }
{}

/// A reader returns what shows the encoded value.
pub fn readers_show_values()
    ensures head { (S : List ℕ) (start f : ℕ) → IsShown (head_reading S f) (ShowsItems S start) }
    ensures text { (S : List ℕ) (f : ℕ) → IsShown (text_reading S f) ShowsBytes }
    ensures byte_list { (S : List ℕ) (f : ℕ) → IsShown (byte_list_reading S f) ShowsBytes }
    ensures signed_bytes { (S : List ℕ) (f : ℕ) → IsShown (byte_list_reading S f) ShowsSigned }
    ensures table { (S : List ℕ) (start f : ℕ) → IsShown (table_reading S f) (ShowsTable S start) }
    ensures size_prefixed { (B : List ℕ) → IsShown (prefixed_reading B) ShowsPrefixed }
{}

/// Size-prefixed buffers are read one by one, and one that is cut off fails.
pub fn streams_are_read()
    ensures first { BuffersAreRead }
    ensures read { StreamsRead }
    ensures cut { CutsAreRefused }
{}

/// What is encoded is encoded in each slice that begins no further on.
pub fn slices_keep_what_stands()
    ensures reference { ReferencesLead }
    ensures leads { LeadsInSlices }
    ensures field { FieldsStandInSlices }
    ensures value { StandsInSlices }
{}

/// Item i of a vector follows the count and i items.
pub fn items_stand()
    ensures plain { PlainItemsStand }
    ensures references { ReferenceItemsStand }
    ensures unions { UnionItemsStand }
{}

/// An encoded field is read as its value.
pub fn fields_read_back()
    ensures { FieldsReadBack }
{}

/// An encoded value whose strings are UTF-8 is the only result of each reference to it.
pub fn what_stands_reads_back()
    ensures { WhatStandsReadsBack }
{}

/// `access` and `access_required` return the fields of a written table.
pub fn fields_are_answered<'buf, T: TableRead<'buf>>()
    ensures { FieldsRead T.reads }
{}

/// `access_union` and `access_union_required` do the same for unions.
pub fn unions_are_answered<'buf, T: TableReadUnion<'buf>>()
    ensures { UnionsRead T.reads }
{}

/// `access_union_vector` and `access_union_vector_required` do the same for union vectors.
pub fn union_vectors_are_answered<'buf, T: TableReadUnionVector<'buf>>()
    ensures { UnionVectorsRead T.reads }
{}
