//! The state of a replay.
ghost use Rattle.std.specs.Prelude.{◌≡◌, [], ◌+◌, ◌<◌, ◌^◌, vec_len, length, map, IfOk, IfErr, Ok};
ghost use Rattle.planus_write.specs.View.{settings_of};
ghost use Rattle.planus_write.specs.History.{no_history};
ghost use Rattle.planus_write.specs.State.{IsHistoryOf};
ghost use Rattle.planus_write.specs.Preparing.{Answers};
ghost use Rattle.planus_write.specs.Unions.{WritesUnionVector, union_reach};
ghost use Rattle.std.specs.List.{AllByRecursion};
ghost use Rattle.std.specs.Prelude.{◌≤◌};
ghost use Rattle.planus.specs.Steps.{bare_step, bare_field, front_of};
ghost use Rattle.planus.specs.Runs as spec;
ghost use Rattle.planus.specs.Replays.{place_of};
ghost use Rattle.planus.specs.Kinds.{a_value};
ghost use Rattle.planus.specs.inner.Names.{name_of, offset_named, vector_named, listed_from};
ghost use Rattle.planus.specs.inner.Names.{FindsNamed};
ghost use Rattle.planus.specs.inner.Replaying.{names, state_with, FindsValues, FindsUnions};
ghost use Rattle.planus.specs.inner.Replaying.{HasTaken};
ghost use Rattle.planus.specs.inner.Replaying.{Advanced, AreReached, IsNarrowed, Narrowed};
ghost use Rattle.planus.specs.inner.Replaying.{WritesValue};
ghost use Rattle.planus.specs.inner.Prepared.{PreparesUnion};
ghost use Rattle.planus.specs.inner.Declaring.{DeclaresTable};
ghost use Rattle.planus.specs.declared.replaying.faults.ReplayError.TheVariants.{BadStep};
ghost use Rattle.std.specs.Int.{Width, w16, w32, w64};
ghost use Rattle.std.specs.List.{list_all};
ghost use Rattle.std.specs.Prelude.{ℕ, true};
ghost use Rattle.planus.specs.Steps as step;

use crate::replaying::faults::{ReplayError, Why};
use crate::replaying::finishes::{Finished, StepPlace};
use crate::replaying::named_steps::NamedSteps;
use crate::replaying::plain_items::PlainItems;
use crate::replaying::prepared_field::VTABLE_SIZE;
use crate::replaying::slots::{check_slot, fits_table};
use crate::replaying::steps::{Field, Step};
use crate::replaying::struct_bytes::StructBytes;
use crate::replaying::table_body::TableBody;
use crate::replaying::written::Written;
use planus_write::{
    Builder, ByteList, Caches, Offset, TableWriter, UnionOffset, UnionVectorOffset, WriteAsOffset,
    WriteAsUnionVector,
};
use std::alloc::{AllocError, Global};

#[derive(Drop)]
pub(crate) struct ReplayState {
    builder: Builder,
    // The number of the first step after the last clear.
    first: usize,
    // What each step since wrote, if a value.
    offsets: Vec<Option<Written>>,
    pub(crate) finished: Vec<Finished>,
}

fn places_of(
    alloc: Global,
    first: usize,
    offsets: &[Option<Written>],
) -> Result<Vec<StepPlace>, AllocError>
    requires { first + length offsets.now < 2 ^ 64 }
    ensures { IfOk result (λ places. map place_of places.items ≡ listed_from first
        (map name_of offsets.now)) }
{
    // Finishes are steps too, and can be most of them.
    let values = offsets.iter().flatten().count();
    let mut places = Vec::with_capacity(alloc, values)?;
    for (index, offset) in offsets.iter().enumerate() {
        if let Some(written) = offset {
            places.push(StepPlace {
                step: first + index,
                distance: written.distance(),
                tags: written.tags(),
            })?;
        }
    }
    Ok(places)
}

trait Narrow: Drop + Sized {
    ghost width: { Width };

    ghost number: { Self → ℕ };

    fn narrow(wide: u64) -> Option<Self>
        ensures { IsNarrowed number width wide result };
}

impl Narrow for u16 {
    ghost width = { w16 };

    ghost number = { λ n. n };

    fn narrow(wide: u64) -> Option<u16> {
        u16::try_from(wide).ok()
    }
}

impl Narrow for u32 {
    ghost width = { w32 };

    ghost number = { λ n. n };

    fn narrow(wide: u64) -> Option<u32> {
        u32::try_from(wide).ok()
    }
}

fn narrowed<T: Narrow>(alloc: Global, items: &[u64]) -> Result<Option<Vec<T>>, AllocError>
    ensures { IfOk result (Narrowed T.number T.width items.now) }
{
    let mut numbers = Vec::with_capacity(alloc, items.len())?;
    for item in items {
        match T::narrow(*item) {
            Some(number) => numbers.push(number)?,
            None => return Ok(None),
        }
    }
    Ok(Some(numbers))
}

impl ReplayState {
    pub(crate) fn new(alloc: Global, caches: Caches) -> Result<ReplayState, ReplayError>
        ensures history { IfOk result (λ replay. IsHistoryOf replay.builder no_history) }
        ensures settings { IfOk result (λ replay. replay.builder.settings ≡ settings_of caches) }
        ensures nothing { IfOk result (λ replay. state_with replay no_history
            ≡ spec.nothing_written) }
        ensures taken { IfOk result (λ replay. HasTaken replay []) }
        ensures error { IfErr result (λ error. error ≡ ReplayError.OutOfMemory) }
    {
        Ok(ReplayState {
            builder: Builder::with_caches(alloc, 0, caches)?,
            first: 0,
            offsets: Vec::new(alloc),
            finished: Vec::new(alloc),
        })
    }

    fn earlier(&self) -> NamedSteps<'_>
        ensures first { result.first ≡ self.now.first }
        ensures offsets { result.offsets.now ≡ self.now.offsets.items }
    {
        NamedSteps {
            first: self.first,
            offsets: self.offsets.as_slice(),
        }
    }

    fn value(&self, step: usize) -> Result<Offset<()>, Why>
        ensures { FindsNamed a_value offset_named self.now.first (names self.now) step result }
    {
        self.earlier().value(step)
    }

    fn values(&self, alloc: Global, steps: &[usize]) -> Result<Vec<Offset<()>>, ReplayError>
        requires { self.now.first + vec_len self.now.offsets < 2 ^ 64 }
        ensures { FindsValues self.now steps.now result }
    {
        let mut offsets = Vec::with_capacity(alloc, steps.len())?;
        for step in steps {
            match self.value(*step) {
                Ok(offset) => offsets.push(offset)?,
                Err(why) => return Err(self.bad_step(why)),
            }
        }
        Ok(offsets)
    }

    fn union(&self, item: (u8, usize)) -> Result<UnionOffset<()>, Why>
        ensures { PreparesUnion self.now.first (names self.now) item result }
    {
        self.earlier().union(item)
    }

    fn union_items(
        &self,
        alloc: Global,
        items: &[(u8, usize)],
    ) -> Result<Vec<UnionOffset<()>>, ReplayError>
        requires { self.now.first + vec_len self.now.offsets < 2 ^ 64 }
        ensures { FindsUnions self.now items.now result }
    {
        let mut unions = Vec::with_capacity(alloc, items.len())?;
        for item in items {
            match self.union(*item) {
                Ok(union) => unions.push(union)?,
                Err(why) => return Err(self.bad_step(why)),
            }
        }
        Ok(unions)
    }

    fn bad_step(&self, why: Why) -> ReplayError
        requires { self.now.first + vec_len self.now.offsets < 2 ^ 64 }
        ensures { result ≡ BadStep (self.now.first + length self.now.offsets.items) why }
    {
        let step = self.first + self.offsets.len();
        ReplayError::BadStep { step, why }
    }

    fn write<T, X: WriteAsOffset<T>>(&mut self, value: &X) -> Result<(), ReplayError>
        requires { X.may value.now self.old.builder }
        ensures { WritesValue offset_named (X.outcome value.now) self.old result self.new }
    {
        let offset = value.prepare(&mut self.builder)?;
        self.offsets.push(Some(Written::Value(offset.downcast())))?;
        Ok(())
    }

    fn numbers(&mut self, alloc: Global, width: u8, items: &[u64]) -> Result<(), ReplayError>
        requires { self.old.first + vec_len self.old.offsets < 2 ^ 64 }
        ensures { Advanced self.old (step.numbers width items.now) result self.new }
    {
        match width {
            2 => match narrowed::<u16>(alloc, items)? {
                Some(items) => self.write(&items),
                None => Err(self.bad_step(Why::ValueTooBig)),
            },
            4 => match narrowed::<u32>(alloc, items)? {
                Some(items) => self.write(&items),
                None => Err(self.bad_step(Why::ValueTooBig)),
            },
            8 => self.u64s(items),
            _ => Err(self.bad_step(Why::WidthUnknown)),
        }
    }

    fn u64s(&mut self, items: &[u64]) -> Result<(), ReplayError>
        requires { list_all (spec.fits_width w64) items.now ≡ true }
        ensures { Advanced self.old (step.numbers 8 items.now) result self.new }
    {
        self.write(&items)
    }

    fn structure(&mut self, alignment: u8, bytes: &[u8]) -> Result<(), ReplayError>
        requires { self.old.first + vec_len self.old.offsets < 2 ^ 64 }
        ensures { Advanced self.old (step.struct alignment bytes.now) result self.new }
    {
        match StructBytes::checked(alignment, bytes) {
            Ok(part) => self.write(&part),
            Err(why) => Err(self.bad_step(why)),
        }
    }

    fn plains(&mut self, alignment: u8, size: usize, bytes: &[u8]) -> Result<(), ReplayError>
        requires { self.old.first + vec_len self.old.offsets < 2 ^ 64 }
        ensures { Advanced self.old (step.plains alignment size bytes.now) result self.new }
    {
        match PlainItems::checked(alignment, size, bytes) {
            Ok(items) => self.write(&items),
            Err(why) => Err(self.bad_step(why)),
        }
    }

    fn refs(&mut self, alloc: Global, steps: &[usize]) -> Result<(), ReplayError>
        requires reached { AreReached self.old }
        requires number { self.old.first + vec_len self.old.offsets < 2 ^ 64 }
        ensures { Advanced self.old (step.refs steps.now) result self.new }
    {
        let offsets = self.values(alloc, steps)?;
        self.write(&offsets)
    }

    fn write_unions(&mut self, unions: &[UnionOffset<()>]) -> Result<(), ReplayError>
        requires { AllByRecursion (λ union. union_reach union ≤ length self.old.builder.bytes)
            unions.now }
        ensures { WritesValue vector_named (WritesUnionVector Answers unions.now) self.old result
            self.new }
    {
        let vector: UnionVectorOffset<()> = unions.prepare(&mut self.builder)?;
        self.offsets.push(Some(Written::Unions(vector)))?;
        Ok(())
    }

    fn unions(&mut self, alloc: Global, items: &[(u8, usize)]) -> Result<(), ReplayError>
        requires reached { AreReached self.old }
        requires number { self.old.first + vec_len self.old.offsets < 2 ^ 64 }
        ensures { Advanced self.old (step.unions items.now) result self.new }
    {
        let unions = self.union_items(alloc, items)?;
        self.write_unions(unions.as_slice())
    }

    fn declared(&self, fields: &[Field]) -> Result<TableWriter<VTABLE_SIZE>, Why>
        requires { AreReached self.now }
        ensures { DeclaresTable self.now (map bare_field fields.now) result }
    {
        let mut writer = TableWriter::default();
        let fits = fits_table(fields);
        let mut before = 16;
        for (index, field) in fields.iter().enumerate() {
            check_slot(&fields[..index], field.slot)?;
            let prepared = self.earlier().prepare(&field.value)?;
            if before < prepared.alignment() {
                return Err(Why::RisingAlignment);
            }
            before = prepared.alignment();
            if fits {
                prepared.declare(&mut writer, field.slot as usize);
            }
        }
        if !fits {
            return Err(Why::TableTooBig);
        }
        Ok(writer)
    }

    fn table(&mut self, fields: &[Field]) -> Result<(), ReplayError>
        requires reached { AreReached self.old }
        requires number { self.old.first + vec_len self.old.offsets < 2 ^ 64 }
        ensures { Advanced self.old (step.table (map bare_field fields.now)) result self.new }
    {
        let writer = match self.declared(fields) {
            Ok(writer) => writer,
            Err(why) => return Err(self.bad_step(why)),
        };
        let earlier = NamedSteps {
            first: self.first,
            offsets: self.offsets.as_slice(),
        };
        writer.finish(&mut self.builder, &TableBody { earlier, fields })?;
        let table = self.builder.current_offset();
        self.offsets.push(Some(Written::Value(table)))?;
        Ok(())
    }

    pub(crate) fn advance(&mut self, alloc: Global, step: &Step) -> Result<(), ReplayError>
        requires reached { AreReached self.old }
        requires number { self.old.first + vec_len self.old.offsets + 1 < 2 ^ 64 }
        ensures { Advanced self.old (bare_step step.now) result self.new }
    {
        match step {
            Step::Text(text) => self.write(&text.as_str()),
            Step::Bytes(bytes) => self.write(&ByteList(bytes.as_slice())),
            Step::Numbers { width, items } => self.numbers(alloc, *width, items.as_slice()),
            Step::Refs(steps) => self.refs(alloc, steps.as_slice()),
            Step::Unions(items) => self.unions(alloc, items.as_slice()),
            Step::Struct { alignment, bytes } => self.structure(*alignment, bytes.as_slice()),
            Step::Plains {
                alignment,
                size,
                bytes,
            } => self.plains(*alignment, *size, bytes.as_slice()),
            Step::Table(fields) => self.table(fields.as_slice()),
            Step::Finish { root, id } => self.finish(alloc, *root, *id, false),
            Step::FinishSized { root, id } => self.finish(alloc, *root, *id, true),
            Step::Clear => {
                self.clear();
                Ok(())
            }
        }
    }

    fn clear(&mut self)
        requires { self.old.first + vec_len self.old.offsets + 1 < 2 ^ 64 }
        ensures { Advanced self.old step.clear (Ok tt) self.new }
    {
        self.builder.clear();
        self.first += self.offsets.len() + 1;
        self.offsets.clear();
    }

    fn finish(
        &mut self,
        alloc: Global,
        root: usize,
        id: Option<[u8; 4]>,
        sized: bool,
    ) -> Result<(), ReplayError>
        requires reached { AreReached self.old }
        requires number { self.old.first + vec_len self.old.offsets < 2 ^ 64 }
        ensures { Advanced self.old (step.finish (front_of sized) root id) result self.new }
    {
        let root = match self.value(root) {
            Ok(root) => root,
            Err(why) => return Err(self.bad_step(why)),
        };
        let bytes = if sized {
            Vec::from_slice(alloc, self.builder.finish_size_prefixed(root, id)?)?
        } else {
            Vec::from_slice(alloc, self.builder.finish(root, id)?)?
        };
        let places = places_of(alloc, self.first, self.offsets.as_slice())?;
        self.finished.push(Finished { bytes, places })?;
        self.offsets.push(None)?;
        Ok(())
    }
}
