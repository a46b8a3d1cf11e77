//! Laws over runs and written tables. Each function is a theorem.

ghost use Rattle.planus.specs.ReadBack.{KeptTablesStand, KeptTablesStay};
ghost use Rattle.planus.specs.ReadBack.{FinishesKeepTables, SizedFinishesKeepTables};
ghost use Rattle.planus.specs.ReadBack.{FinishedTablesStand, SizedFinishedTablesStand};
ghost use Rattle.planus.specs.ReadBack.{RootsReadBack};
ghost use Rattle.planus.specs.KeptValues.{ValuesStandOn, ValuesStandFinished};
ghost use Rattle.planus.specs.KeptValues.{FinishesKeepValues, SizedFinishesKeepValues};
ghost use Rattle.planus.specs.ReadBack.{ItemsReadBack, ReferencesReadBack};
ghost use Rattle.planus.specs.ItemAccessors.{TableViewsReadBack};
ghost use Rattle.planus.specs.UnionsBack.{VariantsReadBack, RequiredVariantsReadBack};
ghost use Rattle.planus.specs.UnionsBack.{StructsOfUnionsReadBack, StructsHaveTheirBytes};
ghost use Rattle.planus.specs.UnionsBack.{VariantItemsReadBack};
ghost use Rattle.planus.specs.UnionsBack.{StructIsGiven, StructIsRequired};
ghost use Rattle.planus.specs.UnionsBack.{ReturnsStruct, ReturnsRequiredStruct};
ghost use Rattle.planus.specs.ReadPlain.{PlainResultsReadBack};
ghost use Rattle.planus.specs.Once.{EqualContentsHaveOneDistance, EqualEntriesGetOneDistance};
ghost use Rattle.planus.specs.Replays.{AnAnswerIsThere, AnswersAreOne};
ghost use Rattle.planus.specs.SameTrees.{TreesAreTheSame};
ghost use Rattle.planus_write.specs.Standing.{KeptStays};
ghost use Rattle.planus.specs.Streams.{SizedFinishesAreRead, SizedStreamsAreRead};

use crate::tables::TableView;
pub use planus_read::laws as read_laws;
use planus_read::located::Error;
use planus_read::{Plain, TableReadUnion};
pub use planus_unions::laws as unions_laws;
pub use planus_view::laws as view_laws;
pub use planus_write::laws as write_laws;
use planus_write::{UnionOffset, WriteAsOffset};

/// A stored table is encoded in what was written, with all that it refers to.
pub fn kept_tables_stand()
    ensures { KeptTablesStand }
{}

/// A stored table stays so until a clear.
pub fn kept_tables_stay()
    ensures { KeptTablesStay }
{}

/// A stored table is encoded in what any finish gives, also after its size if it has one.
pub fn finishes_keep_tables<T, X: WriteAsOffset<T>>()
    ensures root_first { FinishesKeepTables X.may X.outcome }
    ensures size_first { SizedFinishesKeepTables X.may X.outcome }
{}

/// A stored value stays so until a clear.
pub fn kept_values_stay()
    ensures history { KeptStays }
    ensures builder { ValuesStandOn }
{}

/// It is encoded in what any finish gives, aligned, also after its size if it has one.
pub fn finishes_keep_values<T, X: WriteAsOffset<T>>()
    ensures root_first { FinishesKeepValues X.may X.outcome }
    ensures size_first { SizedFinishesKeepValues X.may X.outcome }
    ensures builder { ValuesStandFinished X.may X.outcome }
{}

/// The first reference of a finish leads to the table that is its root.
pub fn finished_tables_stand<T>()
    ensures { FinishedTablesStand T }
{}

/// The same after the size of a size-prefixed finish.
pub fn sized_finished_tables_stand<T>()
    ensures { SizedFinishedTablesStand T }
{}

/// An encoded table reads back with all its contents, by any reference to it.
pub fn views_read_back<K>()
    ensures root { RootsReadBack K }
    ensures item { ItemsReadBack K }
    ensures reference { ReferencesReadBack K }
{}

/// An item of a fixed layout whose read may fail is returned by `get` as the value at its index.
pub fn plain_values_read_back<T: Plain>()
    ensures { PlainResultsReadBack T.Plain }
{}

/// An item of a vector of a user's views of tables, which are read by [`crate::read_item`], is
/// returned by `get` as the view of the table at its index.
pub fn table_views_read_back<'a, V: TableView<'a>>()
    ensures { TableViewsReadBack ⟦<u32 as Plain>⟧ V.Kind V.table }
{}

/// What stands in the buffer and was given to an optional union, or to a required one, is returned
/// by the union's field. A struct that [`create_plain`](crate::create_plain) wrote is returned with
/// its bytes.
pub fn unions_of_fields_read_back<K, U>()
    ensures variants { VariantsReadBack K U }
    ensures required { RequiredVariantsReadBack K U }
    ensures structs { StructsOfUnionsReadBack K U }
    ensures bytes { StructsHaveTheirBytes U }
{}

/// What the field of a union returned, where the union was given a struct of
/// [`create_plain`](crate::create_plain): that struct. `view` is that of the table whose field was
/// read.
///
/// A call says how these four belong together, so that a user's contract over what was read needs no
/// proof.
pub fn struct_is_read<'a, 'n, T: Plain, K, V: TableView<'a>, U: TableReadUnion<'a>>(
    value: &T,
    given: &UnionOffset<K>,
    view: &V,
    read: &Result<Option<U>, Error<'n>>,
)
    requires { StructIsGiven U.reads ((T.shape).encoded value.now) given.now (V.table view.now)
        read.now }
    ensures { ReturnsStruct U.reads given.now.tag ((T.shape).encoded value.now) read.now }
{}

/// The same of a required union.
pub fn required_struct_is_read<'a, 'n, T: Plain, K, V: TableView<'a>, U: TableReadUnion<'a>>(
    value: &T,
    given: &UnionOffset<K>,
    view: &V,
    read: &Result<U, Error<'n>>,
)
    requires { StructIsRequired U.reads ((T.shape).encoded value.now) given.now (V.table view.now)
        read.now }
    ensures { ReturnsRequiredStruct U.reads given.now.tag ((T.shape).encoded value.now) read.now }
{}

/// What stands in the buffer and was given to a vector of unions is returned as the item at its
/// index.
pub fn items_of_unions_read_back<T, E, U>()
    ensures { VariantItemsReadBack T E U }
{}

/// A list of steps has one result, out of memory aside, so none depends on the mask of the hashes.
pub fn answers_are_one()
    ensures { AnswersAreOne }
{}

/// Every list of steps has a result other than out of memory.
pub fn an_answer_is_there()
    ensures { AnAnswerIsThere }
{}

/// Equal contents that are cached have one distance from one clear to the next.
pub fn equal_contents_have_one_distance()
    ensures places { EqualContentsHaveOneDistance }
    ensures entries { EqualEntriesGetOneDistance }
{}

/// Two runs of the same steps give the same trees, whatever their cache settings: equal values in
/// the same order, but for their distances.
pub fn trees_are_the_same()
    ensures { TreesAreTheSame }
{}

/// Size-prefixed finishes are read one by one, and every value reads back.
pub fn sized_finishes_are_read()
    ensures one { SizedFinishesAreRead }
    ensures stream { SizedStreamsAreRead }
{}
