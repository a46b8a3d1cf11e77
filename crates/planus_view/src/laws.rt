//! Laws over views and ranges. Each function is a theorem.

ghost use Rattle.planus_view.specs.Laws.{TableHolds, EndsAddUp, EndsStep, ItemsOfSubViews};
ghost use Rattle.planus_view.specs.ReadBack.{PlainListsReadBack, ReferenceListsReadBack};

use planus_read::Stride;

/// The ranges of each kind are those of the table.
pub fn ranges_are_those_of_the_table()
    ensures { TableHolds }
{}

/// What is left depends only on the number taken at each end.
pub fn ends_add_up()
    ensures sum { EndsAddUp }
    ensures steps { EndsStep }
{}

/// Item i of a sub-view from `lo` on is item `lo + i` of the view, up to the offset in an error.
pub fn sub_views_have_the_items()
    ensures { ItemsOfSubViews }
{}

/// An encoded vector is returned with its items, each of which reads back.
pub fn lists_read_back<T: Stride>()
    ensures plain { PlainListsReadBack T T.Stands.Plain }
    ensures references { ReferenceListsReadBack T T.Stands.Plain }
{}
