use planus_testing::{Test, check_eq};
use planus_view::{Cut, ReadView, SubViews, VectorOf, View};

fn rest_of<A: Drop, V: View>(split: Option<(A, VectorOf<V>)>) -> Option<usize> {
    match split {
        Some((_item, rest)) => Some(rest.len()),
        None => None,
    }
}

fn counted<V: ReadView>(v: &VectorOf<V>) -> usize
where
    V::Item: Drop,
{
    let mut items: usize = 0;
    for _ in v {
        items = items.saturating_add(1);
    }
    items
}

pub fn check_item_calls<V: ReadView>(test: &Test<'_>, v: VectorOf<V>, len: usize, row: &str)
where
    V::Item: Drop,
{
    let rest = len.checked_sub(1);
    let mut back = v.iter();
    let last = back.next_back().is_some();
    let found = [
        last,
        v.first().is_some(),
        v.last().is_some(),
        v.get(0usize).is_some(),
    ];
    let rests = [rest_of(v.split_first()), rest_of(v.split_last())];
    let counts = [v.iter().count(), v.into_iter().count(), counted(&v)];
    check_eq(test, &found, &[len > 0; 4], row);
    check_eq(test, &back.len(), &rest.unwrap_or(0), row);
    check_eq(test, &rests, &[rest; 2], row);
    check_eq(test, &counts, &[len; 3], row);
}

fn lengths<V: View>(parts: (VectorOf<V>, VectorOf<V>)) -> (usize, usize) {
    let (front, back) = parts;
    (front.len(), back.len())
}

pub fn taken<V: View, C: Cut>(parts: SubViews<VectorOf<V>, C>) -> usize {
    let mut items: usize = 0;
    for part in parts.clone().unwrap() {
        items = items.saturating_add(part.len());
    }
    items
}

fn check_ranges<V: View>(test: &Test<'_>, v: VectorOf<V>, len: usize, row: &str) {
    let all = match v.get(..) {
        Some(all) => Some(all.len()),
        None => None,
    };
    check_eq(test, &v.len(), &len, row);
    check_eq(test, &v.is_empty(), &(len == 0), row);
    check_eq(test, &all, &Some(len), row);
    check_eq(test, &v.get_unchecked(0..0).len(), &0, row);
}

fn check_splits<V: View>(test: &Test<'_>, v: VectorOf<V>, len: usize, row: &str) {
    let split = match v.split_at(1) {
        Some(parts) => Some(lengths(parts)),
        None => None,
    };
    let want = match len.checked_sub(1) {
        Some(rest) => Some((1, rest)),
        None => None,
    };
    check_eq(test, &lengths(v.split_at_unchecked(0)), &(0, len), row);
    check_eq(test, &split, &want, row);
}

fn check_cuts<V: View>(test: &Test<'_>, v: VectorOf<V>, len: usize, row: &str) {
    let even = len - len % 2;
    let in_windows = len.saturating_sub(1).saturating_mul(2);
    let all = [taken(v.chunks(2)), taken(v.rchunks(2))];
    let exact = [taken(v.chunks_exact(2)), taken(v.rchunks_exact(2))];
    let (front, back) = (
        v.chunks_exact(2).remainder(),
        v.rchunks_exact(2).remainder(),
    );
    check_eq(test, &all, &[len; 2], row);
    check_eq(test, &exact, &[even; 2], row);
    check_eq(test, &lengths((front, back)), &(len % 2, len % 2), row);
    check_eq(test, &taken(v.windows(2)), &in_windows, row);
}

pub fn check_part_calls<V: View>(test: &Test<'_>, v: VectorOf<V>, len: usize, row: &str) {
    check_ranges(test, v, len, row);
    check_splits(test, v, len, row);
    check_cuts(test, v, len, row);
}
