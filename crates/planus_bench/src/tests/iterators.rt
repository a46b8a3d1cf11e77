//! Each iterator beside a plain program, which lists ranges.

ghost use Rattle.std.specs.Prelude.{◌<◌};

use planus::{Error, SliceWithStartOffset, TableRead, TaggedPlace, UnionVector, Vector};
use planus_read::TableReadUnionVector;
use planus_view::{
    ByChunks, ByChunksExact, ByRChunks, ByRChunksExact, ByWindows, Cut, Items, ReadView, SubViews,
};
use std::process::Abort;

// The numbers 1 to 6 of two bytes each, after a reference.
const NUMBERS: [u8; 20] = [4, 0, 0, 0, 6, 0, 0, 0, 1, 0, 2, 0, 3, 0, 4, 0, 5, 0, 6, 0];

// Tags 1 to 6 and the same numbers for references, after references to both.
const UNIONS: [u8; 48] = [
    8, 0, 0, 0, 16, 0, 0, 0, 6, 0, 0, 0, 1, 2, 3, 4, 5, 6, 0, 0, 6, 0, 0, 0, 1, 0, 0, 0, 2, 0, 0,
    0, 3, 0, 0, 0, 4, 0, 0, 0, 5, 0, 0, 0, 6, 0, 0, 0,
];

trait Numbered: ReadView {
    fn number(item: Option<Self::Item>) -> Option<i128>;
}

impl<'a> Numbered for Vector<'a, u16> {
    fn number(item: Option<u16>) -> Option<i128> {
        Some(item? as i128)
    }
}

impl<'a> Numbered for UnionVector<'a, TaggedPlace<'a>> {
    fn number(item: Option<Result<TaggedPlace<'a>, Error>>) -> Option<i128> {
        let Ok(union) = item? else {
            return Some(0);
        };
        match union.place().read::<u32>() {
            Ok(number) if number == union.tag() as u32 => Some(number as i128),
            _ => Some(0),
        }
    }
}

#[derive(Clone, Copy)]
enum Way {
    Items,
    Chunks,
    RChunks,
    ChunksExact,
    RChunksExact,
    Windows,
}

type Positions = (i128, i128);

fn range(way: Way, n: i128, c: i128, i: i128) -> Option<Positions> {
    let before = i.wrapping_mul(c);
    let after = before.wrapping_add(c);
    let (lo, hi, is_there) = match way {
        Way::Items => (i, i.wrapping_add(1), i < n),
        Way::Chunks => (before, after.min(n), before < n),
        Way::RChunks => (
            n.wrapping_sub(after).max(0),
            n.wrapping_sub(before),
            before < n,
        ),
        Way::ChunksExact => (before, after, after <= n),
        Way::RChunksExact => (n.wrapping_sub(after), n.wrapping_sub(before), after <= n),
        Way::Windows => (i, i.wrapping_add(c), i.wrapping_add(c) <= n),
    };
    if is_there { Some((lo, hi)) } else { None }
}

#[derive(Clone, Copy)]
struct Left {
    way: Way,
    n: i128,
    size: i128,
    front: i128,
    back: i128,
}

impl Left {
    fn all(way: Way, n: usize, size: usize) -> Left {
        let (n, size) = ((n % 8) as i128, (size % 8) as i128);
        let mut back = 0;
        for i in 0..8u8 {
            let i = i as i128;
            if range(way, n, size, i).is_some() {
                back = i.wrapping_add(1);
            }
        }
        Left {
            way,
            n,
            size,
            front: 0,
            back,
        }
    }

    fn len(&self) -> usize {
        (self.back.wrapping_sub(self.front).max(0) % 8) as usize
    }

    fn without(&self, front: i128, back: i128) -> Left {
        let mut left = *self;
        left.front = left.front.wrapping_add(front).min(left.back);
        left.back = left.back.wrapping_sub(back).max(left.front);
        left
    }

    // Steps of odd kind are at the back; those of kind 2 and 3 drop one range first.
    fn step(&self, kind: u16) -> (Option<Positions>, Left) {
        let dropped = (kind >> 1) as i128;
        if kind & 1 == 0 {
            let left = self.without(dropped, 0);
            let taken = if left.len() == 0 {
                None
            } else {
                self.at(left.front)
            };
            return (taken, left.without(1, 0));
        }
        let left = self.without(0, dropped);
        let taken = if left.len() == 0 {
            None
        } else {
            self.at(left.back.wrapping_sub(1))
        };
        (taken, left.without(0, 1))
    }

    fn at(&self, i: i128) -> Option<Positions> {
        range(self.way, self.n, self.size, i)
    }
}

fn is_range<V: Numbered>(view: V, (lo, hi): Positions) -> bool {
    let len = view.len();
    if len == 0 {
        return lo == hi;
    }
    V::number(Some(view.item(0))) == Some(lo.wrapping_add(1))
        && V::number(Some(view.item(len - 1))) == Some(hi)
}

fn is_taken<V: Numbered>(view: Option<V>, range: Option<Positions>) -> bool {
    match (view, range) {
        (Some(view), Some(range)) => is_range(view, range),
        (None, None) => true,
        _ => false,
    }
}

fn sub_view_agrees<V: Numbered, C: Cut>(
    ours: &mut SubViews<V, C>,
    left: &mut Left,
    kind: u16,
) -> bool {
    let got = match kind {
        0 => ours.next(),
        1 => ours.next_back(),
        2 => ours.nth(1),
        _ => ours.nth_back(1),
    };
    let (want, after) = left.step(kind);
    *left = after;
    is_taken(got, want) && ours.size_hint() == (after.len(), Some(after.len()))
}

fn sub_views_agree<V: Numbered, C: Cut>(
    mut ours: SubViews<V, C>,
    mut left: Left,
    mut word: u16,
) -> bool {
    for _ in 0..5u8 {
        if !sub_view_agrees(&mut ours, &mut left, word % 4) {
            return false;
        }
        word = word / 4;
    }
    let (want, _) = left.step(1);
    is_taken(ours.last(), want)
}

fn item_agrees<V: Numbered>(ours: &mut Items<V>, left: &mut Left, kind: u16) -> bool {
    let got = match kind {
        0 => ours.next(),
        1 => ours.next_back(),
        2 => ours.nth(1),
        _ => ours.nth_back(1),
    };
    let (want, after) = left.step(kind);
    *left = after;
    is_number::<V>(got, want) && ours.size_hint() == (after.len(), Some(after.len()))
}

fn items_agree<V: Numbered>(mut ours: Items<V>, mut left: Left, mut word: u16) -> bool {
    for _ in 0..5u8 {
        if !item_agrees(&mut ours, &mut left, word % 4) {
            return false;
        }
        word = word / 4;
    }
    let (want, _) = left.step(1);
    is_number::<V>(ours.last(), want)
}

fn is_number<V: Numbered>(item: Option<V::Item>, range: Option<Positions>) -> bool {
    match range {
        Some((_, hi)) => V::number(item) == Some(hi),
        None => V::number(item).is_none(),
    }
}

fn cuts_agree<V: Numbered, C: Cut>(view: V, way: Way, size: usize) -> bool
    requires { 0 < size }
{
    let left = Left::all(way, view.len(), size);
    for word in 0..1024u16 {
        if !sub_views_agree(SubViews::<V, C>::new(view, size), left, word) {
            return false;
        }
    }
    SubViews::<V, C>::new(view, size).count() == left.len()
}

fn items_of_all_words_agree<V: Numbered>(view: V) -> bool {
    let left = Left::all(Way::Items, view.len(), 1);
    for word in 0..1024u16 {
        if !items_agree(Items::new(view), left, word) {
            return false;
        }
    }
    Items::new(view).count() == left.len()
}

fn remainders_agree<V: Numbered>(view: V, size: usize) -> bool
    requires { 0 < size }
{
    let (len, rest) = (view.len() as i128, (view.len() % size) as i128);
    let back = SubViews::<V, ByChunksExact>::new(view, size).remainder();
    let front = SubViews::<V, ByRChunksExact>::new(view, size).remainder();
    back.len() as i128 == rest
        && front.len() as i128 == rest
        && (rest == 0 || is_range(back, (len.wrapping_sub(rest), len)))
        && (rest == 0 || is_range(front, (0, rest)))
}

fn all_cuts_agree<V: Numbered>(view: V, size: usize) -> bool
    requires { 0 < size }
{
    cuts_agree::<V, ByChunks>(view, Way::Chunks, size)
        && cuts_agree::<V, ByRChunks>(view, Way::RChunks, size)
        && cuts_agree::<V, ByChunksExact>(view, Way::ChunksExact, size)
        && cuts_agree::<V, ByRChunksExact>(view, Way::RChunksExact, size)
        && cuts_agree::<V, ByWindows>(view, Way::Windows, size)
        && remainders_agree(view, size)
}

fn differs<V: Numbered>(six: V) -> Option<(usize, usize)> {
    for len in 0..=6usize {
        if len > six.len() {
            return Some((len, 0));
        }
        let view = six.sub_view(0, len);
        for size in 1..=7usize {
            if !all_cuts_agree(view, size) || !items_of_all_words_agree(view) {
                return Some((len, size));
            }
        }
    }
    None
}

fn numbers_differ() -> Option<(usize, usize)> {
    let whole = SliceWithStartOffset::new(&NUMBERS, 0);
    match <Vector<'_, u16> as TableRead<'_>>::from_buffer(whole, 0) {
        Ok(six) => differs(six),
        Err(_) => Some((6, 0)),
    }
}

fn unions_differ() -> Option<(usize, usize)> {
    let whole = SliceWithStartOffset::new(&UNIONS, 0);
    match <UnionVector<'_, TaggedPlace<'_>> as TableReadUnionVector<'_>>::from_buffer(whole, 0, 4) {
        Ok(six) => differs(six),
        Err(_) => Some((6, 0)),
    }
}

fn none_differs(rt: &impl Abort, differs: Option<(usize, usize)>) {
    assert!(rt; differs.is_none(), "{differs:?}");
}

#[test]
fn iterators_of_vectors(rt: HostRuntime) {
    none_differs(&rt, numbers_differ());
}

#[test]
fn iterators_of_vectors_of_unions(rt: HostRuntime) {
    none_differs(&rt, unions_differ());
}
