//! Names that flatc takes for another declaration.

ghost use Rattle.std.specs.Prelude.{◌≡◌, ◌≤◌, ◌∷◌, ◌==◌, map, length, IfOk, OnOk};
ghost use Rattle.std.specs.Option.{option_map};
ghost use Rattle.std.specs.List.{list_any};
ghost use Rattle.planus_syntax.specs.Values.{names_of};
ghost use Rattle.planus_resolve.specs.Names.{used_as};
ghost use Rattle.planus_resolve.specs.Names.{head_of};
ghost use Rattle.planus_resolve.specs.inner.Read.{AreNoted};
ghost use Rattle.planus_resolve.specs.Uses as spec;

use crate::awaited::Awaited;
use crate::fault::{Fault, FaultKind, note, or_return, wrong};
use crate::head::dotted_name;
use crate::heads::Heads;
use crate::lookup::{Sought, Wanted, at, found, found_by};
use crate::scope::Scope;
use crate::uses::{Event, Use, events};
use planus_syntax::Declaration;
use std::alloc::{AllocError, Global};

/// How many declarations have begun, and the names that wait for theirs: single words by the first
/// declaration whose name ends with them, and words with dots by that of this full name.
#[derive(Drop)]
pub(crate) struct Waiting {
    begun: usize,
    single: Vec<Option<Awaited>>,
    full: Vec<Option<Awaited>>,
}

/// What is to be done about a use of a name.
#[derive(Clone, Copy)]
pub(crate) enum Told {
    Nothing,
    /// It waits for this declaration.
    Wait(usize),
    /// It means the first, and flatc takes it for the second.
    Clash(usize, usize),
}

fn put(list: &mut Vec<Option<Awaited>>, index: Option<usize>, awaited: Option<Awaited>)
    ensures { list.new.items ≡ spec.put_at list.old.items index awaited }
{
    if let Some(index) = index {
        if index < list.len() {
            list[index] = awaited;
        }
    }
}

fn has_dot(word: &[u8]) -> bool
    ensures { result ≡ list_any (λ b. b == 46) word.now }
{
    let mut rest = word;
    'bytes: while let Some((first, after)) = rest.split_first() {
        if *first == b'.' {
            return true;
        }
        rest = after;
    }
    false
}

fn single_word<'a>(first: &'a [u8], more: &[Vec<u8>]) -> Option<&'a [u8]>
    ensures { option_map (λ w. w.now) result
        ≡ spec.single_word (first.now ∷ names_of more.now) }
{
    match more {
        [] if !has_dot(first) => Some(first),
        _ => None,
    }
}

fn waited(
    alloc: Global,
    heads: &Heads,
    waiting: &Waiting,
    usage: &Use,
) -> Result<Option<Awaited>, AllocError>
    ensures { IfOk result (λ o. o ≡ spec.waited (map head_of heads.now)
        (spec.waiting_of waiting.now)
        (spec.use_of usage.now).words) }
{
    match single_word(usage.first, usage.more) {
        Some(word) => Ok(at(&waiting.single, heads.ending(word))),
        None => {
            let name = or_return!(dotted_name(alloc, None, 0, usage.first, usage.more));
            Ok(at(&waiting.full, heads.index_of(&name)))
        }
    }
}

fn wait(
    alloc: Global,
    heads: &Heads,
    waiting: &mut Waiting,
    usage: &Use,
    awaited: Awaited,
) -> Result<(), AllocError>
    ensures { OnOk result (spec.waiting_of waiting.new ≡ spec.wait (map head_of heads.now)
        (spec.waiting_of waiting.old) (spec.use_of usage.now).words awaited) }
{
    match single_word(usage.first, usage.more) {
        Some(word) => put(&mut waiting.single, heads.ending(word), Some(awaited)),
        None => {
            let name = or_return!(dotted_name(alloc, None, 0, usage.first, usage.more));
            put(&mut waiting.full, heads.index_of(&name), Some(awaited));
        }
    }
    Ok(())
}

fn meaning_at(waiting: &Waiting, index: Option<usize>) -> Option<usize>
    ensures { result ≡ spec.meaning_at (spec.waiting_of waiting.now) index }
{
    match (at(&waiting.full, index), index) {
        (Some(awaited), Some(_)) => Some(awaited.meaning),
        (_, index) => index,
    }
}

fn known(
    alloc: Global,
    heads: &Heads,
    waiting: &Waiting,
    usage: &Use,
) -> Result<Option<usize>, AllocError>
    ensures { IfOk result (λ o. o ≡ spec.known (map head_of heads.now) (spec.waiting_of waiting.now)
        (spec.use_of usage.now)) }
{
    let scope = Scope {
        alloc,
        heads,
        integers: &[],
        space: usage.spot.space,
        begun: waiting.begun,
    };
    let index = or_return!(found_by(
        &scope,
        &waiting.full,
        usage.wanted,
        Sought::Known,
        usage.first,
        usage.more
    ));
    Ok(meaning_at(waiting, index))
}

fn taken(
    alloc: Global,
    heads: &Heads,
    waiting: &Waiting,
    usage: &Use,
) -> Result<Option<usize>, AllocError>
    ensures { IfOk result (λ o. o ≡ spec.taken (map head_of heads.now) (spec.waiting_of waiting.now)
        (spec.use_of usage.now)) }
{
    match or_return!(waited(alloc, heads, waiting, usage)) {
        Some(awaited) => Ok(Some(awaited.meaning)),
        None => known(alloc, heads, waiting, usage),
    }
}

fn told_as(wanted: Wanted, meaning: usize, taken: Option<usize>) -> Told
    ensures { result ≡ spec.told_as (used_as wanted) meaning taken }
{
    match (taken, wanted) {
        (Some(taken), _) if meaning == taken => Told::Nothing,
        (Some(taken), _) => Told::Clash(meaning, taken),
        (None, Wanted::Root) => Told::Nothing,
        (None, _) => Told::Wait(meaning),
    }
}

fn tells(alloc: Global, heads: &Heads, waiting: &Waiting, usage: &Use) -> Result<Told, AllocError>
    ensures { IfOk result (λ t. t ≡ spec.tells (map head_of heads.now) (spec.waiting_of waiting.now)
        (spec.use_of usage.now)) }
{
    let scope = Scope {
        alloc,
        heads,
        integers: &[],
        space: usage.spot.space,
        begun: waiting.begun,
    };
    match or_return!(found(&scope, usage.wanted, usage.first, usage.more)) {
        None => Ok(Told::Nothing),
        Some(meaning) if heads.is_choice(meaning) && meaning < waiting.begun => Ok(Told::Nothing),
        Some(meaning) => {
            let taken = or_return!(taken(alloc, heads, waiting, usage));
            Ok(told_as(usage.wanted, meaning, taken))
        }
    }
}

fn read_use(
    alloc: Global,
    heads: &Heads,
    waiting: &mut Waiting,
    usage: &Use,
    faults: &mut Vec<Fault>,
) -> Result<(), AllocError>
    requires { length faults.old.items ≤ 20 }
    ensures after { OnOk result (spec.waiting_of waiting.new ≡ spec.after_use
        (map head_of heads.now)
        (spec.waiting_of waiting.old) (spec.use_of usage.now) (spec.tells (map head_of heads.now)
        (spec.waiting_of waiting.old) (spec.use_of usage.now))) }
    ensures noted { OnOk result (AreNoted (spec.use_fault (spec.use_of usage.now)
        (spec.tells (map head_of heads.now) (spec.waiting_of waiting.old) (spec.use_of usage.now)))
        faults.old.items faults.new.items) }
{
    match or_return!(tells(alloc, heads, waiting, usage)) {
        Told::Nothing => Ok(()),
        Told::Wait(meaning) => {
            let awaited = Awaited {
                meaning,
                file: usage.spot.file,
                left: usage.left,
            };
            wait(alloc, heads, waiting, usage, awaited)
        }
        Told::Clash(here, elsewhere) => {
            let kind = FaultKind::TwoMeanings { here, elsewhere };
            note(faults, usage.spot.file, wrong(kind, usage.left))
        }
    }
}

fn note_bound(
    faults: &mut Vec<Fault>,
    awaited: Option<Awaited>,
    index: usize,
) -> Result<(), AllocError>
    requires { length faults.old.items ≤ 20 }
    ensures { OnOk result (AreNoted (spec.bound_fault index awaited) faults.old.items
        faults.new.items) }
{
    match awaited {
        Some(awaited) if awaited.meaning != index => {
            let kind = FaultKind::TwoMeanings {
                here: awaited.meaning,
                elsewhere: index,
            };
            note(faults, awaited.file, wrong(kind, awaited.left))
        }
        _ => Ok(()),
    }
}

fn read_begin(
    heads: &Heads,
    waiting: &mut Waiting,
    word: &[u8],
    faults: &mut Vec<Fault>,
) -> Result<(), AllocError>
    requires { length faults.old.items ≤ 20 }
    ensures after { OnOk result (spec.waiting_of waiting.new ≡ spec.after_begin
        (map head_of heads.now)
        (spec.waiting_of waiting.old) word.now) }
    ensures noted { OnOk result (AreNoted (spec.begin_faults (map head_of heads.now)
        (spec.waiting_of waiting.old) word.now) faults.old.items faults.new.items) }
{
    let index = waiting.begun;
    // No memory holds so many declarations that this sum is too large.
    let Some(begun) = index.checked_add(1) else {
        return Err(AllocError);
    };
    waiting.begun = begun;
    if heads.is_choice(index) {
        return Ok(());
    }
    let single = heads.ending(word);
    or_return!(note_bound(faults, at(&waiting.single, single), index));
    or_return!(note_bound(faults, at(&waiting.full, Some(index)), index));
    put(&mut waiting.single, single, None);
    put(&mut waiting.full, Some(index), None);
    Ok(())
}

fn read_event(
    alloc: Global,
    heads: &Heads,
    waiting: &mut Waiting,
    event: &Event,
    faults: &mut Vec<Fault>,
) -> Result<(), AllocError>
    requires { length faults.old.items ≤ 20 }
    ensures after { OnOk result (spec.waiting_of waiting.new ≡ spec.after_event
        (map head_of heads.now)
        (spec.waiting_of waiting.old) (spec.event_of event.now)) }
    ensures noted { OnOk result (AreNoted (spec.event_faults (map head_of heads.now)
        (spec.waiting_of waiting.old) (spec.event_of event.now)) faults.old.items faults.new.items) }
{
    match event {
        Event::Begins(word) => read_begin(heads, waiting, word, faults),
        Event::Uses(usage) => read_use(alloc, heads, waiting, usage, faults),
    }
}

fn read_events(
    alloc: Global,
    heads: &Heads,
    waiting: &mut Waiting,
    events: &[Event],
    faults: &mut Vec<Fault>,
) -> Result<(), AllocError>
    requires { length faults.old.items ≤ 20 }
    ensures { OnOk result (AreNoted (spec.events_faults (map head_of heads.now)
        (spec.waiting_of waiting.old) (map spec.event_of events.now)) faults.old.items
        faults.new.items) }
{
    'events: for event in events {
        or_return!(read_event(alloc, heads, waiting, event, faults));
    }
    Ok(())
}

fn nothing_waits(alloc: Global, heads: &Heads) -> Result<Waiting, AllocError>
    ensures { IfOk result (λ w. spec.waiting_of w ≡ spec.nothing_waits (map head_of heads.now)) }
{
    let count = heads.as_slice().len();
    let single = vec![in alloc; None; count]?;
    let full = vec![in alloc; None; count]?;
    Ok(Waiting {
        begun: 0,
        single,
        full,
    })
}

/// Notes each name that flatc takes for another declaration.
pub(crate) fn check_uses(
    alloc: Global,
    heads: &Heads,
    files: &[Vec<Declaration>],
    faults: &mut Vec<Fault>,
) -> Result<(), AllocError>
    requires { length faults.old.items ≤ 20 }
    ensures { OnOk result (AreNoted (spec.taken_otherwise (map head_of heads.now) files.now)
        faults.old.items faults.new.items) }
{
    let events = or_return!(events(alloc, files));
    let mut waiting = or_return!(nothing_waits(alloc, heads));
    read_events(alloc, heads, &mut waiting, &events, faults)
}
