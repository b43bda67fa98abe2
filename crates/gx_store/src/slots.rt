// References and logs, in one slot a name.
// A change is made in two steps. The first makes slots and room, which changes no meaning and may fail; the second
// can't fail.
ghost use Rattle.std.specs.Prelude.{◌≡◌, ◌≢◌, true, false, IfSome, None, ℕ, IfOk, OnOk, OnErr, IsSome, is_some, filter, nat_eq, option_map};
ghost use Rattle.std.specs.List.{starts_with};
ghost use Rattle.std.specs.FinMap as finite;
ghost use Rattle.std.specs.BTreeMap.{get};
ghost use Rattle.gx_rules.specs.Name.{name_cmp};
ghost use Rattle.gx_store.specs.Change.{HaveDistinctNames, refs_after, log_after};
ghost use Rattle.gx_store.specs.Breaks.{fresh_refs};
ghost use Rattle.gx_hash.specs.declared.kind.HashKind.{HashKind};
ghost use Rattle.gx_store.specs.Kinds.{AreChangesOfKind, AreRefsOfKind};
ghost use Rattle.gx_store.specs.Slots.{refs_of, target_in, log_in, room_of, FitsIn, HasRoom, KeepsRoom, KeepsOthersRoom, AreReady, with_change};
ghost use Rattle.gx_store.specs.Change.{target_after};

use crate::{Lines, LogAct, LogLine, Names, RefChange, Target, TargetChange};
use gx_hash::{Bytes, NoMemory};
use gx_rules::FullName;
use std::alloc::Global;
use std::collections::BTreeMap;

/// What there is at a name.
#[derive(Drop)]
pub(crate) struct Slot {
    target: Option<Target>,
    /// The log, where there is one. Room for its first line is made before that.
    lines: Vec<LogLine>,
    has_log: bool,
}

impl Slot {
    fn new(alloc: Global) -> Slot
        ensures target { result.target ≡ None }
        ensures log { log_in result ≡ None }
    {
        Slot {
            target: None,
            lines: Vec::new(alloc),
            has_log: false,
        }
    }

    /// Makes room for what an act adds.
    fn reserve(&mut self, act: &LogAct) -> Result<(), NoMemory>
        ensures target { self.new.target ≡ self.old.target }
        ensures log { log_in self.new ≡ log_in self.old }
        ensures ok { OnOk result (FitsIn (room_of act.now) self.new) }
        ensures room { (room : ℕ) → FitsIn room self.old → FitsIn room self.new }
    {
        if let LogAct::Append(_) = act {
            self.lines.reserve(1)?;
        }
        Ok(())
    }

    fn change_target(&mut self, change: TargetChange)
        ensures target { self.new.target ≡ target_after change self.old.target }
        ensures lines { self.new.lines ≡ self.old.lines }
        ensures log { self.new.has_log ≡ self.old.has_log }
    {
        match change {
            TargetChange::Keep => {}
            TargetChange::Set(target) => {
                self.target = Some(target);
            }
            TargetChange::Remove => {
                self.target = None;
            }
        }
    }

    fn change_log(&mut self, act: LogAct)
        requires { FitsIn (room_of act) self.old }
        ensures target { self.new.target ≡ self.old.target }
        ensures log { log_in self.new ≡ log_after act (log_in self.old) }
    {
        match act {
            LogAct::Keep => {}
            LogAct::Append(line) => {
                if !self.has_log {
                    self.lines.clear();
                    self.has_log = true;
                }
                self.lines.push_reserved(line);
            }
            LogAct::Remove => {
                self.has_log = false;
                self.lines.clear();
            }
        }
    }

    fn change(&mut self, target: TargetChange, log: LogAct)
        requires { FitsIn (room_of log) self.old }
        ensures target { self.new.target ≡ target_after target self.old.target }
        ensures log { log_in self.new ≡ log_after log (log_in self.old) }
    {
        self.change_target(target);
        self.change_log(log);
    }
}

impl Slot {
    fn target_copy(&self) -> Result<Option<Target>, NoMemory>
        ensures { IfOk result (λ found. found ≡ target_in self.now) }
    {
        match &self.target {
            None => Ok(None),
            Some(target) => Ok(Some(target.try_clone()?)),
        }
    }

    fn is_empty(&self) -> bool
        ensures target { result ≡ true → self.now.target ≡ None }
        ensures log { result ≡ true → log_in self.now ≡ None }
    {
        self.target.is_none() && !self.has_log
    }

    pub(crate) fn has_target(&self) -> bool
        ensures { result ≡ is_some (target_in self.now) }
    {
        self.target.is_some()
    }

    fn is_logged(&self) -> bool
        ensures { result ≡ is_some (log_in self.now) }
    {
        self.has_log
    }

    fn log_copy(&self, alloc: Global) -> Result<Option<Lines>, NoMemory>
        ensures { IfOk result (λ found. found ≡ log_in self.now) }
    {
        if !self.has_log {
            return Ok(None);
        }
        Ok(Some(Lines::from_slice(alloc, &self.lines)?))
    }
}

/// Makes a slot, if there is none.
fn make_slot(alloc: Global, map: &mut BTreeMap<Bytes, Slot>, name: &Bytes) -> Result<(), NoMemory>
    ensures same { refs_of map.new ≡ refs_of map.old }
    ensures room { KeepsRoom map.old map.new }
    ensures ok { OnOk result (IsSome (get name_cmp map.new name.now)) }
{
    if map.contains_key(name) {
        return Ok(());
    }
    map.insert(name.try_clone()?, Slot::new(alloc))?;
    Ok(())
}

/// Makes room in a slot for what an act adds.
fn make_room(map: &mut BTreeMap<Bytes, Slot>, name: &Bytes, act: &LogAct) -> Result<(), NoMemory>
    requires { IsSome (get name_cmp map.old name.now) }
    ensures same { refs_of map.new ≡ refs_of map.old }
    ensures room { KeepsRoom map.old map.new }
    ensures ok { OnOk result (HasRoom map.new name.now (room_of act.now)) }
{
    match map.get_mut(name) {
        None => Ok(()),
        Some(slot) => slot.reserve(act),
    }
}

/// Makes a change that is ready, in its slot, and tells whether that leaves the slot empty.
fn change_slot(
    map: &mut BTreeMap<Bytes, Slot>,
    name: &Bytes,
    target: TargetChange,
    log: LogAct,
) -> bool
    requires { HasRoom map.old name.now (room_of log) }
    ensures changed { refs_of map.new
        ≡ with_change (record { name = name.now; target = target; log = log }) (refs_of map.old) }
    ensures room { KeepsOthersRoom name.now map.old map.new }
{
    match map.get_mut(name) {
        None => false,
        Some(slot) => {
            slot.change(target, log);
            slot.is_empty()
        }
    }
}

/// Takes out a slot, if it is empty.
fn drop_slot(map: &mut BTreeMap<Bytes, Slot>, name: &Bytes)
    ensures same { refs_of map.new ≡ refs_of map.old }
    ensures room { KeepsOthersRoom name.now map.old map.new }
{
    if let Some(slot) = map.get(name) {
        if slot.is_empty() {
            let _ = map.remove(name);
        }
    }
}

/// Makes a change that is ready.
fn make_change(map: &mut BTreeMap<Bytes, Slot>, change: RefChange)
    requires { HasRoom map.old change.name (room_of change.log) }
    ensures changed { refs_of map.new ≡ with_change change (refs_of map.old) }
    ensures room { KeepsOthersRoom change.name map.old map.new }
{
    let RefChange { name, target, log } = change;
    if change_slot(map, name.bytes(), target, log) {
        drop_slot(map, name.bytes());
    }
}

/// Makes the slot and the room that a change needs.
fn make_ready(
    alloc: Global,
    map: &mut BTreeMap<Bytes, Slot>,
    change: &RefChange,
) -> Result<(), NoMemory>
    ensures same { refs_of map.new ≡ refs_of map.old }
    ensures room { KeepsRoom map.old map.new }
    ensures ok { OnOk result (HasRoom map.new change.now.name (room_of change.now.log)) }
{
    let name = change.name.bytes();
    make_slot(alloc, map, name)?;
    make_room(map, name, &change.log)
}

/// Makes ready all changes, and gives their copies.
fn prepare(
    alloc: Global,
    map: &mut BTreeMap<Bytes, Slot>,
    changes: &[RefChange],
) -> Result<Vec<RefChange>, NoMemory>
    ensures same { refs_of map.new ≡ refs_of map.old }
    ensures copies { IfOk result (λ copies. copies.items ≡ changes.now) }
    ensures ready { IfOk result (λ copies. AreReady map.new copies.items) }
{
    let mut copies = Vec::with_capacity(alloc, changes.len())?;
    for change in changes {
        make_ready(alloc, map, change)?;
        copies.push(change.try_clone()?)?;
    }
    Ok(copies)
}

/// Makes all changes that are ready.
fn make_changes(map: &mut BTreeMap<Bytes, Slot>, changes: Vec<RefChange>)
    requires names { HaveDistinctNames changes.items }
    requires ready { AreReady map.old changes.items }
    ensures { refs_of map.new ≡ refs_after changes.items (refs_of map.old) }
{
    for change in changes {
        make_change(map, change);
    }
}

/// Makes all changes, or none.
#[tactic(auto, using(crate::proofs::KindLemmas::change_of_kind, crate::proofs::KindLemmas::same_of_kind))]
pub(crate) fn change(
    alloc: Global,
    map: &mut BTreeMap<Bytes, Slot>,
    changes: &[RefChange],
) -> Result<(), NoMemory>
    requires { HaveDistinctNames changes.now }
    ensures ok { OnOk result (refs_of map.new ≡ refs_after changes.now (refs_of map.old)) }
    ensures err { OnErr result (refs_of map.new ≡ refs_of map.old) }
    ensures kinds { (hash : HashKind) → AreChangesOfKind hash changes.now → AreRefsOfKind hash (refs_of map.old)
        → AreRefsOfKind hash (refs_of map.new) }
{
    let copies = prepare(alloc, map, changes)?;
    make_changes(map, copies);
    Ok(())
}

/// The name of a slot, or one that is written in this file. It is known to be valid, so only memory can run out.
pub(crate) fn name_of(alloc: Global, text: &[u8]) -> Result<FullName, NoMemory>
    ensures { IfOk result (λ name. name ≡ text.now) }
{
    match FullName::new(alloc, text) {
        Ok(name) => Ok(name),
        Err(_) => Err(NoMemory),
    }
}

/// The names with a target that begin with the prefix.
pub(crate) fn names_of(
    alloc: Global,
    map: &BTreeMap<Bytes, Slot>,
    prefix: &[u8],
) -> Result<Names, NoMemory>
    ensures { IfOk result (λ names. names
        ≡ filter (λ name. starts_with nat_eq name prefix.now) (finite.keys (refs_of map.now).targets)) }
{
    let from = Bytes::from_slice(alloc, prefix)?;
    let mut names = Vec::new(alloc);
    for (name, slot) in map.range(from..) {
        if !name.as_slice().starts_with(prefix) {
            return Ok(Names::from_vec(names));
        }
        if slot.target.is_some() {
            names.push(name_of(alloc, name.as_slice())?)?;
        }
    }
    Ok(Names::from_vec(names))
}

/// The target at a name.
#[tactic(auto, using(crate::proofs::SlotLemmas::get_names))]
pub(crate) fn target_at(
    map: &BTreeMap<Bytes, Slot>,
    name: &Bytes,
) -> Result<Option<Target>, NoMemory>
    ensures { IfOk result (λ found. found ≡ finite.get (refs_of map.now).targets name.now) }
{
    match map.get(name) {
        None => Ok(None),
        Some(slot) => slot.target_copy(),
    }
}

/// Whether there is a target at a name.
#[tactic(auto, using(crate::proofs::SlotLemmas::get_names))]
pub(crate) fn has_target(map: &BTreeMap<Bytes, Slot>, name: &Bytes) -> bool
    ensures { result ≡ finite.contains_key (refs_of map.now).targets name.now }
{
    match map.get(name) {
        None => false,
        Some(slot) => slot.has_target(),
    }
}

/// Whether there is a log at a name.
#[tactic(auto, using(crate::proofs::SlotLemmas::get_names))]
pub(crate) fn has_log(map: &BTreeMap<Bytes, Slot>, name: &Bytes) -> bool
    ensures { result ≡ finite.contains_key (refs_of map.now).logs name.now }
{
    match map.get(name) {
        None => false,
        Some(slot) => slot.is_logged(),
    }
}

/// The log at a name.
#[tactic(auto, using(crate::proofs::SlotLemmas::get_names))]
pub(crate) fn log_at(
    alloc: Global,
    map: &BTreeMap<Bytes, Slot>,
    name: &Bytes,
) -> Result<Option<Lines>, NoMemory>
    ensures { IfOk result (λ found. found ≡ finite.get (refs_of map.now).logs name.now) }
{
    match map.get(name) {
        None => Ok(None),
        Some(slot) => slot.log_copy(alloc),
    }
}

/// The slots of a new store: `HEAD` is symbolic to `refs/heads/main`.
pub(crate) fn start(alloc: Global) -> Result<BTreeMap<Bytes, Slot>, NoMemory>
    ensures { IfOk result (λ map. refs_of map ≡ fresh_refs) }
{
    let head = name_of(alloc, b"HEAD")?;
    let main = name_of(alloc, b"refs/heads/main")?;
    let mut map = BTreeMap::new(alloc);
    make_slot(alloc, &mut map, head.bytes())?;
    make_change(
        &mut map,
        RefChange {
            name: head,
            target: TargetChange::Set(Target::Symbolic(main)),
            log: LogAct::Keep,
        },
    );
    Ok(map)
}
