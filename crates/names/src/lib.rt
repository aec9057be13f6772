// The first name of a component that has a wrong length or is like an earlier
// one. Names are found by their hash, so that each is read about once; names with
// equal hashes are compared byte by byte.
#![tactic(auto)]

ghost use Rattle.std.specs.Prelude.{◌≡◌, ℕ, ◌<◌, ◌≤◌, nat_eq, length, Some, None, IfSome, is_some, replicate, slice_set};
ghost use Rattle.std.specs.List.{slice_get};
ghost use Rattle.std.specs.Option.{option_eq};
ghost use Rattle.rules.specs.Rules.{name_at, length_fits, alike};
ghost use Rattle.rules.specs.Admission.{name_breach};
ghost use Rattle.names.specs.Names.{NumberedName, bytes_of, mixed_in, hashed};
ghost use Rattle.names.specs.Slots.{Slots, at, entries, entry_of, slot, matches, ends_search, last_slot, free_slot, with_name};
ghost use Rattle.names.specs.Laws.{EmptyTable, SlotIsFree, NoSlotHasTwin, NameAdded, NameNotAdded};

use component::Component;
use std::marker::Model;

const SLOTS: usize = 4096;

const MAX_LENGTH: usize = 64;

const HASH_START: u32 = 2166136261;

const HASH_PRIME: u32 = 16777619;

// A hash with one byte more.
fn mix(hash: u32, byte: Option<u8>) -> u32
    ensures { result ≡ mixed_in hash byte }
{
    byte.map_or(hash, |byte| (hash ^ byte as u32).wrapping_mul(HASH_PRIME))
}

// The length of name `n`. `component` and `n` stay two parameters, here and below: a
// `Name` is made of them, and this comes before it.
fn length_of<C: Component>(component: &C, n: usize) -> usize
    ensures { result ≡ length (name_at (C.Component.meaning component.now).names n) }
{
    component.name_length(n).unwrap_or(0)
}

// The hash of name `n`.
fn hash_of<C: Component>(component: &C, n: usize, len: usize) -> u32
    requires { len ≡ length (name_at (C.Component.meaning component.now).names n) }
    ensures { result ≡ hashed (name_at (C.Component.meaning component.now).names n) }
{
    (0..len).fold(HASH_START, |hash, i| mix(hash, component.name_byte(n, i)))
}

// A name has 1 to 64 bytes.
fn length_fits(len: usize) -> bool
    ensures { result ≡ length_fits len }
{
    0 < len && len <= MAX_LENGTH
}

// A name in a slot, by its number, with its hash.
#[derive(Clone, Copy)]
struct Entry {
    name: u16,
    hash: u32,
}

// A name of a fitting length, by its number.
#[derive(Drop)]
struct Name<'a, C: Component> {
    component: &'a C,
    n: usize,
    len: usize,
    hash: u32,
}

impl<'a, C: Component> Model for Name<'a, C> {
    ghost Value = { NumberedName };

    ghost view = { λ s. record { names = (C.Component.meaning s.component.now).names; number = s.n } };

    ghost invariant = { λ s. record {
      few : s.n < 2048;
      len : s.len ≡ length (name_at (C.Component.meaning s.component.now).names s.n);
      hash : s.hash ≡ hashed (name_at (C.Component.meaning s.component.now).names s.n);
    } };
}

impl<'a, C: Component> Name<'a, C> {
    fn new(component: &'a C, n: usize) -> Option<Self>
        requires { n < 2048 }
        ensures fits { is_some result ≡ length_fits (length (name_at (C.Component.meaning component.now).names n)) }
        ensures name { IfSome result (λ x. x ≡ record { names = (C.Component.meaning component.now).names; number = n }) }
    {
        let len = length_of(component, n);
        if !length_fits(len) {
            return None;
        }
        let hash = hash_of(component, n, len);
        Some(Name {
            component,
            n,
            len,
            hash,
        })
    }

    // The name as an entry of a table.
    fn entry(&self) -> Entry
        ensures { result ≡ entry_of self.now }
    {
        Entry {
            name: self.n as u16,
            hash: self.hash,
        }
    }

    // Byte `i` of this name and of name `k` is the same, or both have none.
    fn same_byte(&self, k: usize, i: usize) -> bool
        ensures { result ≡ option_eq nat_eq (slice_get (bytes_of self.now) i) (slice_get (name_at self.now.names k) i) }
    {
        self.component.name_byte(self.n, i) == self.component.name_byte(k, i)
    }

    // Name `k`, of the same length, is like this one.
    fn same_bytes(&self, k: usize) -> bool
        requires { length (bytes_of self.now) ≡ length (name_at self.now.names k) }
        ensures { result ≡ alike (bytes_of self.now) (name_at self.now.names k) }
    {
        (0..self.len).all(|i| self.same_byte(k, i))
    }

    // Name `k` is like this one.
    #[tactic(auto, using(crate::proofs::Bytes::alike_other, crate::proofs::Bytes::alike_none))]
    fn is_like(&self, k: usize) -> bool
        ensures { result ≡ alike (bytes_of self.now) (name_at self.now.names k) }
    {
        // A `match`: where it is known that there is a name `k`, its place is asked for
        // once, and not again at each byte.
        match self.component.name_length(k) {
            Some(len) => self.len == len && self.same_bytes(k),
            None => self.len == 0,
        }
    }

    // The name of the entry has the same hash, and is like this one.
    fn matches(&self, entry: Entry) -> bool
        ensures { result ≡ matches self.now entry }
    {
        entry.hash == self.hash && self.is_like(entry.name as usize)
    }

    // The search for the name ends at a free slot, or at an entry that matches.
    fn ends_search(&self, slot: Option<Entry>) -> bool
        ensures { result ≡ ends_search self.now slot }
    {
        // A `match`: with `is_none_or` and a closure the proof did not close.
        match slot {
            Some(entry) => self.matches(entry),
            None => true,
        }
    }

    // Slot `d` of that search: the slots follow each other from the hash on.
    fn slot(&self, d: usize) -> usize
        requires { d < 4096 }
        ensures { result ≡ slot (hashed (bytes_of self.now)) d }
    {
        (self.hash as usize + d) % SLOTS
    }
}

// Names of a component in slots: each stands at the first slot from its hash on
// that was free. Arrays and no map of the library, since admission uses no heap; two of
// them, since one of optional entries would be half as large again, and slower to clear.
#[derive(Drop)]
struct NameTable {
    slots: [Option<u16>; SLOTS],
    hashes: [u32; SLOTS],
}

impl Model for NameTable {
    ghost Value = { Slots };

    ghost view = { λ t. entries t.slots t.hashes };
}

impl NameTable {
    fn new() -> Self
        ensures { result ≡ replicate 4096 None }
    {
        NameTable {
            slots: [None; SLOTS],
            hashes: [0; SLOTS],
        }
    }

    // What slot `s` holds.
    #[tactic(auto, using(crate::proofs::Entries::free_at, crate::proofs::Entries::entry_at))]
    fn at(&self, s: usize) -> Option<Entry>
        requires { s < 4096 }
        ensures { result ≡ at self.now s }
    {
        let name = self.slots[s]?;
        Some(Entry {
            name,
            hash: self.hashes[s],
        })
    }

    // Writes an entry into slot `s`.
    #[tactic(auto, using(crate::proofs::Entries::entry_written))]
    fn write(&mut self, s: usize, entry: Entry)
        requires { s < 4096 }
        ensures { self.new ≡ slice_set self.old s (Some entry) }
    {
        self.slots[s] = Some(entry.name);
        self.hashes[s] = entry.hash;
    }

    // The slot at which the search for a name ends.
    #[tactic(auto, unfolding(crate::specs::Slots::last_slot))]
    fn last_slot<C: Component>(&self, name: &Name<C>) -> Option<usize>
        ensures inside { IfSome result (λ s. s < 4096) }
        ensures slot { result ≡ last_slot self.now name.now }
    {
        (0..SLOTS)
            .map(move |d| name.slot(d))
            .find(move |s| name.ends_search(self.at(*s)))
    }

    // The slot where the name belongs, or none if a name like it is in the table.
    #[tactic(auto, unfolding(crate::specs::Slots::free_slot))]
    fn free_slot<C: Component>(&self, name: &Name<C>) -> Option<usize>
        ensures inside { IfSome result (λ s. s < 4096) }
        ensures slot { result ≡ free_slot self.now name.now }
    {
        let s = self.last_slot(name)?;
        self.at(s).is_none().then_some(s)
    }

    // Adds the name, if none like it is in the table.
    fn insert<C: Component>(&mut self, name: &Name<C>) -> bool
        ensures new { result ≡ is_some (free_slot self.old name.now) }
        ensures slots { self.new ≡ with_name self.old name.now }
    {
        let Some(s) = self.free_slot(name) else {
            return false;
        };
        self.write(s, name.entry());
        true
    }
}

// What holds of every table; nothing comes of it but these laws.
fn table_laws()
    ensures empty { EmptyTable }
    ensures free { SlotIsFree }
    ensures twin { NoSlotHasTwin }
    ensures added { NameAdded }
    ensures not_added { NameNotAdded }
{}

// The first name that has not 1 to 64 bytes or is like an earlier one.
pub fn first_failing_name<C: Component>(component: &C, names: usize) -> Option<usize>
    requires size { names ≡ length (C.Component.meaning component.now).names }
    requires few { names ≤ 2048 }
    ensures { result ≡ name_breach (C.Component.meaning component.now) }
{
    table_laws();
    let mut table = NameTable::new();
    // A `for`, since each step changes the table: a closure of `find` that did so would
    // prove nothing of it.
    for n in 0..names {
        let Some(name) = Name::new(component, n) else {
            return Some(n);
        };
        if !table.insert(&name) {
            return Some(n);
        }
    }
    None
}
