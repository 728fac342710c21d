//! The maker of a pool.

ghost use Rattle.std.specs.Prelude.{◌≡◌, ◌<◌, ◌≤◌, ◌^◌, [], ◌∷◌, ◌++◌, Some, Err, OnErr, IfOk, length};
ghost use Rattle.std.specs.BTreeMap.{Updates, IsUnchanged};
ghost use Rattle.class_walk.specs.declared.class.Constant.TheVariants as constants;
ghost use Rattle.assembler_pool.specs.declared.refusal.PoolRefusal.TheVariants as refusals;
ghost use Rattle.assembler_pool.specs.Key.{constant_of};
ghost use Rattle.assembler_pool.specs.Uses.{Makes, slots, entry, class_entry, string_entry, pair_entry, field_entry, method_entry, interface_method_entry};
ghost use Rattle.assembler_pool.specs.Indexed.{IsMade};

use crate::key::{Key, constant};
use crate::refusal::PoolRefusal;
use class_names::encoded;
use class_walk::Constant;
use rows::{Bytes, Rows};
use std::alloc::{AllocError, Global};
use std::collections::BTreeMap;
use std::marker::Model;

/// How many indices a pool has at most with index 0, and how many bytes a text has (JVMS 4.1, 4.4.7).
const MOST: usize = 65_535;

/// The constant pool of a class that is written. Contracts see its entries by their indices.
///
/// A call gives the index of an entry. An entry that isn't there yet is appended, after its parts. `Full` comes exactly
/// where the pool would get more than 65,535 indices, index 0 among them, or a text of more than 65,535 bytes. After an
/// error, all entries that were there keep their indices, some of those that the call wanted may have been added, and
/// the maker can still be used.
///
/// An entry is looked up in a tree, so that a pool of n entries is made by about n log n comparisons of entries,
/// whatever they are.
#[derive(Drop)]
pub struct PoolMaker {
    entries: Vec<Constant>,
    /// The index of each text, by its bytes.
    texts: BTreeMap<Vec<u8>, u16>,
    /// The index of each other entry.
    others: BTreeMap<Key, u16>,
    alloc: Global,
}

impl Model for PoolMaker {
    ghost use Rattle.std.specs.Prelude.{List};
    ghost use Rattle.class_walk.specs.declared.class.Constant.{Constant};
    ghost use Rattle.std.specs.BTreeMap.{get, get_by};
    ghost use Rattle.std.specs.Cmp.Lexicographic.{slice_cmp};
    ghost use Rattle.std.specs.Ordering.{nat_cmp};
    ghost use Rattle.assembler_pool.specs.Indexed.{IsIndexed};
    ghost use Rattle.assembler_pool.specs.contracts.key.KeyOrd.TheImpl as key_ord;

    ghost Value = { List Constant };

    ghost view = { λ p. p.entries.items };

    ghost invariant = { λ p. IsIndexed p.entries.items
        (λ text. get_by (λ k. slice_cmp nat_cmp text k.items) p.texts)
        (λ key. get (key_ord.ghosts).cmp p.others key) };
}

/// Appends an entry that is not in the pool yet, and gives its index. An error leaves the entries as they were; `Full`
/// comes exactly where the count would be too great.
fn put(entries: &mut Vec<Constant>, entry: Constant) -> Result<u16, PoolRefusal>
    requires { length entries.old.items < 2 ^ 16 }
    ensures index { IfOk result (λ index. index ≡ length entries.old.items) }
    ensures pushed { IfOk result (λ _. entries.new.items ≡ entries.old.items ++ slots entry) }
    ensures room { IfOk result (λ _. length entries.new.items < 2 ^ 16) }
    ensures full { result ≡ Err refusals.Full → 2 ^ 16 ≤ length (entries.old.items ++ slots entry) }
    ensures err { OnErr result (entries.new.items ≡ entries.old.items) }
{
    let index = entries.len();
    let is_wide = entry.is_wide();
    if index + (if is_wide { 2 } else { 1 }) > MOST {
        return Err(PoolRefusal::Full);
    }
    entries.reserve(2)?;
    entries.push(entry)?;
    if is_wide {
        entries.push(Constant::Gap)?;
    }
    Ok(index as u16)
}

/// Appends an entry as [`put`] does, and puts its index into the map. An error leaves both as they were.
fn put_indexed<K: Ord + Drop>(
    entries: &mut Vec<Constant>,
    indices: &mut BTreeMap<K, u16>,
    key: K,
    entry: Constant,
) -> Result<u16, PoolRefusal>
    requires { length entries.old.items < 2 ^ 16 }
    ensures index { IfOk result (λ index. index ≡ length entries.old.items) }
    ensures pushed { IfOk result (λ _. entries.new.items ≡ entries.old.items ++ slots entry) }
    ensures room { IfOk result (λ _. length entries.new.items < 2 ^ 16) }
    ensures known { IfOk result (λ index. Updates K.cmp indices.old indices.new key (Some index)) }
    ensures full { result ≡ Err refusals.Full → 2 ^ 16 ≤ length (entries.old.items ++ slots entry) }
    ensures err { OnErr result (entries.new.items ≡ entries.old.items) }
    ensures unknown { OnErr result (IsUnchanged indices.old indices.new) }
{
    let index = put(entries, entry)?;
    if indices.insert(key, index).is_err() {
        entries.truncate(usize::from(index));
        return Err(PoolRefusal::NoMemory);
    }
    Ok(index)
}

impl PoolMaker {
    /// The pool without an entry: index 0 is a gap (JVMS 4.1).
    pub fn new(alloc: Global) -> Result<Self, AllocError>
        ensures { IfOk result (λ made. made ≡ constants.Gap ∷ []) }
    {
        let mut entries = Vec::new(alloc);
        entries.push(Constant::Gap)?;
        Ok(PoolMaker {
            entries,
            texts: BTreeMap::new(alloc),
            others: BTreeMap::new(alloc),
            alloc,
        })
    }

    /// The entries by their indices, a gap at index 0 and after each entry that takes two.
    pub fn entries(&self) -> &[Constant]
        ensures entries { result.now ≡ self.now }
        ensures made { IsMade self.now }
    {
        self.entries.as_slice()
    }

    /// The entries by their indices, as a class has them.
    pub fn into_entries(self) -> Rows<Constant>
        ensures entries { result ≡ self }
        ensures made { IsMade self }
    {
        let PoolMaker { entries, .. } = self;
        Rows::from_vec(entries)
    }

    /// The index of an entry other than a text.
    fn other(&mut self, key: Key) -> Result<u16, PoolRefusal>
        ensures { Makes result self.old self.new (entry (constant_of key)) }
    {
        if let Some(index) = self.others.get(&key).copied() {
            return Ok(index);
        }
        put_indexed(&mut self.entries, &mut self.others, key, constant(key))
    }

    /// The index of a text, given by its bytes in modified UTF-8, which are not looked at (JVMS 4.4.7).
    pub fn utf8(&mut self, bytes: &[u8]) -> Result<u16, PoolRefusal>
        ensures { Makes result self.old self.new (entry (constants.Utf8 bytes.now)) }
    {
        if let Some(index) = self.texts.get(bytes).copied() {
            return Ok(index);
        }
        if bytes.len() > MOST {
            return Err(PoolRefusal::Full);
        }
        let key = Vec::from_slice(self.alloc, bytes)?;
        let text = Bytes::from_slice(self.alloc, bytes)?;
        put_indexed(
            &mut self.entries,
            &mut self.texts,
            key,
            Constant::Utf8(text),
        )
    }

    /// The index of an `int` (JVMS 4.4.4).
    pub fn integer(&mut self, value: i32) -> Result<u16, PoolRefusal>
        ensures { Makes result self.old self.new (entry (constants.Integer value)) }
    {
        self.other(Key::Integer(value))
    }

    /// The index of a `long`, which takes the index after it too (JVMS 4.4.5).
    pub fn long(&mut self, value: i64) -> Result<u16, PoolRefusal>
        ensures { Makes result self.old self.new (entry (constants.Long value)) }
    {
        self.other(Key::Long(value))
    }

    /// The index of a class, given by its name with `/` between its parts, or of an array class, given by its
    /// descriptor (JVMS 4.4.1).
    pub fn class(&mut self, name: &[u8]) -> Result<u16, PoolRefusal>
        ensures { Makes result self.old self.new (class_entry name.now) }
    {
        let text = self.utf8(name)?;
        self.other(Key::Class(text))
    }

    /// The index of a string literal, given by its UTF-16 code units. Its text has each unit in its shortest form
    /// (JVMS 4.4.3, 4.4.7).
    pub fn string(&mut self, units: &[u16]) -> Result<u16, PoolRefusal>
        ensures { Makes result self.old self.new (string_entry units.now) }
    {
        let bytes = encoded(self.alloc, units)?;
        let text = self.utf8(&bytes)?;
        self.other(Key::Str(text))
    }

    /// The index of a name and a descriptor (JVMS 4.4.6).
    fn pair(&mut self, name: &[u8], descriptor: &[u8]) -> Result<u16, PoolRefusal>
        ensures { Makes result self.old self.new (pair_entry name.now descriptor.now) }
    {
        let name = self.utf8(name)?;
        let descriptor = self.utf8(descriptor)?;
        self.other(Key::Pair(name, descriptor))
    }

    /// The index of a field of a class, given by its name and descriptor (JVMS 4.4.2).
    pub fn field(
        &mut self,
        class: &[u8],
        name: &[u8],
        descriptor: &[u8],
    ) -> Result<u16, PoolRefusal>
        ensures { Makes result self.old self.new (field_entry class.now name.now descriptor.now) }
    {
        let class = self.class(class)?;
        let pair = self.pair(name, descriptor)?;
        self.other(Key::Field(class, pair))
    }

    /// The index of a method of a class, given by its name and descriptor (JVMS 4.4.2).
    pub fn method(
        &mut self,
        class: &[u8],
        name: &[u8],
        descriptor: &[u8],
    ) -> Result<u16, PoolRefusal>
        ensures { Makes result self.old self.new (method_entry class.now name.now descriptor.now) }
    {
        let class = self.class(class)?;
        let pair = self.pair(name, descriptor)?;
        self.other(Key::Method(class, pair))
    }

    /// The index of a method of an interface, given by its name and descriptor (JVMS 4.4.2).
    pub fn interface_method(
        &mut self,
        class: &[u8],
        name: &[u8],
        descriptor: &[u8],
    ) -> Result<u16, PoolRefusal>
        ensures { Makes result self.old self.new (interface_method_entry class.now name.now descriptor.now) }
    {
        let class = self.class(class)?;
        let pair = self.pair(name, descriptor)?;
        self.other(Key::IfaceMethod(class, pair))
    }
}
