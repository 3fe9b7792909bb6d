// Items that stand under keys.

ghost use Rattle.std.specs.Prelude.{◌≡◌, IfOk, map};
ghost use Rattle.key_index.specs.Places.{keys_of};
ghost use Rattle.key_index.specs.Groups.{keyed_of, key_of, items_under, first_under};

use crate::index::KeyIndex;
use std::alloc::Global;
use std::marker::Model;
use vf_base::NoMemory;

/// An item with the key under which it stands.
#[derive(Drop)]
pub struct Keyed<'k, T: Copy + Drop> {
    pub key: &'k [u8],
    pub item: T,
}

/// Items under keys, in their order; many may stand under one key. Contracts see the list of the keys with the items.
#[derive(Drop)]
pub struct Grouped<'k, T: Copy + Drop> {
    items: Vec<Keyed<'k, T>>,
    index: KeyIndex<'k>,
}

impl<'k, T: Copy + Drop> Model for Grouped<'k, T> {
    ghost use Rattle.std.specs.Prelude.{◌≡◌, List, ℕ, map};
    ghost use Rattle.key_index.specs.Groups.{keyed_of, key_of};

    ghost Value = { List (List ℕ × T) };

    ghost view = { λ g. map keyed_of g.items.items };

    ghost invariant = { λ g. g.index ≡ map key_of (map keyed_of g.items.items) };
}

/// The keys of some items.
fn list_keys<'k, T: Copy + Drop>(
    alloc: Global,
    items: &[Keyed<'k, T>],
) -> Result<Vec<&'k [u8]>, NoMemory>
    ensures { IfOk result (λ keys. keys_of keys.items ≡ map key_of (map keyed_of items.now)) }
{
    let mut keys = Vec::new(alloc);
    'items: for item in items {
        keys.push(item.key)?;
    }
    Ok(keys)
}

/// The first item under a key.
fn first_item<'k, T: Copy + Drop>(
    items: &[Keyed<'k, T>],
    index: &KeyIndex<'k>,
    key: &[u8],
) -> Option<T>
    requires { index.now ≡ map key_of (map keyed_of items.now) }
    ensures { result ≡ first_under (map keyed_of items.now) key.now }
{
    match index.first(key) {
        None => None,
        Some(place) => Some(items[place as usize].item),
    }
}

#[tactic(auto, using(crate::proofs::Grouping::found_all))]
/// All items under a key, by going from place to place of the key.
fn all_items<'k, T: Copy + Drop>(
    alloc: Global,
    items: &[Keyed<'k, T>],
    index: &KeyIndex<'k>,
    key: &[u8],
) -> Result<Vec<T>, NoMemory>
    requires { index.now ≡ map key_of (map keyed_of items.now) }
    ensures { IfOk result (λ found. found.items ≡ items_under (map keyed_of items.now) key.now) }
{
    let mut found = Vec::new(alloc);
    let mut at = index.first(key);
    'places: while let Some(place) = at {
        found.push(items[place as usize].item)?;
        at = index.next(place);
    }
    Ok(found)
}

impl<'k, T: Copy + Drop> Grouped<'k, T> {
    /// Some items under their keys.
    pub fn new(alloc: Global, items: Vec<Keyed<'k, T>>) -> Result<Grouped<'k, T>, NoMemory>
        ensures { IfOk result (λ grouped. grouped ≡ map keyed_of items.entry.items) }
    {
        let keys = list_keys(alloc, &items)?;
        let index = KeyIndex::new(alloc, keys)?;
        Ok(Grouped { items, index })
    }

    /// The first item under a key, if there is one.
    pub fn first(&self, key: &[u8]) -> Option<T>
        ensures { result ≡ first_under self.now key.now }
    {
        first_item(&self.items, &self.index, key)
    }

    /// All items under a key, in their order.
    pub fn all(&self, alloc: Global, key: &[u8]) -> Result<Vec<T>, NoMemory>
        ensures { IfOk result (λ found. found.items ≡ items_under self.now key.now) }
    {
        let found = all_items(alloc, &self.items, &self.index, key)?;
        Ok(found)
    }
}
