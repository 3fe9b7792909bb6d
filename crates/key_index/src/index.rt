// Where keys stand in a list.

ghost use Rattle.std.specs.Prelude.{◌≡◌, ◌+◌, ◌<◌, [], Some, List, ℕ, IfOk, OnOk, length, slice_index_or};
ghost use Rattle.std.specs.Str.{bytes_eq};
ghost use Rattle.std.specs.Map.{update};
ghost use Rattle.key_index.specs.Places.{keys_of, place_in, key_from};

use std::alloc::Global;
use std::collections::HashMap;
use std::marker::Model;
use vf_base::NoMemory;

/// Where each key of a list stands: its first place, and after each place the next one. Contracts see the list of the keys.
#[derive(Drop)]
pub struct KeyIndex<'k> {
    keys: Vec<&'k [u8]>,
    firsts: HashMap<&'k [u8], u32>,
    /// For each place, counted from the last one, the next place of its key.
    nexts: Vec<Option<u32>>,
}

impl<'k> Model for KeyIndex<'k> {
    ghost use Rattle.std.specs.Prelude.{List, ℕ};

    ghost Value = { List (List ℕ) };

    ghost use Rattle.key_index.specs.Indexes.{keys_in, IsIndex};

    ghost view = { keys_in };

    ghost invariant = { IsIndex };
}

/// Notes a key's place as its first one, and answers the one that was noted before.
fn note<'k>(
    firsts: &mut HashMap<&'k [u8], u32>,
    key: &'k [u8],
    place: u32,
) -> Result<Option<u32>, NoMemory>
    ensures old { IfOk result (λ old. old ≡ place_in firsts.old key.now) }
    ensures noted { OnOk result ((word : List ℕ) → place_in firsts.new word ≡ update bytes_eq (place_in firsts.old) key.now (Some place) word) }
{
    match firsts.insert(key, place) {
        Ok(old) => Ok(old),
        Err(_) => Err(NoMemory),
    }
}

impl<'k> KeyIndex<'k> {
    /// The index of a list of keys. More than a place can count are more than a memory holds.
    pub fn new(alloc: Global, keys: Vec<&'k [u8]>) -> Result<KeyIndex<'k>, NoMemory>
        ensures { IfOk result (λ index. index ≡ keys_of keys.entry.items) }
    {
        if keys.len() > u32::MAX as usize {
            return Err(NoMemory);
        }
        let mut firsts = HashMap::new(alloc);
        let mut nexts = Vec::new(alloc);
        'keys: for place in (0..keys.len()).rev() {
            let next = note(&mut firsts, keys[place], place as u32)?;
            nexts.push(next)?;
        }
        Ok(KeyIndex {
            keys,
            firsts,
            nexts,
        })
    }

    /// The first place of a key, if it has one.
    pub fn first(&self, key: &[u8]) -> Option<u32>
        ensures { result ≡ key_from self.now key.now 0 }
    {
        match self.firsts.get(key) {
            Some(place) => Some(*place),
            None => None,
        }
    }

    /// The next place of the key at a place, if there is one.
    pub fn next(&self, place: u32) -> Option<u32>
        requires { place < length self.now }
        ensures { result ≡ key_from self.now (slice_index_or self.now place []) (place + 1) }
    {
        self.nexts[self.nexts.len() - 1 - place as usize]
    }
}
