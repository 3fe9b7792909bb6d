// The names of a design.

ghost use Rattle.std.specs.Prelude.{◌≡◌, ◌+◌, ◌<◌, ℕ, [], None, Some, IfOk, IfSome, Contains, map, length, option_map, slice_get, slice_index_or};
ghost use Rattle.vf_base.specs.Base.{object_number, node_number};
ghost use Rattle.v_design.specs.Plain.{site_of, object_of, node_of, name_joined};
ghost use Rattle.v_design.specs.PlainDesigns.{design_of};
ghost use Rattle.v_design.specs.Sites.{sites_of};
ghost use Rattle.fault_list.specs.Spelled.{first_answer, driver_of, site_by_kind, site_at, object_spelled, node_spelled, place_site, name_spelled, site_spelled};
ghost use Rattle.key_index.specs.Places.{key_from};
ghost use Rattle.plan_read.specs.Stems.{stem, object_key, gate_key, joined_key};

use crate::drivers::drivers_of;
use crate::keys::{gate_keys, joined_keys, object_keys};
use crate::stem::{front, stem};
use fault_list::{bit_spelled, joined_place, node_spelled, piece_bit};
use key_index::KeyIndex;
use std::alloc::Global;
use v_design::{Design, JoinedName, Object, ObjectKind, Site};
use vf_base::{NoMemory, NodeId, ObjectId};

/// The names of a design's objects, gates and joined names, found through maps.
#[derive(Drop)]
pub struct SiteNames<'d> {
    /// The design whose names they are.
    pub design: &'d Design,
    objects: KeyIndex<'d>,
    gates: KeyIndex<'d>,
    joined: KeyIndex<'d>,
    drivers: Vec<Option<NodeId>>,
    pub ghost objects_listed: { objects ≡ map object_key (design_of design.now).objects },
    pub ghost gates_listed: { gates ≡ map gate_key (design_of design.now).nodes },
    pub ghost joined_listed: { joined ≡ map joined_key (design_of design.now).joined },
    pub ghost drivers_found: { (object : ℕ) → object < length (design_of design.now).objects →
        option_map node_number (slice_index_or drivers.items object None) ≡ driver_of (design_of design.now) object },
    pub ghost drivers_len: { length drivers.items ≡ length (design_of design.now).objects },
}

impl<'d> SiteNames<'d> {
    /// The names of a design.
    pub fn new(alloc: Global, design: &'d Design) -> Result<SiteNames<'d>, NoMemory>
        ensures { IfOk result (λ names. names.design.now ≡ design.now) }
    {
        let objects = KeyIndex::new(alloc, object_keys(alloc, design.objects.as_slice())?)?;
        let gates = KeyIndex::new(alloc, gate_keys(alloc, design.nodes.as_slice())?)?;
        let joined = KeyIndex::new(alloc, joined_keys(alloc, design.joined.as_slice())?)?;
        let drivers = drivers_of(alloc, design)?;
        Ok(SiteNames {
            design,
            objects,
            gates,
            joined,
            drivers,
        })
    }

    /// The site of a bit of an object of a kind.
    fn site_by_kind(&self, kind: ObjectKind, object: ObjectId, bit: u32) -> Option<Site>
        requires { object_number object < length (design_of self.now.design.now).objects }
        ensures { option_map site_of result ≡ site_by_kind (design_of self.now.design.now) kind (object_number object) bit }
    {
        match kind {
            ObjectKind::Var => Some(Site::Var(object, bit)),
            ObjectKind::Word => None,
            ObjectKind::Net => match self.drivers[object.0 as usize] {
                Some(node) => Some(Site::Out(node, object, bit)),
                None => None,
            },
        }
    }

    /// The site of the bit of an object that a word spells.
    fn site_in_object(&self, number: ObjectId, object: &Object, word: &[u8]) -> Option<Site>
        requires { object_number number < length (design_of self.now.design.now).objects }
        ensures { option_map site_of result ≡ object_spelled (design_of self.now.design.now) word.now (object_number number) (object_of object.now) }
    {
        match bit_spelled(object, word) {
            Some(bit) => self.site_by_kind(object.kind, number, bit),
            None => None,
        }
    }

    /// The site of the bit that a word spells by an object's own name.
    fn site_by_object(&self, word: &[u8]) -> Option<Site>
        ensures { option_map site_of result ≡ first_answer (object_spelled (design_of self.now.design.now) word.now) 0 (design_of self.now.design.now).objects }
    {
        let objects = self.design.objects.as_slice();
        let mut at = self.objects.first(stem(word));
        'places: while let Some(place) = at {
            let object = &objects[place as usize];
            let found = self.site_in_object(ObjectId(place), object, word);
            if let Some(site) = found {
                return Some(site);
            }
            at = self.objects.next(place);
        }
        None
    }

    /// The site of the terminal that a word spells.
    fn site_by_gate(&self, word: &[u8]) -> Option<Site>
        ensures { option_map site_of result ≡ first_answer (node_spelled word.now) 0 (design_of self.now.design.now).nodes }
    {
        let nodes = self.design.nodes.as_slice();
        let mut at = self.gates.first(front(word));
        'places: while let Some(place) = at {
            let node = &nodes[place as usize];
            let found = node_spelled(NodeId(place), node, word);
            if let Some(site) = found {
                return Some(site);
            }
            at = self.gates.next(place);
        }
        None
    }

    /// The site of a bit of the object of a number.
    fn site_at(&self, object: ObjectId, bit: u32) -> Option<Site>
        ensures { option_map site_of result ≡ site_at (design_of self.now.design.now) (object_number object) bit }
    {
        match self.design.objects.as_slice().get(object.0 as usize) {
            Some(found) if bit < u32::from(found.width) => {
                self.site_by_kind(found.kind, object, bit)
            }
            _ => None,
        }
    }

    /// The site of the bit at a place of a joined name.
    fn site_at_place(&self, name: &JoinedName, place: u32) -> Option<Site>
        ensures { option_map site_of result ≡ place_site (design_of self.now.design.now) (name_joined name.now) place }
    {
        match piece_bit(name.pieces.as_slice(), place) {
            Some((object, bit)) => self.site_at(object, bit),
            None => None,
        }
    }

    /// The site of the bit of a joined name that a word spells.
    fn site_in_joined(&self, name: &JoinedName, word: &[u8]) -> Option<Site>
        ensures { (number : ℕ) → option_map site_of result ≡ name_spelled (design_of self.now.design.now) word.now number (name_joined name.now) }
    {
        match joined_place(name, word) {
            Some(place) => self.site_at_place(name, place),
            None => None,
        }
    }

    /// The site of the bit that a word spells by a joined name.
    fn site_by_joined(&self, word: &[u8]) -> Option<Site>
        ensures { option_map site_of result ≡ first_answer (name_spelled (design_of self.now.design.now) word.now) 0 (design_of self.now.design.now).joined }
    {
        let names = self.design.joined.as_slice();
        let mut at = self.joined.first(stem(word));
        'places: while let Some(place) = at {
            let name = &names[place as usize];
            let found = self.site_in_joined(name, word);
            if let Some(site) = found {
                return Some(site);
            }
            at = self.joined.next(place);
        }
        None
    }

    /// The site that a word spells: NAME or NAME[INDEX] for a bit, by an object's own name or one that is joined into objects with its own index,
    /// or GATE.TERMINAL; None exactly where the word spells no site. It takes no memory.
    pub fn site_of(&self, word: &[u8]) -> Option<Site>
        ensures { option_map site_of result ≡ site_spelled (design_of self.now.design.now) word.now }
    {
        if let Some(site) = self.site_by_object(word) {
            return Some(site);
        }
        if let Some(site) = self.site_by_gate(word) {
            return Some(site);
        }
        self.site_by_joined(word)
    }

    /// The first object whose name has the stem of a word: no object before it can be one that the word spells.
    pub fn first_object(&self, word: &[u8]) -> Option<u32>
        ensures { result ≡ key_from (map object_key (design_of self.now.design.now).objects) (stem word.now) 0 }
    {
        self.objects.first(stem(word))
    }

    /// The next object whose name has the stem of an object's name.
    pub fn next_object(&self, place: u32) -> Option<u32>
        requires { place < length (design_of self.now.design.now).objects }
        ensures { result ≡ key_from (map object_key (design_of self.now.design.now).objects) (slice_index_or (map object_key (design_of self.now.design.now).objects) place []) (place + 1) }
    {
        self.objects.next(place)
    }

    /// The first joined name that has the stem of a word.
    pub fn first_joined(&self, word: &[u8]) -> Option<u32>
        ensures { result ≡ key_from (map joined_key (design_of self.now.design.now).joined) (stem word.now) 0 }
    {
        self.joined.first(stem(word))
    }

    /// The next joined name that has the stem of one.
    pub fn next_joined(&self, place: u32) -> Option<u32>
        requires { place < length (design_of self.now.design.now).joined }
        ensures { result ≡ key_from (map joined_key (design_of self.now.design.now).joined) (slice_index_or (map joined_key (design_of self.now.design.now).joined) place []) (place + 1) }
    {
        self.joined.next(place)
    }
}
