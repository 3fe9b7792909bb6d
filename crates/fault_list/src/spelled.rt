// The site that a word spells, found without memory by going through the design.

ghost use Rattle.std.specs.Prelude.{◌≡◌, ℕ, ◌+◌, ◌∷◌, ◌<◌, ◌≤◌, ◌^◌, ◌++◌, length, option_map, map, find, Contains, IfSome};
ghost use Rattle.std.specs.Str.{bytes_eq};
ghost use Rattle.vf_base.specs.Base.{object_number, node_number};
ghost use Rattle.v_design.specs.Expressions.{up_from};
ghost use Rattle.v_design.specs.Sized.{span};
ghost use Rattle.vf_base.specs.Lists.{has, first_place};
ghost use Rattle.v_design.specs.Plain.{site_of, object_of, node_of, node_kind_of, name_joined, piece_of};
ghost use Rattle.v_design.specs.PlainDesigns.{design_of};
ghost use Rattle.v_design.specs.Sites.{index_of_bit, index_text, terminal_count, sites_of};
ghost use Rattle.fault_list.specs.Spelled.{or_else, first_answer, numbered_terminals, driver_of, site_by_kind, site_at, bit_spelled, object_spelled};
ghost use Rattle.fault_list.specs.Spelled.{terminal_spelled, node_spelled, piece_bit, held_bit, place_spelled, place_site, name_spelled, site_spelled};

use crate::compare::{is_bit_name, is_terminal_name};
use crate::name::index_of_bit;
use v_design::{Design, JoinedName, Node, NodeKind, Object, ObjectKind, PieceRef, Site};
use vf_base::{NodeId, ObjectId};

/// The place of the bit, among so many, that a word spells by a name with these declared indexes.
fn place_spelled(
    name: &[u8],
    ranged: bool,
    high: u32,
    low: u32,
    count: u64,
    word: &[u8],
) -> Option<u32>
    requires { count ≤ 2 ^ 32 }
    ensures { result ≡ find (λ place. bytes_eq (name.now ++ index_text ranged (index_of_bit high low place)) word.now) (up_from 0 count) }
{
    'places: for place in 0..count {
        if is_bit_name(name, ranged, index_of_bit(high, low, place as u32), word) {
            return Some(place as u32);
        }
    }
    None
}

/// The bit of an object that a word spells.
pub fn bit_spelled(object: &Object, word: &[u8]) -> Option<u32>
    ensures { result ≡ bit_spelled (object_of object.now) word.now }
{
    let name = object.name.as_bytes();
    let width = u64::from(object.width);
    place_spelled(name, object.ranged, object.high, object.low, width, word)
}

/// Whether a node drives an object.
fn drives(node: &Node, object: ObjectId) -> bool
    ensures { result ≡ has (node_of node.now).outputs (object_number object) }
{
    'outputs: for output in node.outputs.as_slice() {
        if output.0 == object.0 {
            return true;
        }
    }
    false
}

/// The node that drives an object.
fn driver_of(nodes: &[Node], object: ObjectId) -> Option<NodeId>
    requires { length nodes.now < 2 ^ 32 }
    ensures { option_map node_number result ≡ first_place (λ node. has node.outputs (object_number object)) (map node_of nodes.now) }
{
    'nodes: for (number, node) in nodes.iter().enumerate() {
        if drives(node, object) {
            return Some(NodeId(number as u32));
        }
    }
    None
}

/// The site of a bit of an object of a kind.
fn site_by_kind(design: &Design, kind: ObjectKind, object: ObjectId, bit: u32) -> Option<Site>
    ensures { option_map site_of result ≡ site_by_kind (design_of design.now) kind (object_number object) bit }
{
    match kind {
        ObjectKind::Var => Some(Site::Var(object, bit)),
        ObjectKind::Word => None,
        ObjectKind::Net => match driver_of(design.nodes.as_slice(), object) {
            Some(node) => Some(Site::Out(node, object, bit)),
            None => None,
        },
    }
}

/// The site of the bit of an object that a word spells.
fn object_spelled(design: &Design, number: ObjectId, object: &Object, word: &[u8]) -> Option<Site>
    ensures { option_map site_of result ≡ object_spelled (design_of design.now) word.now (object_number number) (object_of object.now) }
{
    match bit_spelled(object, word) {
        Some(bit) => site_by_kind(design, object.kind, number, bit),
        None => None,
    }
}

/// The site of the bit that a word spells by an object's own name.
fn objects_spelled(design: &Design, word: &[u8]) -> Option<Site>
    ensures { option_map site_of result ≡ first_answer (object_spelled (design_of design.now) word.now) 0 (design_of design.now).objects }
{
    let objects = design.objects.as_slice();
    'objects: for (number, object) in objects.iter().enumerate() {
        if let Some(site) = object_spelled(design, ObjectId(number as u32), object, word) {
            return Some(site);
        }
    }
    None
}

/// The number of a node's input terminals.
pub(crate) fn terminals_len(kind: &NodeKind) -> usize
    ensures { result ≡ terminal_count (node_kind_of kind.now) }
{
    match kind {
        NodeKind::Gate(_, terminals) => terminals.len(),
        NodeKind::Assign(_, _) | NodeKind::Block(_) => 0,
    }
}

/// The number of a node's input terminals that have a number of 32 bits.
fn numbered_terminals(node: &Node) -> u32
    ensures { result ≡ numbered_terminals (node_of node.now) }
{
    let count = terminals_len(&node.kind);
    if count <= u32::MAX as usize {
        count as u32
    } else {
        u32::MAX
    }
}

/// The site of the terminal of a gate that a word spells.
pub fn node_spelled(number: NodeId, node: &Node, word: &[u8]) -> Option<Site>
    ensures { option_map site_of result ≡ node_spelled word.now (node_number number) (node_of node.now) }
{
    let name = node.name.as_bytes();
    'terminals: for place in 0..numbered_terminals(node) {
        if is_terminal_name(name, place + 1, word) {
            return Some(Site::Terminal(number, place + 1));
        }
    }
    None
}

/// The site of the terminal that a word spells.
fn nodes_spelled(design: &Design, word: &[u8]) -> Option<Site>
    ensures { option_map site_of result ≡ first_answer (node_spelled word.now) 0 (design_of design.now).nodes }
{
    let nodes = design.nodes.as_slice();
    'nodes: for (number, node) in nodes.iter().enumerate() {
        if let Some(site) = node_spelled(NodeId(number as u32), node, word) {
            return Some(site);
        }
    }
    None
}

/// The object that holds the bit at a place of some pieces, and the bit in it.
pub fn piece_bit(pieces: &[PieceRef], place: u32) -> Option<(ObjectId, u32)>
    ensures { option_map held_bit result ≡ piece_bit (map piece_of pieces.now) place }
{
    let mut left = place;
    'pieces: for piece in pieces {
        if left < u32::from(piece.width) {
            return Some((piece.object, left));
        }
        left -= u32::from(piece.width);
    }
    None
}

/// The site of a bit of the object of a number.
fn site_at(design: &Design, object: ObjectId, bit: u32) -> Option<Site>
    ensures { option_map site_of result ≡ site_at (design_of design.now) (object_number object) bit }
{
    match design.objects.as_slice().get(object.0 as usize) {
        Some(found) if bit < u32::from(found.width) => {
            site_by_kind(design, found.kind, object, bit)
        }
        _ => None,
    }
}

/// The site of the bit at a place of a joined name.
fn place_site(design: &Design, name: &JoinedName, place: u32) -> Option<Site>
    ensures { option_map site_of result ≡ place_site (design_of design.now) (name_joined name.now) place }
{
    match piece_bit(name.pieces.as_slice(), place) {
        Some((object, bit)) => site_at(design, object, bit),
        None => None,
    }
}

/// The number of bits between two bounds, both of them counted.
fn span(high: u32, low: u32) -> u64
    ensures { result ≡ span high low }
{
    if low <= high {
        u64::from(high - low) + 1
    } else {
        u64::from(low - high) + 1
    }
}

/// The place of the bit of a joined name that a word spells.
pub fn joined_place(name: &JoinedName, word: &[u8]) -> Option<u32>
    ensures { result ≡ place_spelled (name_joined name.now) word.now }
{
    let count = span(name.high, name.low);
    let bytes = name.name.as_bytes();
    place_spelled(bytes, name.ranged, name.high, name.low, count, word)
}

/// The site of the bit of a joined name that a word spells.
fn name_spelled(design: &Design, name: &JoinedName, word: &[u8]) -> Option<Site>
    ensures { (number : ℕ) → option_map site_of result ≡ name_spelled (design_of design.now) word.now number (name_joined name.now) }
{
    match joined_place(name, word) {
        Some(place) => place_site(design, name, place),
        None => None,
    }
}

/// The site of the bit that a word spells by a joined name.
fn names_spelled(design: &Design, word: &[u8]) -> Option<Site>
    ensures { option_map site_of result ≡ first_answer (name_spelled (design_of design.now) word.now) 0 (design_of design.now).joined }
{
    let names = design.joined.as_slice();
    'names: for name in names {
        let spelled = name_spelled(design, name, word);
        if let Some(site) = spelled {
            return Some(site);
        }
    }
    None
}

/// The site that a word spells, by the names of objects, of gates and of joined names in turn.
fn answer_of(design: &Design, word: &[u8]) -> Option<Site>
    ensures { option_map site_of result ≡ site_spelled (design_of design.now) word.now }
{
    if let Some(site) = objects_spelled(design, word) {
        return Some(site);
    }
    if let Some(site) = nodes_spelled(design, word) {
        return Some(site);
    }
    names_spelled(design, word)
}

/// The site that a word spells: NAME or NAME[INDEX] for a bit, by an object's own name or one that is joined into objects with its own index,
/// or GATE.TERMINAL; None exactly where the word spells no site. It is one of the design's sites. It takes no memory.
pub fn site_of(design: &Design, word: &[u8]) -> Option<Site>
    ensures spelled { option_map site_of result ≡ site_spelled (design_of design.now) word.now }
    ensures listed { IfSome result (λ site. Contains (sites_of (design_of design.now)) (site_of site)) }
{
    answer_of(design, word)
}
