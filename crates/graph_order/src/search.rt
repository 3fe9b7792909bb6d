// Looking for a loop.

ghost use Rattle.std.specs.Prelude.{◌≡◌, ℕ, ◌+◌, ◌<◌, ◌≤◌, List, [], ◌∷◌, ◌++◌, true, false, length, get_or, IfOk, OnOk, vec_len};
ghost use Rattle.vf_base.specs.Lists.{has};
ghost use Rattle.graph_order.specs.Digraphs.{lists_of, needs_of, NeedVertices, IsOrder, IsOnLoop, IsLeastOnLoop};
ghost use Rattle.graph_order.specs.Searching.{IsSearch, AddsNeeds};

use crate::order::Order;
use std::alloc::Global;
use vf_base::NoMemory;

/// Adds one vertex to what a search has found, unless it has a place or was found before.
fn add_need(
    need: usize,
    placed: &Vec<bool>,
    seen: &mut Vec<bool>,
    found: &mut Vec<usize>,
) -> Result<(), NoMemory>
    requires need { need < vec_len placed.now }
    requires alike { vec_len seen.old ≡ vec_len placed.now }
    ensures search { OnOk result ((vertex : ℕ) → (need ≡ vertex → ⊥) → IsSearch (vec_len placed.now) vertex seen.old.items found.old.items →
        IsSearch (vec_len placed.now) vertex seen.new.items found.new.items) }
    ensures adds { OnOk result ((vertex : ℕ) (own before : List ℕ) → (need ≡ vertex → ⊥) → IsSearch (vec_len placed.now) vertex seen.old.items found.old.items →
        AddsNeeds placed.now.items vertex own before found.old.items → AddsNeeds placed.now.items vertex (own ++ need ∷ []) before found.new.items) }
    ensures same { OnOk result (vec_len seen.new ≡ vec_len placed.now) }
{
    if placed[need] {
        return Ok(());
    }
    if seen[need] {
        return Ok(());
    }
    found.push(need)?;
    seen[need] = true;
    Ok(())
}

/// Adds what a vertex needs to what a search has found; whether the vertex where the search began is among it.
fn add_needs(
    own: &[usize],
    vertex: usize,
    placed: &Vec<bool>,
    seen: &mut Vec<bool>,
    found: &mut Vec<usize>,
) -> Result<bool, NoMemory>
    requires own { (k : ℕ) → k < length own.now → get_or own.now k 0 < vec_len placed.now }
    requires search { IsSearch (vec_len placed.now) vertex seen.old.items found.old.items }
    ensures search { OnOk result (IsSearch (vec_len placed.now) vertex seen.new.items found.new.items) }
    ensures back { IfOk result (λ back. back ≡ true → has own.now vertex ≡ true) }
    ensures adds { IfOk result (λ back. back ≡ false → AddsNeeds placed.now.items vertex own.now found.old.items found.new.items) }
{
    'own: for need in own {
        if *need == vertex {
            return Ok(true);
        }
        add_need(*need, placed, seen, found)?;
    }
    Ok(false)
}

/// Takes the marks of what was found away.
fn unmark(found: &[usize], seen: &mut Vec<bool>)
    requires found { (k : ℕ) → k < length found.now → get_or found.now k 0 < vec_len seen.old }
    requires marked { (vertex : ℕ) → get_or seen.old.items vertex false ≡ true → has found.now vertex ≡ true }
    ensures same { vec_len seen.new ≡ vec_len seen.old }
    ensures blank { (vertex : ℕ) → get_or seen.new.items vertex false ≡ false }
{
    'found: for vertex in found {
        seen[*vertex] = false;
    }
}

/// What a vertex needs.
fn needs_at(needs: &[Vec<usize>], vertex: usize) -> &[usize]
    requires { vertex < length needs.now }
    ensures { result.now ≡ needs_of (lists_of needs.now) vertex }
{
    &needs[vertex]
}

/// Whether a vertex without a place is on a loop. It looks only at vertices without a place, each once.
fn is_on_loop(
    vertex: usize,
    needs: &[Vec<usize>],
    order: &Order,
    seen: &mut Vec<bool>,
    found: &mut Vec<usize>,
) -> Result<bool, NoMemory>
    requires vertex { vertex < length needs.now }
    requires graph { NeedVertices (lists_of needs.now) }
    requires order { IsOrder (lists_of needs.now) order.now.placed.items order.now.vertices.items }
    requires free { get_or order.now.placed.items vertex false ≡ false }
    requires sized { vec_len seen.old ≡ length needs.now }
    requires blank { (v : ℕ) → get_or seen.old.items v false ≡ false }
    ensures loops { IfOk result (λ loops. loops ≡ true → IsOnLoop (lists_of needs.now) vertex) }
    ensures none { IfOk result (λ loops. loops ≡ false → IsOnLoop (lists_of needs.now) vertex → ⊥) }
    ensures sized { IfOk result (λ loops. loops ≡ false → vec_len seen.new ≡ length needs.now) }
    ensures blank { IfOk result (λ loops. loops ≡ false → (v : ℕ) → get_or seen.new.items v false ≡ false) }
{
    found.clear();
    found.push(vertex)?;
    let mut done = 0;
    'found: while done < found.len() {
        let own = needs_at(needs, found[done]);
        if add_needs(own, vertex, &order.placed, seen, found)? {
            return Ok(true);
        }
        done += 1;
    }
    unmark(found, seen);
    Ok(false)
}

/// The least vertex on a loop, among those below a number; none where none of them is on one.
pub fn least_on_loop(
    alloc: Global,
    needs: &[Vec<usize>],
    order: &Order,
    bound: usize,
) -> Result<Option<usize>, NoMemory>
    requires bound { bound ≤ length needs.now }
    requires graph { NeedVertices (lists_of needs.now) }
    requires order { IsOrder (lists_of needs.now) order.now.placed.items order.now.vertices.items }
    ensures { IfOk result (λ least. IsLeastOnLoop (lists_of needs.now) bound least) }
{
    let mut seen = vec![in alloc; false; needs.len()]?;
    let mut found = Vec::new(alloc);
    'candidates: for vertex in 0..bound {
        if order.placed[vertex] {
            continue;
        }
        if is_on_loop(vertex, needs, order, &mut seen, &mut found)? {
            return Ok(Some(vertex));
        }
    }
    Ok(None)
}
