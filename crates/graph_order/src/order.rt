// Putting each vertex after those that it needs.

ghost use Rattle.std.specs.Prelude.{◌≡◌, ℕ, ◌+◌, ◌<◌, ◌≤◌, Bool, true, false, List, [], length, get_or, replicate, nat_le, IfOk, OnOk, vec_len};
ghost use Rattle.vf_base.specs.Lists.{has};
ghost use Rattle.graph_order.specs.Digraphs.{lists_of, NeedVertices, IsOrder};
ghost use Rattle.graph_order.specs.Sorting.{IsSorting, AllWait, VerticesWait, one_less};

use std::alloc::Global;
use vf_base::NoMemory;

/// An order of the vertices of a graph, without those that need a loop; and whether each vertex stands in it.
#[derive(Drop)]
pub struct Order {
    pub vertices: Vec<usize>,
    pub placed: Vec<bool>,
}

/// A sort that goes on: how many needs of each vertex are known to be placed, which vertices wait for each one, and the order so far.
#[derive(Drop)]
struct Sort {
    met: Vec<usize>,
    waiters: Vec<Vec<usize>>,
    placed: Vec<bool>,
    vertices: Vec<usize>,
}

/// The first of some needs, from a place on, that isn't placed; their number where there is none.
fn first_missing(needs: &Vec<usize>, from: usize, placed: &Vec<bool>) -> usize
    requires within { from ≤ vec_len needs.now }
    requires are_vertices { (k : ℕ) → k < vec_len needs.now → get_or needs.now.items k 0 < vec_len placed.now }
    ensures low { from ≤ result }
    ensures high { result ≤ vec_len needs.now }
    ensures placed { (k : ℕ) → from ≤ k → k < result → get_or placed.now.items (get_or needs.now.items k 0) false ≡ true }
    ensures missing { result < vec_len needs.now → get_or placed.now.items (get_or needs.now.items result 0) false ≡ false }
{
    'needs: for at in from..needs.len() {
        if !placed[needs[at]] {
            return at;
        }
    }
    needs.len()
}

/// Gives a vertex its place, unless it needs one that has none: then it waits for that.
fn place_or_wait(vertex: usize, needs: &[Vec<usize>], sort: &mut Sort) -> Result<(), NoMemory>
    requires vertex { vertex < length needs.now }
    requires graph { NeedVertices (lists_of needs.now) }
    requires sorting { IsSorting (lists_of needs.now) sort.old.met.items sort.old.placed.items sort.old.vertices.items }
    requires lists { vec_len sort.old.waiters ≡ length needs.now }
    ensures sorting { OnOk result (IsSorting (lists_of needs.now) sort.new.met.items sort.new.placed.items sort.new.vertices.items) }
    ensures lists { OnOk result (vec_len sort.new.waiters ≡ length needs.now) }
    ensures vertices { OnOk result (VerticesWait (lists_of needs.now) (lists_of sort.old.waiters.items) → VerticesWait (lists_of needs.now) (lists_of sort.new.waiters.items)) }
    ensures longer { OnOk result (length sort.old.vertices.items ≤ length sort.new.vertices.items) }
    ensures waiting { OnOk result ((done : ℕ) (but : ℕ → Bool) → done ≤ length sort.old.vertices.items →
        AllWait (lists_of needs.now) (lists_of sort.old.waiters.items) sort.old.placed.items sort.old.vertices.items done but →
        AllWait (lists_of needs.now) (lists_of sort.new.waiters.items) sort.new.placed.items sort.new.vertices.items done (one_less but vertex)) }
{
    if sort.placed[vertex] {
        return Ok(());
    }
    let own = &needs[vertex];
    let at = first_missing(own, sort.met[vertex], &sort.placed);
    sort.met[vertex] = at;
    if at < own.len() {
        sort.waiters[own[at]].push(vertex)?;
    } else {
        sort.vertices.push(vertex)?;
        sort.placed[vertex] = true;
    }
    Ok(())
}

/// So many empty lists.
pub fn empty_lists(alloc: Global, count: usize) -> Result<Vec<Vec<usize>>, NoMemory>
    ensures { IfOk result (λ lists. lists_of lists.items ≡ replicate count []) }
{
    let mut lists = Vec::new(alloc);
    'lists: for _ in 0..count {
        lists.push(Vec::new(alloc))?;
    }
    Ok(lists)
}

/// A sort of which each vertex is placed or waits.
fn begin(alloc: Global, needs: &[Vec<usize>]) -> Result<Sort, NoMemory>
    requires { NeedVertices (lists_of needs.now) }
    ensures sorting { IfOk result (λ sort. IsSorting (lists_of needs.now) sort.met.items sort.placed.items sort.vertices.items) }
    ensures vertices { IfOk result (λ sort. VerticesWait (lists_of needs.now) (lists_of sort.waiters.items)) }
    ensures lists { IfOk result (λ sort. vec_len sort.waiters ≡ length needs.now) }
    ensures waiting { IfOk result (λ sort. AllWait (lists_of needs.now) (lists_of sort.waiters.items) sort.placed.items sort.vertices.items 0 (λ _. false)) }
{
    let count = needs.len();
    let mut sort = Sort {
        met: vec![in alloc; 0usize; count]?,
        waiters: empty_lists(alloc, count)?,
        placed: vec![in alloc; false; count]?,
        vertices: Vec::new(alloc),
    };
    'vertices: for vertex in 0..count {
        place_or_wait(vertex, needs, &mut sort)?;
    }
    Ok(sort)
}

/// Goes on with the vertices that waited for one that is placed now.
fn tell(told: &[usize], needs: &[Vec<usize>], sort: &mut Sort) -> Result<(), NoMemory>
    requires told { (k : ℕ) → k < length told.now → get_or told.now k 0 < length needs.now }
    requires graph { NeedVertices (lists_of needs.now) }
    requires sorting { IsSorting (lists_of needs.now) sort.old.met.items sort.old.placed.items sort.old.vertices.items }
    requires vertices { VerticesWait (lists_of needs.now) (lists_of sort.old.waiters.items) }
    requires lists { vec_len sort.old.waiters ≡ length needs.now }
    ensures sorting { OnOk result (IsSorting (lists_of needs.now) sort.new.met.items sort.new.placed.items sort.new.vertices.items) }
    ensures vertices { OnOk result (VerticesWait (lists_of needs.now) (lists_of sort.new.waiters.items)) }
    ensures lists { OnOk result (vec_len sort.new.waiters ≡ length needs.now) }
    ensures longer { OnOk result (length sort.old.vertices.items ≤ length sort.new.vertices.items) }
    ensures waiting { OnOk result ((done : ℕ) → done ≤ length sort.old.vertices.items →
        AllWait (lists_of needs.now) (lists_of sort.old.waiters.items) sort.old.placed.items sort.old.vertices.items done (has told.now) →
        AllWait (lists_of needs.now) (lists_of sort.new.waiters.items) sort.new.placed.items sort.new.vertices.items done (λ _. false)) }
{
    'told: for vertex in told {
        place_or_wait(*vertex, needs, sort)?;
    }
    Ok(())
}

/// Puts each vertex after those that it needs, but for those that need a loop.
pub fn put_in_order(alloc: Global, needs: &[Vec<usize>]) -> Result<Order, NoMemory>
    requires { NeedVertices (lists_of needs.now) }
    ensures { IfOk result (λ order. IsOrder (lists_of needs.now) order.placed.items order.vertices.items) }
{
    let mut sort = begin(alloc, needs)?;
    let mut done = 0;
    'vertices: while done < sort.vertices.len() {
        let vertex = sort.vertices[done];
        let told = std::mem::replace(&mut sort.waiters[vertex], Vec::new(alloc));
        done += 1;
        tell(&told, needs, &mut sort)?;
    }
    Ok(Order {
        vertices: sort.vertices,
        placed: sort.placed,
    })
}
