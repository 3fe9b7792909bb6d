// How many steps lead to each vertex.

ghost use Rattle.std.specs.Prelude.{◌≡◌, ℕ, ◌+◌, ◌<◌, ◌≤◌, ◌^◌, true, false, map, length, get_or, IfOk, vec_len};
ghost use Rattle.vf_base.specs.Lists.{greatest};
ghost use Rattle.graph_order.specs.Digraphs.{lists_of, NeedVertices, IsOrder, AreDepths, step_to};

use crate::order::Order;
use std::alloc::Global;
use vf_base::NoMemory;

/// The depth of a vertex over those of what it needs.
fn depth_over(needs: &[usize], depths: &Vec<usize>, step: usize) -> usize
    requires within { (k : ℕ) → k < length needs.now → get_or needs.now k 0 < vec_len depths.now }
    requires small { (vertex : ℕ) → get_or depths.now.items vertex 0 + step < 2 ^ 64 }
    ensures { result ≡ greatest (map (λ need. get_or depths.now.items need 0 + step) needs.now) }
{
    let mut depth = 0;
    'needs: for need in needs {
        depth = depth.max(depths[*need] + step);
    }
    depth
}

/// 1 for a vertex below a number, else 0.
fn step_to(vertex: usize, counted: usize) -> usize
    ensures { result ≡ step_to counted vertex }
{
    if vertex < counted { 1 } else { 0 }
}

/// For each vertex the most steps to vertices below a number, on a walk that ends there.
pub fn depths(
    alloc: Global,
    needs: &[Vec<usize>],
    order: &Order,
    counted: usize,
) -> Result<Vec<usize>, NoMemory>
    requires graph { NeedVertices (lists_of needs.now) }
    requires order { IsOrder (lists_of needs.now) order.now.placed.items order.now.vertices.items }
    requires all { (vertex : ℕ) → vertex < length needs.now → get_or order.now.placed.items vertex false ≡ true }
    ensures same { IfOk result (λ depths. vec_len depths ≡ length needs.now) }
    ensures depths { IfOk result (λ depths. AreDepths (lists_of needs.now) counted depths.items) }
{
    let mut depths = vec![in alloc; 0usize; needs.len()]?;
    'vertices: for vertex in &order.vertices {
        let depth = depth_over(&needs[*vertex], &depths, step_to(*vertex, counted));
        depths[*vertex] = depth;
    }
    Ok(depths)
}
