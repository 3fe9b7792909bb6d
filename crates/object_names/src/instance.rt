// The names of one instance.

ghost use Rattle.std.specs.Prelude.{◌≡◌, IfOk};
ghost use Rattle.v_names.specs.SizedTrees.{Holders};
ghost use Rattle.v_design.specs.Plain.{vector_of, memory_of};
ghost use Rattle.object_names.specs.Instances.{HoldNames};

use crate::names::ObjectNames;
use elab_wires::hierarchical;
use std::alloc::Global;
use v_design::{MemoryRef, VectorRef};
use vf_base::{NoMemory, Text};

/// The names of one instance: those of all instances, and what stands before its own in the hierarchy.
#[derive(Clone, Copy)]
pub struct InstanceNames<'n> {
    pub names: &'n ObjectNames<'n>,
    pub path: &'n Text,
}

impl InstanceNames<'_> {
    /// The net or variable that a name of the instance is, with its own bounds and the pieces that hold its bits.
    pub fn vector(&self, alloc: Global, name: &Text) -> Result<VectorRef, NoMemory>
        ensures { IfOk result (λ v. (holders : Holders) → HoldNames holders self.now → vector_of v ≡ holders.vector name.now) }
    {
        let whole = hierarchical(alloc, self.path, name.as_bytes())?;
        let vector = self.names.vector(alloc, whole.as_bytes())?;
        Ok(vector)
    }

    /// The memory that a name of the instance is, with its words by address.
    pub fn memory(&self, alloc: Global, name: &Text) -> Result<MemoryRef, NoMemory>
        ensures { IfOk result (λ m. (holders : Holders) → HoldNames holders self.now → memory_of m ≡ holders.memory name.now) }
    {
        let whole = hierarchical(alloc, self.path, name.as_bytes())?;
        let memory = self.names.memory(alloc, whole.as_bytes())?;
        Ok(memory)
    }
}
