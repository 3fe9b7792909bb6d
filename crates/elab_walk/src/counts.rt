// The counts of the parts of a walk.

ghost use Rattle.std.specs.Prelude.{◌≡◌, List, [], ◌∷◌, ◌++◌, option_map};
ghost use Rattle.v_elab.specs.Parts as plain;
ghost use Rattle.v_elab.specs.Parts.{objects_of_part, nodes_of_part, processes_of_part, instances_of_part, too_many_parts};
ghost use Rattle.elab_parts.specs.PartViews.{part_of, parts_of};
ghost use Rattle.elab_connections.specs.NodeCounts.{CountsNodes};
ghost use Rattle.elab_walk.specs.WalkFaults.{over_most};
ghost use Rattle.elab_walk.specs.CountViews.{AreCounts};

use elab_parts::Part;
use v_elab::What;
use v_names::span;
use vf_base::MAX_OBJECTS;

/// How many objects, nodes, processes and instances some parts make. A count stays at the greatest number that it can hold.
#[derive(Clone, Copy)]
pub struct Counts {
    objects: u64,
    nodes: u64,
    processes: u64,
    instances: u64,
}

/// How many objects a part makes: a memory as many as it has words.
fn objects_of(part: &Part<'_>) -> u64
    ensures { result ≡ objects_of_part (part_of part.now) }
{
    match part {
        Part::Signal(signal) => { if signal.joined.is_some() { 0 } else { 1 } }
        Part::Memory(memory) => span(memory.first, memory.last),
        _ => 0,
    }
}

/// How many nodes a part makes.
fn nodes_of(part: &Part<'_>) -> u64
    ensures { result ≡ nodes_of_part (part_of part.now) }
{
    match part {
        Part::Assign { .. } => 1,
        Part::Gate { .. } => 1,
        _ => 0,
    }
}

/// How many processes a part makes: a block that by itself is of combinational form counts only after the walk.
fn processes_of(part: &Part<'_>) -> u64
    ensures { result ≡ processes_of_part (part_of part.now) }
{
    match part {
        Part::Process(process) => { if process.targets.is_some() { 0 } else { 1 } }
        _ => 0,
    }
}

/// How many instances a part makes.
fn instances_of(part: &Part<'_>) -> u64
    ensures { result ≡ instances_of_part (part_of part.now) }
{
    match part {
        Part::Instance => 1,
        _ => 0,
    }
}

impl Counts {
    /// The counts of no parts.
    pub fn new() -> Counts
        ensures { AreCounts [] result }
    {
        Counts {
            objects: 0,
            nodes: 0,
            processes: 0,
            instances: 0,
        }
    }

    /// Counts a part behind those before.
    pub fn add(&mut self, part: &Part<'_>)
        ensures { (before : List plain.Part) → AreCounts before self.old → AreCounts (before ++ part_of part.now ∷ []) self.new }
    {
        self.objects = self.objects.saturating_add(objects_of(part));
        self.nodes = self.nodes.saturating_add(nodes_of(part));
        self.processes = self.processes.saturating_add(processes_of(part));
        self.instances = self.instances.saturating_add(instances_of(part));
    }

    /// Counts some parts behind those before.
    pub fn add_all(&mut self, parts: &[Part<'_>])
        ensures { (before : List plain.Part) → AreCounts before self.old → AreCounts (before ++ parts_of parts.now) self.new }
    {
        'parts: for part in parts {
            self.add(part);
        }
    }

    /// Counts parts behind those before that are so many nodes and nothing else.
    pub fn add_nodes(&mut self, nodes: u64)
        ensures { (before more : List plain.Part) → AreCounts before self.old → CountsNodes more nodes → AreCounts (before ++ more) self.new }
    {
        self.nodes = self.nodes.saturating_add(nodes);
    }

    /// The first count that passes its limit, if one does.
    pub fn too_many(&self) -> Option<What>
        ensures { (parts : List plain.Part) → AreCounts parts self.now → too_many_parts parts ≡ option_map over_most result }
    {
        if self.objects > MAX_OBJECTS {
            Some(What::Objects)
        } else if self.nodes > MAX_OBJECTS {
            Some(What::Nodes)
        } else if self.processes > MAX_OBJECTS {
            Some(What::Processes)
        } else if self.instances > MAX_OBJECTS {
            Some(What::Instances)
        } else {
            None
        }
    }
}
