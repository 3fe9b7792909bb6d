// The limits of designs, plans and runs.

/// The most bytes of a design.
pub const MAX_DESIGN_BYTES: u64 = 1_048_576;

/// The most bytes of a plan.
pub const MAX_PLAN_BYTES: u64 = 262_144;

/// The most bits of a vector.
pub const MAX_BITS: u8 = 128;

/// The greatest bound of a net, a variable or a parameter.
pub const MAX_BOUND: u32 = 65_536;

/// The greatest bound of a memory's addresses.
pub const MAX_ADDRESS: u32 = 1_048_575;

/// The greatest bound that is kept as it stands; a greater one is refused.
pub const MAX_KEPT_BOUND: u128 = 4_294_967_295;

/// The most levels of a statement or expression tree, parentheses counted.
pub const MAX_LEVELS: u32 = 256;

/// The most levels below the outermost one.
pub const MAX_LEVELS_BELOW: u32 = 255;

/// The greatest depth of an instance; the top stands at depth 0.
pub const MAX_DEPTH: u32 = 64;

/// The most modules one inside the other, the top counted.
pub const MAX_NESTED_MODULES: u8 = 65;

/// The most objects, nodes, processes and instances, each counted alone.
pub const MAX_OBJECTS: u64 = 65_536;

/// The most input objects of one node.
pub const MAX_INPUTS: u64 = 4_096;

/// The longest delay, in steps of simulation time.
pub const MAX_DELAY: u32 = 4_294_967_295;

/// The latest end of a plan, in steps of simulation time.
pub const MAX_END: u64 = 1_000_000_000_000;

/// The most strobe times of a plan.
pub const MAX_STROBES: u64 = 65_536;

/// The most faults of a plan.
pub const MAX_FAULTS: u64 = 65_536;

/// The most watched bits of a plan.
pub const MAX_WATCHED: u64 = 4_096;

/// The greatest size of a generated design.
pub const MAX_SOAK_SIZE: u32 = 4_000;

/// The most workers.
pub const MAX_WORKERS: u32 = 64;

/// The most process and lane steps of one slot.
pub const MAX_SLOT_STEPS: u32 = 100_000;

/// The representatives in a shard.
pub const SHARD_FAULTS: u32 = 32;

/// The most slots of a trace window.
pub const WINDOW_SLOTS: u32 = 64;

/// The steps after which a trace window ends.
pub const WINDOW_STEPS: u32 = 200_000;
