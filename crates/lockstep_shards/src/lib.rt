//! A fault of a shard from slot to slot in lockstep with the good machine (strobes by the plan; slots by IEEE 1364-2001, clause 5).
//!
//! Between two slots a fault of a shard whose copy keeps no process's state, and updates that are due at the times of the good ones, is in lockstep with the good machine.
//! As long as it stays so, a strobe sees the good machine's values with the copy's over them, so its grading goes on from strobe to strobe without a run of the faulty
//! machine; behind a slot through which both machines went in lockstep, or over which the copy was passed, it stands again as a fault of a shard does, or what a strobe
//! found is its grade. `shards_go_in_lockstep` does nothing when it runs; its contract is the law.
#![tactic(auto)]

ghost use Rattle.lockstep_shards.specs.Shards.{ShardsGoInLockstep};

pub use copy_pass::{
    Machine, ShardFault, WindowStrobes, begin_fault, empty_log, good_bits, is_unseen, keeps_value,
    new_fault, new_room, next_touched, pass_over, resume_fault, runs_take_steps, searches_begin,
    strobes_after, strobes_of,
};
pub use lockstep_copies::copies_go_in_lockstep;

/// A fault of a shard from slot to slot.
pub fn shards_go_in_lockstep()
    ensures { ShardsGoInLockstep }
{
    beside_laws::faults_go_on();
    beside_laws::good_run_goes_on();
    beside_laws::runs_go_on();
    beside_laws::runs_stand();
    between_slots::updates_pend();
    copy_laws::own_runs();
    fault_strobes::strobed_faults_go_on();
    fault_strobes::strobed_gradings_end();
    fault_strobes::strobed_gradings_go_on();
    lockstep_copies::copies_go_in_lockstep();
    quiet_index::copies_pass_over();
    quiet_slots::strobes_see();
    copy_pass::states_stand();
}
