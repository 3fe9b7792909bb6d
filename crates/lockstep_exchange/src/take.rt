// What is kept of the faulty machine is taken out of its state, which becomes the good machine's.

ghost use Rattle.std.specs.Prelude.{◌≡◌, map, None};
ghost use Rattle.copy_laws.specs.Differences.{Ascend};
ghost use Rattle.copy_state.specs.Listed.{entry_of};
ghost use Rattle.block_events.specs.Runners.{IsWhole, machine_of, state_of};
ghost use Rattle.lockstep_exchange.specs.Putting.{ShownFits, ValuesArePut, values_restored};
ghost use Rattle.lockstep_exchange.specs.Exchange.{MayTakeOut};

use crate::shown::ShownState;
use block_events::Runner;
use copy_state::Entry;
use four_value::Vec4;
use lockstep_copy::LockstepCopy;
use vf_base::ObjectId;

/// Each object of which a value is listed comes to hold what is shown.
fn restore_listed<S: ShownState>(runner: &mut Runner, good: &S, listed: &[Entry<Vec4>])
    requires whole { IsWhole runner.old }
    requires fits { ShownFits (machine_of runner.old).design (S.shows good.now) (state_of runner.old) (map entry_of listed.now) }
    requires ascend { Ascend (map entry_of listed.now) }
    ensures machine { machine_of runner.new ≡ machine_of runner.old }
    ensures state { (of : ShownFits (machine_of runner.old).design (S.shows good.now) (state_of runner.old) (map entry_of listed.now)) →
        ValuesArePut (values_restored (map entry_of listed.now) of.good) (state_of runner.old) (state_of runner.new) }
    ensures whole { IsWhole runner.new }
{
    'objects: for own in listed {
        let object = ObjectId(own.number);
        runner.put_value(object, good.value(object));
    }
}

/// Each object of which a value is kept comes to hold what is shown, as one after the other is found.
fn restore_found<S: ShownState>(runner: &mut Runner, good: &S, own: &LockstepCopy)
    requires whole { IsWhole runner.old }
    requires fits { ShownFits (machine_of runner.old).design (S.shows good.now) (state_of runner.old) own.now.copy.values }
    ensures machine { machine_of runner.new ≡ machine_of runner.old }
    ensures state { (of : ShownFits (machine_of runner.old).design (S.shows good.now) (state_of runner.old) own.now.copy.values) →
        ValuesArePut (values_restored own.now.copy.values of.good) (state_of runner.old) (state_of runner.new) }
    ensures whole { IsWhole runner.new }
{
    own.copy.ascending();
    let mut next = own.copy.next_held(ObjectId(0), 0);
    'objects: while let Some(held) = next {
        runner.put_value(held.object, good.value(held.object));
        next = own.copy.next_held(ObjectId(held.object.0 + 1), held.hint);
    }
}

/// Each object of which a value is kept comes to hold what is shown.
fn restore_values<S: ShownState>(runner: &mut Runner, good: &S, own: &LockstepCopy)
    requires whole { IsWhole runner.old }
    requires fits { ShownFits (machine_of runner.old).design (S.shows good.now) (state_of runner.old) own.now.copy.values }
    ensures machine { machine_of runner.new ≡ machine_of runner.old }
    ensures state { (of : ShownFits (machine_of runner.old).design (S.shows good.now) (state_of runner.old) own.now.copy.values) →
        ValuesArePut (values_restored own.now.copy.values of.good) (state_of runner.old) (state_of runner.new) }
    ensures whole { IsWhole runner.new }
{
    own.copy.ascending();
    match own.copy.listed() {
        Some(listed) => restore_listed(runner, good, listed),
        None => restore_found(runner, good, own),
    }
}

/// A runner that is the faulty machine, in a state that is a good one but for the objects of which a value is kept, becomes the good machine in the good state.
pub fn take_out<S: ShownState>(runner: &mut Runner, good: &S, own: &LockstepCopy)
    requires whole { IsWhole runner.old }
    requires taken { MayTakeOut (machine_of runner.old).design (S.shows good.now) own.now (state_of runner.old) }
    ensures machine { machine_of runner.new ≡ record (machine_of runner.old) { fault = None } }
    ensures state { (of : MayTakeOut (machine_of runner.old).design (S.shows good.now) own.now (state_of runner.old)) → state_of runner.new ≡ of.good }
    ensures whole { IsWhole runner.new }
{
    block_changes::differences_are_one();
    restore_values(runner, good, own);
    runner.set_fault(None);
}
