// The mapped tape and both runs, where mapping is not refused and the free share is known. The buffers are lent one by one, as in
// `map_pair`.
#![tactic(auto)]

ghost use Rattle.std.specs.Prelude.{◌+◌};
ghost use Rattle.construction.specs.Gadgets.{gadget_of};
ghost use Rattle.share_places.specs.Located.{Room};
ghost use Rattle.map_runs.specs.Working.{WorkReady, WorkSays};

// Maps with an array that is lent to note where shares are; k is the free share.
pub fn map_with(
    and: construction::And,
    planned: &planning::Planned,
    k: usize,
    given: &secrecy::Given,
    places: &mut [share_places::KeptPlaces],
    mapped: &mut [u8],
    one: &mut [u8],
    other: &mut [u8],
)
    requires { WorkReady planned.now.plan k given.now.first.now given.now.second.now given.now.tape.now
        mapped.old one.old other.old
        × Room (planned.now.plan.inputs + planned.now.plan.gates) places.old }
    ensures { WorkSays (gadget_of and) planned.now.table.now planned.now.plan.order k
        given.now.first.now given.now.second.now given.now.tape.now
        mapped.old mapped.new one.old one.new other.old other.new }
{
    let order = planned.plan.order;
    let split = 2 * order * planned.plan.inputs;
    share_places::locate(planned, places);
    map_inputs::begin_runs(order, k, given, mapped, one, other);
    map_gates::map_gates(
        and, planned, k, places, given.tape, split, mapped, one, other,
    );
}
