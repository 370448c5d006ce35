// The mapped tape and both runs, with an array of the size that a table needs, in which it is noted where shares are. The buffers are
// lent one by one, as in `map_pair`.
#![tactic(auto)]

ghost use Rattle.std.specs.Prelude.{◌+◌, ◌≤◌};
ghost use Rattle.construction.specs.Gadgets.{gadget_of};
ghost use Rattle.map_runs.specs.Working.{WorkReady, WorkSays};

// Maps with a table of at most N wires. As in masking it is not inlined, so that a call reserves the stack of its own array alone.
#[inline(never)]
fn map_sized<const N: usize>(
    and: construction::And,
    planned: &planning::Planned,
    k: usize,
    given: &secrecy::Given,
    mapped: &mut [u8],
    one: &mut [u8],
    other: &mut [u8],
)
    requires { WorkReady planned.now.plan k given.now.first.now given.now.second.now given.now.tape.now
        mapped.old one.old other.old
        × (planned.now.plan.inputs + planned.now.plan.gates ≤ N) × (N ≤ 65536) }
    ensures { WorkSays (gadget_of and) planned.now.table.now planned.now.plan.order k
        given.now.first.now given.now.second.now given.now.tape.now
        mapped.old mapped.new one.old one.new other.old other.new }
{
    let none = share_places::KeptPlaces {
        head: 0,
        base: 0,
        step: 0,
    };
    let mut places = [none; N];
    map_runs::map_with(and, planned, k, given, &mut places, mapped, one, other);
}

// The mapped tape and both runs, where nothing is refused; k is the free share. A table has the smallest of four arrays that has room
// for its wires.
pub fn map_work(
    and: construction::And,
    planned: &planning::Planned,
    k: usize,
    given: &secrecy::Given,
    mapped: &mut [u8],
    one: &mut [u8],
    other: &mut [u8],
)
    requires { WorkReady planned.now.plan k given.now.first.now given.now.second.now given.now.tape.now
        mapped.old one.old other.old }
    ensures { WorkSays (gadget_of and) planned.now.table.now planned.now.plan.order k
        given.now.first.now given.now.second.now given.now.tape.now
        mapped.old mapped.new one.old one.new other.old other.new }
{
    let wires = share_places::plain_wires(planned);
    if wires <= 256 {
        map_sized::<256>(and, planned, k, given, mapped, one, other);
    } else if wires <= 2048 {
        map_sized::<2048>(and, planned, k, given, mapped, one, other);
    } else if wires <= 16384 {
        map_sized::<16384>(and, planned, k, given, mapped, one, other);
    } else {
        map_sized::<65536>(and, planned, k, given, mapped, one, other);
    }
}
