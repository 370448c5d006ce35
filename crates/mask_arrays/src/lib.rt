// Masking with an array of the size that a table needs, in which it is noted where shares are.
#![tactic(auto)]

ghost use Rattle.std.specs.Prelude.{◌≡◌, ◌+◌, ◌≤◌, length};
ghost use Rattle.tables.specs.Tables.{table_of, table_bytes};
ghost use Rattle.tables.specs.Says.{over};
ghost use Rattle.construction.specs.Gadgets.{gadget_of};
ghost use Rattle.construction.specs.Wires.{masked_table};
ghost use Rattle.planning.specs.Plans.{plan_bytes};

// Masks a table of at most N wires. It is not inlined, so that a call reserves the stack of the array that it needs, and no other's.
#[inline(never)]
fn mask_sized<const N: usize>(and: construction::And, planned: &planning::Planned, out: &mut [u8])
    requires { (planned.now.plan.inputs + planned.now.plan.gates ≤ N) × (N ≤ 65536) × (plan_bytes planned.now.plan ≤ length out.old) }
    ensures { out.new
        ≡ over (table_bytes (masked_table (gadget_of and) planned.now.plan.order (table_of planned.now.table.now))) out.old }
{
    let none = share_places::KeptPlaces {
        head: 0,
        base: 0,
        step: 0,
    };
    let mut places = [none; N];
    mask_bytes::mask_with(and, planned, &mut places, out);
}

// Writes the masked table of a plan into a buffer that has room for it. To clear a large array, and to reserve its stack, takes time:
// a table has the smallest of four that has room for its wires.
pub fn mask_into(and: construction::And, planned: &planning::Planned, out: &mut [u8])
    requires { plan_bytes planned.now.plan ≤ length out.old }
    ensures { out.new
        ≡ over (table_bytes (masked_table (gadget_of and) planned.now.plan.order (table_of planned.now.table.now))) out.old }
{
    let wires = share_places::plain_wires(planned);
    if wires <= 256 {
        mask_sized::<256>(and, planned, out);
    } else if wires <= 2048 {
        mask_sized::<2048>(and, planned, out);
    } else if wires <= 16384 {
        mask_sized::<16384>(and, planned, out);
    } else {
        mask_sized::<65536>(and, planned, out);
    }
}
