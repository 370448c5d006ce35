// The masked table of a plan, in bytes.
#![tactic(auto)]

ghost use Rattle.std.specs.Prelude.{◌≡◌, ◌+◌, ◌≤◌, length};
ghost use Rattle.tables.specs.Tables.{table_of, table_bytes};
ghost use Rattle.tables.specs.Says.{over};
ghost use Rattle.tables.specs.Inside.{put_at};
ghost use Rattle.construction.specs.Gadgets.{gadget_of};
ghost use Rattle.construction.specs.Wires.{masked_table};
ghost use Rattle.planning.specs.Plans.{plan_bytes};
ghost use Rattle.share_places.specs.Located.{Room, Located};
ghost use Rattle.mask_bytes.specs.AfterSizes.{after_sizes};

// Writes what follows the sizes: lends the kinds part, then the operands part, then the outputs part of the buffer to the
// function that writes it.
fn mask_gates(
    and: construction::And,
    planned: &planning::Planned,
    places: &[share_places::KeptPlaces],
    out: &mut [u8],
)
    requires { Located (table_of planned.now.table.now) planned.now.plan.shares places.now
        × (plan_bytes planned.now.plan ≤ length out.old) }
    ensures { out.new
        ≡ put_at 6 (after_sizes (masked_table (gadget_of and) planned.now.plan.order (table_of planned.now.table.now))) out.old }
{
    let gates = planned.plan.gates;
    let w = planned.plan.shares * planned.plan.inputs;
    let g = planned.plan.wires - w;
    mask_parts::write_kinds(planned, 0, gates, &mut out[6..6 + g]);
    mask_parts::write_operands(
        and,
        planned,
        0,
        gates,
        w,
        places,
        &mut out[6 + g..6 + 5 * g],
    );
    mask_parts::write_outputs(planned, places, &mut out[6 + 5 * g..]);
}

// Writes the masked table of a plan; the array is lent to note where shares are.
pub fn mask_with(
    and: construction::And,
    planned: &planning::Planned,
    places: &mut [share_places::KeptPlaces],
    out: &mut [u8],
)
    requires { Room (planned.now.plan.inputs + planned.now.plan.gates) places.old
        × (plan_bytes planned.now.plan ≤ length out.old) }
    ensures { out.new
        ≡ over (table_bytes (masked_table (gadget_of and) planned.now.plan.order (table_of planned.now.table.now))) out.old }
{
    let p = planned.plan;
    share_places::locate(planned, places);
    let inputs = p.shares * p.inputs;
    mask_parts::put_sizes(out, inputs, p.wires - inputs, p.shares * p.outputs);
    mask_gates(and, planned, places, out);
}
