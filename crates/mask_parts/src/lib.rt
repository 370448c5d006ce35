// The parts of a masked table, in bytes: sizes, kinds, operands, outputs.
#![tactic(auto)]

ghost use Rattle.std.specs.Prelude.{◌≡◌, ◌++◌, ◌+◌, ◌*◌, ◌≤◌, ◌<◌, length};
ghost use Rattle.tables.specs.Tables.{two, table_of, total, word_bytes};
ghost use Rattle.tables.specs.Says.{over};
ghost use Rattle.tables.specs.Inside.{put_at};
ghost use Rattle.construction.specs.Gadgets.{gadget_of};
ghost use Rattle.construction.specs.Wires.{cost, masked, output_shares};
ghost use Rattle.layout.specs.Layout.{share_wires, LowShares, operand_bytes};
ghost use Rattle.mask_kinds.specs.Kinds.{gate_kinds};
ghost use Rattle.share_places.specs.Located.{Located, shares_to, all_shares, gate_wire};
ghost use Rattle.mask_parts.specs.Stretch.{stretch};

use tables::Kind;

// Writes the kinds of the masked gates of the plain gates from..to: those of XOR gates everywhere, then what is none.
pub fn write_kinds(planned: &planning::Planned, from: usize, to: usize, kinds: &mut [u8])
    requires { (from ≤ to) × (to ≤ planned.now.plan.gates)
        × (total (λ k. cost k planned.now.plan.shares) (stretch (table_of planned.now.table.now) from to) ≡ length kinds.old) }
    ensures { kinds.new ≡ gate_kinds planned.now.plan.shares (stretch (table_of planned.now.table.now) from to) }
{
    let n = planned.plan.shares;
    let costs = gate_costs::GateCosts::new(n);
    kinds.fill(Kind::Xor as u8);
    let mut at = 0;
    for g in from..to {
        let gate = share_places::plain_gate(planned, g);
        mask_kinds::write_kinds_of(gate.kind, n, kinds, at);
        at += costs.of(gate.kind);
    }
}

// Writes the operands of the masked gates of the plain gates from..to, the first of which begins at wire w.
pub fn write_operands(
    and: construction::And,
    planned: &planning::Planned,
    from: usize,
    to: usize,
    w: usize,
    places: &[share_places::KeptPlaces],
    ops: &mut [u8],
)
    requires { Located (table_of planned.now.table.now) planned.now.plan.shares places.now
        × (from ≤ to) × (to ≤ planned.now.plan.gates) × (w ≡ gate_wire planned.now.plan.shares (table_of planned.now.table.now) from)
        × (4 * total (λ k. cost k planned.now.plan.shares) (stretch (table_of planned.now.table.now) from to) ≤ length ops.old) }
    ensures { ops.new ≡ over (operand_bytes (masked (gadget_of and) planned.now.plan.shares from w
        (shares_to planned.now.plan.shares (table_of planned.now.table.now) from)
        (stretch (table_of planned.now.table.now) from to))) ops.old }
{
    let n = planned.plan.shares;
    let costs = gate_costs::GateCosts::new(n);
    let mut next = w;
    let mut at = 0;
    for g in from..to {
        let gate = share_places::plain_gate(planned, g);
        mask_operands::write_operands_of(
            and, gate.kind, gate.left, gate.right, n, next, places, ops, at,
        );
        let new = costs.of(gate.kind);
        next += new;
        at += 4 * new;
    }
}

// Writes the wires of n shares, a field each.
fn write_shares(a: layout::Places, n: usize, outs: &mut [u8], at: usize)
    requires { (1 ≤ n) × (n ≤ 31) × LowShares n a × (at + 2 * n ≤ length outs.old) }
    ensures { outs.new ≡ put_at at (word_bytes (share_wires n a)) outs.old }
{
    for i in 0..n {
        fields::put_field(outs, at + 2 * i, layout::share_wire(a, i));
    }
}

// Writes the outputs: for each of the plain table's, the wires of its n shares.
pub fn write_outputs(
    planned: &planning::Planned,
    places: &[share_places::KeptPlaces],
    outs: &mut [u8],
)
    requires { Located (table_of planned.now.table.now) planned.now.plan.shares places.now
        × (2 * (planned.now.plan.shares * planned.now.plan.outputs) ≤ length outs.old) }
    ensures { outs.new ≡ over (word_bytes (output_shares (all_shares planned.now.plan.shares (table_of planned.now.table.now))
        (table_of planned.now.table.now).outputs)) outs.old }
{
    let n = planned.plan.shares;
    let outputs = fields::Outputs {
        table: planned.table,
        gates: planned.plan.gates,
        count: planned.plan.outputs,
    };
    let mut at = 0;
    for o in 0..planned.plan.outputs {
        let a = share_places::places_at(places, outputs.at(o));
        write_shares(a, n, outs, at);
        at += 2 * n;
    }
}

// Writes the six bytes of sizes.
pub fn put_sizes(out: &mut [u8], inputs: usize, gates: usize, outputs: usize)
    requires { (6 ≤ length out.old) × (inputs < 65536) × (gates < 65536) × (outputs < 65536) }
    ensures { out.new ≡ put_at 0 (two inputs ++ (two gates ++ two outputs)) out.old }
{
    fields::put_field(out, 0, inputs);
    fields::put_field(out, 2, gates);
    fields::put_field(out, 4, outputs);
}
