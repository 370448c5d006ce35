// The free share of the probes of a mapping call.
#![tactic(auto)]

ghost use Rattle.std.specs.Prelude.{◌≡◌, ℕ, ◌≤◌, true, List};
ghost use Rattle.tables.specs.Tables.{table_of};
ghost use Rattle.construction.specs.Gadgets.{gadget_of};
ghost use Rattle.construction.specs.Wires.{probe_marks};
ghost use Rattle.secrecy.specs.Maps.{carried, free_from, free_share};
ghost use Rattle.secrecy.specs.Claims.{all_below};
ghost use Rattle.probes.specs.Seeing.{Seen};

// The smallest number from 1 to n that is not seen, else n + 1.
fn free_of(seen: &[bool; 256], n: usize) -> usize
    requires { n ≤ 31 }
    ensures { (cs : List ℕ) → Seen cs seen.now → result ≡ free_from n 1 cs }
{
    seen[1..n + 1]
        .iter()
        .position(|carried| !*carried)
        .unwrap_or(n)
        + 1
}

// The share numbers that the probes carry.
fn mark_probes(and: construction::And, planned: &planning::Planned, probes: &[u32]) -> [bool; 256]
    requires { all_below planned.now.plan.wires probes.now ≡ true }
    ensures { Seen
        (carried (probe_marks (gadget_of and)) planned.now.plan.order (table_of planned.now.table.now) probes.now)
        result }
{
    let mut seen = [false; 256];
    for probe in probes {
        let carried = origins::marks_at(and, planned, *probe as usize);
        let second = carried.second.unwrap_or(carried.first);
        seen[carried.first as usize] = true;
        seen[second as usize] = true;
    }
    seen
}

// The smallest share number that no probe carries.
pub fn free_share(and: construction::And, planned: &planning::Planned, probes: &[u32]) -> usize
    requires { all_below planned.now.plan.wires probes.now ≡ true }
    ensures { result
        ≡ free_share (probe_marks (gadget_of and)) planned.now.plan.order
        (table_of planned.now.table.now)
        probes.now }
{
    free_of(&mark_probes(and, planned, probes), planned.plan.shares)
}
