// What gates of a masked table drive in one run, each value after those so far. `RunsTo` and `SharesBefore`, here and in the crates above,
// stay in the contracts: they relate a run, a wire and operands, and the wire is another at each call, so that no value's type keeps them.
#![tactic(auto)]

ghost use Rattle.std.specs.Prelude.{◌≡◌, [], ◌∷◌, ◌≤◌, ◌<◌};
ghost use Rattle.tables.specs.Tables.{NOT, XOR, AND, RANDOM, gate};
ghost use Rattle.tables.specs.Inside.{ran_on, RunsTo};
ghost use Rattle.layout.specs.Layout.{share_wires, pieces_from, xor_gates, constant_gates};
ghost use Rattle.map_values.specs.Driving.{SharesBefore};

// A random gate on wire w, with its bit.
#[tactic(auto, using(crate::proofs::Gates::random_ran))]
pub fn run_random(run: &mut [u8], w: usize, bit: u8)
    requires { RunsTo w 1 run.old }
    ensures { run.new ≡ ran_on (gate RANDOM 0 0 ∷ []) (bit ∷ []) w run.old }
{
    run[w] = bit;
}

// A NOT on wire w.
#[tactic(auto, using(crate::proofs::Gates::not_ran))]
pub fn run_not(run: &mut [u8], w: usize, left: usize)
    requires { RunsTo w 1 run.old × (left < w) }
    ensures { run.new ≡ ran_on (gate NOT left 0 ∷ []) [] w run.old }
{
    run[w] = 1 - run[left];
}

// Two NOTs, on wires w and w + 1.
pub fn run_nots(run: &mut [u8], w: usize, left: usize, right: usize)
    requires { RunsTo w 2 run.old × (left < w) × (right < w) }
    ensures { run.new ≡ ran_on (gate NOT left 0 ∷ gate NOT right 0 ∷ []) [] w run.old }
{
    run_not(run, w, left);
    run_not(run, w + 1, right);
}

// An XOR on wire w.
#[tactic(auto, using(crate::proofs::Gates::xor_ran))]
pub fn run_xor(run: &mut [u8], w: usize, left: usize, right: usize)
    requires { RunsTo w 1 run.old × (left < w) × (right < w) }
    ensures { run.new ≡ ran_on (gate XOR left right ∷ []) [] w run.old }
{
    run[w] = run[left] ^ run[right];
}

// An AND on wire w.
#[tactic(auto, using(crate::proofs::Gates::and_ran))]
pub fn run_and(run: &mut [u8], w: usize, left: usize, right: usize)
    requires { RunsTo w 1 run.old × (left < w) × (right < w) }
    ensures { run.new ≡ ran_on (gate AND left right ∷ []) [] w run.old }
{
    run[w] = run[left] & run[right];
}

// An XOR share by share, from wire w on.
pub fn run_xors(run: &mut [u8], w: usize, n: usize, operands: layout::Operands)
    requires { SharesBefore n w operands.left operands.right × RunsTo w n run.old }
    ensures { run.new
        ≡ ran_on (pieces_from n 0 (xor_gates (share_wires n operands.left) (share_wires n operands.right))) [] w run.old }
{
    for s in 0..n {
        let left = layout::share_wire(operands.left, s);
        let right = layout::share_wire(operands.right, s);
        run_xor(run, w + s, left, right);
    }
}

// A constant's shares, from wire w on: its value, then zeros.
pub fn run_constants(run: &mut [u8], w: usize, n: usize, value: u8)
    requires { RunsTo w n run.old × (value ≤ 1) }
    ensures { run.new ≡ ran_on (pieces_from n 0 (constant_gates value)) [] w run.old }
{
    for s in 0..n {
        let bit = if s == 0 { value } else { 0 };
        run[w + s] = bit;
    }
}
