// The calls for C and Rust programs, under the names of include/masks.h. Each is the proved call with the same promise; and the version.
#![tactic(auto)]

ghost use Rattle.std.specs.Prelude.{◌≡◌};
ghost use Rattle.tables.specs.Says.{CheckSays, RunSays};
ghost use Rattle.construction.specs.Gadgets.{isw, dom};
ghost use Rattle.construction.specs.Wires.{probe_marks};
ghost use Rattle.construction.specs.Says.{ForecastSays, MaskSays, EncodeSays, DecodeSays, MarksSay};
ghost use Rattle.secrecy.specs.Says.{MapSays};
ghost use Rattle.masks_c.specs.Version.{version};

use construction::And;
use secrecy::Given;

// The version of include/masks.h, 0.6.0, as one number.
const VERSION: u32 = 6000;

#[unsafe(no_mangle)]
pub extern "C" fn masks_version() -> u32
    ensures { result ≡ version }
{
    VERSION
}

#[unsafe(no_mangle)]
pub extern "C" fn masks_check(table: &[u8]) -> tables::Answer
    ensures { CheckSays table.now result }
{
    tables::Answer::from(checking::check_table(table))
}

#[unsafe(no_mangle)]
pub extern "C" fn masks_forecast(table: &[u8], order: u8) -> construction::Sizes
    ensures { ForecastSays isw table.now order result }
{
    construction::Sizes::from(forecasting::forecast_sizes(table, order))
}

#[unsafe(no_mangle)]
pub extern "C" fn masks_mask(table: &[u8], order: u8, out: &mut [u8]) -> tables::Answer
    ensures { MaskSays isw table.now order out.old out.new result }
{
    tables::Answer::from(masking::mask_table(And::Isw, table, order, out))
}

#[unsafe(no_mangle)]
pub extern "C" fn masks_encode(
    order: u8,
    secrets: &[u8],
    tape: &[u8],
    out: &mut [u8],
) -> tables::Answer
    ensures { EncodeSays order secrets.now tape.now out.old out.new result }
{
    tables::Answer::from(encoding::encode_secrets(order, secrets, tape, out))
}

#[unsafe(no_mangle)]
pub extern "C" fn masks_decode(order: u8, shares: &[u8], out: &mut [u8]) -> tables::Answer
    ensures { DecodeSays order shares.now out.old out.new result }
{
    tables::Answer::from(decoding::decode_shares(order, shares, out))
}

#[unsafe(no_mangle)]
pub extern "C" fn masks_run(
    table: &[u8],
    inputs: &[u8],
    random: &[u8],
    values: &mut [u8],
    outputs: &mut [u8],
) -> tables::Answer
    ensures { RunSays table.now inputs.now random.now
        values.old
        values.new
        outputs.old
        outputs.new
        result }
{
    tables::Answer::from(running::run_table(table, inputs, random, values, outputs))
}

#[unsafe(no_mangle)]
pub extern "C" fn masks_marks_of(table: &[u8], order: u8, wire: u32) -> construction::Marks
    ensures { MarksSay isw (probe_marks isw) table.now order wire result }
{
    construction::Marks::from(origins::wire_marks(And::Isw, table, order, wire))
}

#[unsafe(no_mangle)]
pub extern "C" fn masks_map(
    table: &[u8],
    order: u8,
    first: &[u8],
    second: &[u8],
    tape: &[u8],
    probes: &[u32],
    mapped: &mut [u8],
    one: &mut [u8],
    other: &mut [u8],
) -> tables::Answer
    ensures { MapSays isw (probe_marks isw) table.now order
        first.now
        second.now
        tape.now
        probes.now
        mapped.old
        mapped.new
        one.old
        one.new
        other.old
        other.new
        result }
{
    let given = Given {
        first,
        second,
        tape,
        probes,
    };
    tables::Answer::from(mapping::map_tape(And::Isw, table, order, &given, mapped, one, other))
}

// The calls from here on are those above with the other AND: one call for each of them is what include/masks.h has.
#[unsafe(no_mangle)]
pub extern "C" fn masks_mask_dom(table: &[u8], order: u8, out: &mut [u8]) -> tables::Answer
    ensures { MaskSays dom table.now order out.old out.new result }
{
    tables::Answer::from(masking::mask_table(And::Dom, table, order, out))
}

#[unsafe(no_mangle)]
pub extern "C" fn masks_marks_of_dom(table: &[u8], order: u8, wire: u32) -> construction::Marks
    ensures { MarksSay dom (probe_marks dom) table.now order wire result }
{
    construction::Marks::from(origins::wire_marks(And::Dom, table, order, wire))
}

#[unsafe(no_mangle)]
pub extern "C" fn masks_map_dom(
    table: &[u8],
    order: u8,
    first: &[u8],
    second: &[u8],
    tape: &[u8],
    probes: &[u32],
    mapped: &mut [u8],
    one: &mut [u8],
    other: &mut [u8],
) -> tables::Answer
    ensures { MapSays dom (probe_marks dom) table.now order
        first.now
        second.now
        tape.now
        probes.now
        mapped.old
        mapped.new
        one.old
        one.new
        other.old
        other.new
        result }
{
    let given = Given {
        first,
        second,
        tape,
        probes,
    };
    tables::Answer::from(mapping::map_tape(And::Dom, table, order, &given, mapped, one, other))
}
