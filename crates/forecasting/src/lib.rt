// The forecast of a masked table's sizes, and the forecast program's line.
#![tactic(auto)]

ghost use Rattle.std.specs.Prelude.{◌≡◌, ◌≤◌, length};
ghost use Rattle.text.specs.Text.{Puts};
ghost use Rattle.construction.specs.Gadgets.{isw};
ghost use Rattle.construction.specs.Says.{ForecastSays};
ghost use Rattle.construction.specs.Told.{sizes_of};
ghost use Rattle.forecasting.specs.Figures.{told_line};
ghost use Rattle.forecasting.specs.Lines.{figures_line, forecast_line, LineSays};

use construction::Figures;
use tables::Refusal;

// Forecasts the sizes of the table that masking writes.
pub fn forecast_sizes(table: &[u8], order: u8) -> Result<Figures, Refusal>
    ensures { ForecastSays isw table.now order (sizes_of result) }
{
    let planned = planning::plan_table(table, order)?;
    let p = planned.plan;
    Ok(Figures {
        shares: p.shares as u32,
        wires: p.wires as u32,
        tape: p.tape as u32,
        bytes: planning::plan_bytes(p) as u32,
    })
}

// Puts the line of the four figures, and answers its length.
fn put_figures(out: &mut [u8], figures: Figures) -> usize
    requires { length (figures_line figures.shares figures.wires figures.tape figures.bytes) ≤ length out.old }
    ensures { Puts
        0
        (figures_line figures.shares figures.wires figures.tape figures.bytes)
        out.old
        out.new
        result }
{
    let second = text::put_number(out, 0, b"", figures.shares);
    let third = text::put_number(out, second, b" ", figures.wires);
    text::put_two(out, third, b" ", figures.tape, b" ", figures.bytes)
}

// Puts the line of a forecast, and answers its length.
fn put_line(out: &mut [u8], forecast: Result<Figures, Refusal>) -> usize
    requires { length (told_line forecast) ≤ length out.old }
    ensures { Puts 0 (told_line forecast) out.old out.new result }
{
    match forecast {
        Ok(figures) => put_figures(out, figures),
        Err(refusal) => text::put_refusal(out, u32::from(refusal.number()), refusal.place()),
    }
}

// The forecast of an input: an order byte, then a table.
#[tactic(auto, using(crate::proofs::Line::input_laws))]
fn input_forecast(input: &[u8]) -> Result<Figures, Refusal>
    ensures { told_line result ≡ forecast_line input.now }
{
    if input.len() > 65536 {
        return Err(Refusal::NoRoom);
    }
    match input.split_first() {
        None => forecast_sizes(input, 0),
        Some((order, table)) => forecast_sizes(table, *order),
    }
}

// Writes the forecast program's line for an input, and answers its length; where it does not fit, writes nothing and answers 0.
// A buffer with its length beside: nothing is allocated.
#[tactic(auto, using(crate::proofs::Line::line_fits))]
pub fn forecast_line(input: &[u8], out: &mut [u8]) -> usize
    ensures { LineSays input.now out.old out.new result }
{
    let mut line = [0u8; 64];
    let long = put_line(&mut line, input_forecast(input));
    text::put_all(out, &line[..long])
}
