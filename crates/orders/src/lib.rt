// The orders that there are.
#![tactic(auto)]

ghost use Rattle.tables.specs.Inside.{Refused};
ghost use Rattle.construction.specs.Says.{order_fault};

// The refusal of an order that is not 1 to 15.
pub fn order_fault(order: u8) -> Result<(), tables::Refusal>
    ensures { Refused (order_fault order) result }
{
    match order {
        1..=15 => Ok(()),
        _ => Err(tables::Refusal::Order),
    }
}
