// Lent stops that are repeated.
#![tactic(auto)]

ghost use Rattle.repeats.specs.Repeats.{Periodic};

use table::LentStops;

// Lent stops that are repeated: from the first position to the last is a period, above 0.
#[derive(Clone, Copy)]
pub struct RepeatedStops<'a> {
    pub stops: LentStops<'a>,
    ghost periodic: { Periodic stops.positions.now stops.values.now },
}
