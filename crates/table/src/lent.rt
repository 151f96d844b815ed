// Placed stops that are lent.
#![tactic(auto)]

ghost use Rattle.color.specs.Lent.{Lent};

// Placed stops as two lent slices of numbers: the position of each, biased, and four values for each.
#[derive(Clone, Copy)]
pub struct LentStops<'a> {
    pub positions: &'a [u32],
    pub values: &'a [u32],
    ghost lent: { Lent positions.now values.now },
}
