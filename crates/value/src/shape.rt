// How a column's values are stored.
ghost use Rattle.std.specs.Prelude.{◌≡◌, []};
ghost use Rattle.value.specs.Shapes.{need, most_of};
ghost use Rattle.value.specs.Inner.Shapes.{Sized, sized_prop};

use temporal::Storage;
use wire::top_of;

#[derive(Clone, Copy, Debug, PartialEq, Eq)]
pub enum Shape {
    // A number of so many bytes, the least significant first.
    Unsigned(usize),
    Signed(usize),
    // The bits of a float or a double.
    FloatBits,
    DoubleBits,
    // One byte: 0 for the year 0000, else the year less 1900.
    YearByte,
    Timed(Storage),
    // Just so many bytes.
    Fixed(usize),
    // A length of so many bytes, and then the bytes.
    Counted(usize),
    // No column's: the refusal number. A shape is no Result, since the definitions `shape_of` and `is_taken` have a case for it, and a plan
    // may hold an op that is no shape's.
    NotTaken(u8),
}

// A shape whose width is one that there is, as the shape of every column and of every op has it.
#[derive(Clone, Copy)]
pub(crate) struct Layout {
    pub(crate) shape: Shape,
    ghost sized: { Sized shape } by { sized_prop shape },
}

// How many bytes a value takes, without those that a length of its own counts.
#[tactic(auto, using(wire::proofs::Rules::tests), unfolding(crate::specs::Shapes::need))]
pub(crate) fn width_of(shape: Shape) -> usize
    ensures { result ≡ need shape [] }
{
    match shape {
        Shape::Unsigned(k) | Shape::Signed(k) | Shape::Fixed(k) | Shape::Counted(k) => k,
        Shape::FloatBits => 4,
        Shape::DoubleBits => 8,
        Shape::YearByte => 1,
        Shape::Timed(storage) => temporal::temporal_size(storage),
        Shape::NotTaken(_) => 0,
    }
}

impl Layout {
    // How many bytes a value takes at most: behind a length, as many as it can count.
    #[tactic(auto, using(wire::proofs::Rules::tests), unfolding(crate::specs::Shapes::need, crate::specs::Shapes::most_of))]
    pub(crate) fn most(self) -> u64
        ensures { result ≡ most_of self.shape }
    {
        match self.shape {
            Shape::Counted(k) => k as u64 + top_of(k),
            shape => width_of(shape) as u64,
        }
    }
}
