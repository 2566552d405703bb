// What the bytes at hand say of a value.
ghost use Rattle.std.specs.Prelude.{◌≡◌, ◌≤◌};
ghost use Rattle.value.specs.Shapes.{need, prefix};
ghost use Rattle.value.specs.Inner.Shapes.{Sized};
ghost use Rattle.blocks.specs.Inner.Hands.{turn_by};

use temporal::temporal_size;
use value::Shape;

// Three things to say, of which two have a size, so no Option.
#[derive(Clone, Copy)]
pub(crate) enum Turn {
    Wait,
    Long(usize),
    Whole(usize),
}

// How many bytes tell the length of a value.
#[tactic(auto, using(crate::proofs::Hands::no_prefix), unfolding(value::specs::Shapes::prefix))]
pub(crate) fn prefix_of(shape: Shape) -> usize
    ensures { result ≡ prefix shape }
{
    match shape {
        Shape::Counted(k) => k,
        _ => 0,
    }
}

// How many bytes the value takes that begins with `head`; its length bytes are among these eight. `value` has such a table of widths for its
// readers: lent, it would be a public function with a statement and an edit of its own, for these lines.
#[tactic(auto, unfolding(value::specs::Shapes::need))]
pub(crate) fn need_of(shape: Shape, head: &[u8]) -> usize
    requires { Sized shape }
    ensures { result ≡ need shape head.now }
{
    match shape {
        Shape::Unsigned(k) | Shape::Signed(k) | Shape::Fixed(k) => k,
        Shape::FloatBits => 4,
        Shape::DoubleBits => 8,
        Shape::YearByte => 1,
        Shape::Timed(kind) => temporal_size(kind),
        Shape::Counted(k) => counted_need(k, head),
        Shape::NotTaken(_) => 0,
    }
}

// At most four bytes tell a length, so `as` loses nothing; a TryFrom would need an answer for what cannot be.
#[tactic(auto, using(crate::proofs::Hands::count_is))]
fn counted_need(k: usize, head: &[u8]) -> usize
    requires { k ≤ 4 }
    ensures { result ≡ need (Shape.Counted k) head.now }
{
    k + wire::read_le(head, 0, k) as usize
}

// `len` bytes are at hand, the first eight of them in `head`, and the carry has room for `room`.
#[tactic(auto, using(wire::proofs::Rules::tests, value::proofs::Appends::prefix_within), unfolding(crate::specs::Inner::Hands::turn_by))]
pub(crate) fn turn_of(shape: Shape, head: &[u8], len: usize, room: usize) -> Turn
    requires { Sized shape }
    ensures { result ≡ turn_by room (prefix shape) len (need shape head.now) }
{
    let told = prefix_of(shape);
    let size = need_of(shape, head);
    if told <= len && room < size {
        return Turn::Long(size - told);
    }
    if len < size {
        return Turn::Wait;
    }
    Turn::Whole(size)
}
