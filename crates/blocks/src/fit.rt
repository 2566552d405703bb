// Whether a state is fit.
ghost use Rattle.std.specs.Prelude.{◌≡◌, ◌-◌, ◌≤◌, length, take, drop, leb};
ghost use Rattle.image.specs.Room.{image_room};
ghost use Rattle.blocks.specs.declared.state.Phase.TheVariants.{Open, Long};
ghost use Rattle.blocks.specs.Turns.{turn_of};
ghost use Rattle.blocks.specs.Fits.{fits_in, is_counted, is_fit};
ghost use Rattle.blocks.specs.Inner.Hands.{held_shape};

use crate::hand::Hand;
use crate::lent::{Lent, Seat};
use crate::state::{Arriving, Phase};
use crate::turn::{Turn, prefix_of, turn_of};
use value::Shape;

#[tactic(auto, using(crate::proofs::Counts::counted), unfolding(crate::specs::Fits::is_fit, crate::specs::Fits::fits_in))]
pub(crate) fn is_fit<'a>(lent: Lent<'a>, carry: &'a [u8], at: Arriving) -> bool
    ensures { let l = lent.entry in result ≡ is_fit l.profile.now l.presence.now l.head.columns l.head.nulls at carry.now }
{
    if !is_counted(lent, carry.len(), at) {
        return false;
    }
    let seat = Seat { lent, carry, at };
    match at.phase {
        Phase::Open => seat.fits_open(),
        Phase::Long => seat.fits_long(),
        Phase::Closed => false,
    }
}

// What its numbers obey in each phase.
#[tactic(auto, using(wire::proofs::Rules::tests), unfolding(crate::specs::Fits::is_counted))]
fn is_counted(lent: Lent, len: usize, at: Arriving) -> bool
    ensures { let l = lent.entry in result ≡ is_counted l.profile.now l.presence.now l.head.columns len at }
{
    at.column <= lent.head.columns
        && at.held <= len
        && at.held <= at.used
        && is_within(lent, at.used)
}

// No image takes more bytes than there is room for. `as`, since u64 has no From<usize>.
#[tactic(auto, using(crate::proofs::Seats::in_room, crate::proofs::Seats::not_refused))]
fn is_within(lent: Lent, used: usize) -> bool
    ensures { let l = lent.entry in result ≡ leb used (image_room l.profile.now l.presence.now) }
{
    image::image_room(lent.profile, lent.presence).is_ok_and(|room| used as u64 <= room)
}

impl<'a> Seat<'a> {
    #[tactic(auto, using(crate::proofs::Seats::open_rules), unfolding(crate::specs::Fits::fits_in))]
    fn fits_open(self) -> bool
        ensures { let s = self.entry in result ≡ fits_in Open s.lent.profile.now s.lent.presence.now s.lent.head.nulls s.at s.carry.now }
    {
        let at = self.at;
        let nulls = self.lent.head.nulls;
        if at.left != 0 {
            return false;
        }
        // In the null bits nothing was answered.
        if at.held < nulls {
            return at.column == 0 && at.used == at.held;
        }
        at.held == nulls || matches!(self.held_turn(), Turn::Wait)
    }

    #[tactic(auto, using(crate::proofs::Seats::long_rules), unfolding(crate::specs::Fits::fits_in))]
    fn fits_long(self) -> bool
        ensures { let s = self.entry in result ≡ fits_in Long s.lent.profile.now s.lent.presence.now s.lent.head.nulls s.at s.carry.now }
    {
        let at = self.at;
        let nulls = self.lent.head.nulls;
        if at.held < nulls || at.held - nulls != prefix_of(self.held_shape()) {
            return false;
        }
        match self.held_turn() {
            Turn::Long(n) => 0 < at.left && at.left <= n,
            _ => false,
        }
    }

    // How the value in progress is stored: that of the state's column, if this is a present one and not NULL. Else it is NotTaken and no
    // None, since turn_of and prefix_of read that as it is: nothing waits.
    #[tactic(auto, using(wire::proofs::Rules::tests), unfolding(crate::specs::Inner::Hands::held_shape, image::specs::Present::shape_at))]
    fn held_shape(self) -> Shape
        ensures { let s = self.entry in let l = s.lent in
            result ≡ held_shape l.profile.now l.presence.now (take s.at.held s.carry.now) l.head.columns s.at.column }
    {
        let lent = self.lent;
        let column = self.at.column;
        if column == lent.head.columns || !wire::bit_lsb0(lent.presence, column) {
            return Shape::NotTaken(0);
        }
        let rank = image::count_bits(lent.presence, column);
        if wire::bit_lsb0(&self.carry[..self.at.held], rank) {
            return Shape::NotTaken(0);
        }
        value::shape_of(record::column_of(record::entry_in(lent.profile, column)))
    }

    // What the bytes that are held say of it.
    #[tactic(auto, using(crate::proofs::Seats::held_sized, crate::proofs::Seats::held_turn_is))]
    fn held_turn(self) -> Turn
        requires { self.lent.head.nulls ≤ self.at.held }
        ensures { let s = self.entry in let l = s.lent in let held = take s.at.held s.carry.now in
            result
            ≡ turn_of (length s.carry.now - l.head.nulls) (held_shape l.profile.now l.presence.now held l.head.columns s.at.column)
            (drop l.head.nulls held) }
    {
        let nulls = self.lent.head.nulls;
        let hand = Hand {
            held: self.held(),
            block: &[],
        };
        turn_of(
            self.held_shape(),
            &hand.head(nulls),
            self.at.held - nulls,
            self.carry.len() - nulls,
        )
    }

    // What the carry holds.
    pub(crate) fn held(self) -> &'a [u8]
        ensures { result.now ≡ take self.entry.at.held self.entry.carry.now }
    {
        &self.carry[..self.at.held]
    }
}
