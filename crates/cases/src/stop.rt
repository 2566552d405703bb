// Why an answer stops before its end. A refusal is an answer too: what was told before it stands.
use std::io;
use std::io::Write;
use wire::Refusal;

#[derive(Drop)]
pub(crate) enum Stop {
    // The line is malformed.
    Bad,
    // A call has refused.
    Refused(Refusal),
    // A call has changed bytes that it was not to change.
    Spoiled,
    // The output cannot be written.
    Lost(io::Error),
}

// An answer is told to its end, or stops.
pub(crate) type Answer = Result<(), Stop>;

impl From<Refusal> for Stop {
    fn from(refusal: Refusal) -> Stop {
        Stop::Refused(refusal)
    }
}

impl From<io::Error> for Stop {
    fn from(error: io::Error) -> Stop {
        Stop::Lost(error)
    }
}

// `refused NUMBER PLACE PART`. A Refusal is wire's, so it cannot have a Display here.
pub(crate) fn tell_refusal(refusal: Refusal, out: &mut impl Write) -> io::Result<()> {
    write!(
        out,
        "refused {} {} {}",
        refusal.number, refusal.place, refusal.part
    )
}
