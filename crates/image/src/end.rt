// Where a whole walk over an image ends. The record and the presence bits are tested once, so a row costs its columns and not their square.
ghost use Rattle.std.specs.Prelude.{◌≡◌};
ghost use Rattle.image.specs.Walk.{walk_image};

use crate::cursor::{Cursor, read_head};
use crate::step::{InnerCursor, Step, step_inner};
use wire::Refusal;
use wire::refusal::IMAGE_SHORT;

// The end of the walk from the first cursor on, as steps would come to it: the bytes used, or why the walk stopped.
#[tactic(auto, using(crate::proofs::EndLaws::Ends::walk_refused, crate::proofs::EndLaws::Ends::walk_cut, crate::proofs::EndLaws::Ends::going_further))]
pub fn walk_end(profile: &[u8], presence: &[u8], image: &[u8]) -> Result<usize, Refusal>
    ensures { result ≡ (walk_image profile.now presence.now image.now).how }
{
    let head = read_head(profile, presence)?;
    if image.len() < head.nulls {
        return Err(wire::refuse(IMAGE_SHORT, 0));
    }
    let mut at = InnerCursor {
        cursor: Cursor {
            column: 0,
            offset: head.nulls,
        },
        rank: 0,
    };
    // A walk: each turn goes on from where the last one came to, and no index is counted.
    loop {
        match step_inner(profile, presence, image, head.columns, at)? {
            Step::Null { next, .. } | Step::Value { next, .. } => at = next,
            Step::End { used } => return Ok(used),
        }
    }
}
