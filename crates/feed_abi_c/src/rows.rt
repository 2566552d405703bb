ghost use Rattle.std.specs.Prelude.{◌≡◌};
ghost use Rattle.wire.specs.Stored.{answer_of};
ghost use Rattle.image.specs.Split.{cursor, step_from};
ghost use Rattle.feed_abi.specs.Answers.{status_of, numbers_left, bytes_left};
ghost use Rattle.feed_abi.specs.Calls.{Held, feed_first, feed_step, feed_start, feed_put};
ghost use Rattle.feed_abi.specs.Calls.{feed_room};

// The cursor that a walk begins with: column and offset.
#[unsafe(no_mangle)]
pub extern "C" fn feed_first(profile: &[u8], presence: &[u8], out: &mut [u64]) -> u64
    ensures value { result ≡ status_of 2 (feed_first profile.now presence.now) out.old }
    ensures out_after { out.new ≡ numbers_left 2 (feed_first profile.now presence.now) out.old }
{
    feed_abi::feed_first(profile, presence, out)
}

// One step over an image, from any cursor: sort, column, next column, next offset, and the seven parts of the value.
#[unsafe(no_mangle)]
pub extern "C" fn feed_step(
    profile: &[u8],
    presence: &[u8],
    image: &[u8],
    column: usize,
    offset: usize,
    out: &mut [u64],
) -> u64
    ensures value { result ≡ status_of 11 (feed_step profile.now presence.now image.now column offset)
        out.old }
    ensures out_after { out.new
        ≡ numbers_left 11 (feed_step profile.now presence.now image.now column offset) out.old }
    ensures held { result ≡ 0
        → Held (step_from profile.now presence.now image.now (cursor column offset)) }
{
    feed_abi::feed_step(profile, presence, image, column, offset, out)
}

// Stores the null bits of an image: the cursor of its first value.
#[unsafe(no_mangle)]
pub extern "C" fn feed_start(
    profile: &[u8],
    presence: &[u8],
    nulls: &[u8],
    image: &mut [u8],
    out: &mut [u64],
) -> u64
    ensures value { result
        ≡ status_of 2 (answer_of (feed_start profile.now presence.now nulls.now image.old))
        out.old }
    ensures out_after { out.new
        ≡ numbers_left 2 (answer_of (feed_start profile.now presence.now nulls.now image.old))
        out.old }
    ensures image_after { image.new
        ≡ bytes_left 2 (feed_start profile.now presence.now nulls.now image.old)
        out.old image.old }
{
    feed_abi::feed_start(profile, presence, nulls, image, out)
}

// Stores one value, or nothing for NULL, at a cursor: the cursor of the next.
#[unsafe(no_mangle)]
pub extern "C" fn feed_put(
    profile: &[u8],
    presence: &[u8],
    nulls: &[u8],
    column: usize,
    offset: usize,
    sort: u64,
    parts: &[u64],
    lent: &[u8],
    image: &mut [u8],
    out: &mut [u64],
) -> u64
    ensures value { result
        ≡ status_of 2 (answer_of (feed_put profile.now presence.now nulls.now column offset sort
        parts.now lent.now image.old)) out.old }
    ensures out_after { out.new
        ≡ numbers_left 2 (answer_of (feed_put profile.now presence.now nulls.now column offset sort
        parts.now lent.now image.old)) out.old }
    ensures image_after { image.new
        ≡ bytes_left 2 (feed_put profile.now presence.now nulls.now column offset sort
        parts.now lent.now image.old) out.old image.old }
{
    feed_abi::feed_put(
        profile, presence, nulls, column, offset, sort, parts, lent, image, out,
    )
}

// The most bytes that an image can take, and 0.
#[unsafe(no_mangle)]
pub extern "C" fn feed_room(profile: &[u8], presence: &[u8], out: &mut [u64]) -> u64
    ensures value { result ≡ status_of 2 (feed_room profile.now presence.now) out.old }
    ensures out_after { out.new ≡ numbers_left 2 (feed_room profile.now presence.now) out.old }
{
    feed_abi::feed_room(profile, presence, out)
}
