ghost use Rattle.std.specs.Prelude.{◌≡◌};
ghost use Rattle.feed_abi.specs.Answers.{status_of, numbers_left};
ghost use Rattle.feed_abi.specs.Calls.{feed_rows};
ghost use Rattle.feed_abi.specs.Calls.{feed_image};

// The parts of a rows event of the code `code`, under the record and the table id of its map: flags; whether it has extra data, start,
// length; start and length of its presence bits; whether it has a second set, start, length; and where its images begin.
#[unsafe(no_mangle)]
pub extern "C" fn feed_rows(
    code: u64,
    profile: &[u8],
    table: u64,
    event: &[u8],
    out: &mut [u64],
) -> u64
    ensures value { result ≡ status_of 10 (feed_rows code profile.now table event.now) out.old }
    ensures out_after { out.new
        ≡ numbers_left 10 (feed_rows code profile.now table event.now) out.old }
{
    feed_abi::feed_rows(code, profile, table, event, out)
}

// One step over the images of a rows event, from any cursor, under any sets: 1, start, length, under which set it stands, and the next
// cursor; or zeros for the end.
#[unsafe(no_mangle)]
pub extern "C" fn feed_image(
    profile: &[u8],
    event: &[u8],
    first_start: usize,
    first_length: usize,
    has_second: u64,
    second_start: usize,
    second_length: usize,
    offset: usize,
    second: u64,
    out: &mut [u64],
) -> u64
    ensures value { result
        ≡ status_of 6 (feed_image profile.now event.now first_start first_length has_second second_start
        second_length offset second) out.old }
    ensures out_after { out.new
        ≡ numbers_left 6 (feed_image profile.now event.now first_start first_length has_second second_start
        second_length offset second) out.old }
{
    feed_abi::feed_image(
        profile,
        event,
        first_start,
        first_length,
        has_second,
        second_start,
        second_length,
        offset,
        second,
        out,
    )
}
