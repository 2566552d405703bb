ghost use Rattle.std.specs.Prelude.{◌≡◌};
ghost use Rattle.wire.specs.Stored.{answer_of};
ghost use Rattle.feed_abi.specs.Answers.{status_of, numbers_left, bytes_left};
ghost use Rattle.feed_abi.specs.Calls.{feed_map, feed_check, feed_column, feed_names, feed_name};

// Whose map it is: table id, flags, and where the names of the database and of the table stand in the event, start and length. Rows events
// are read under the id.
#[unsafe(no_mangle)]
pub extern "C" fn feed_map(event: &[u8], post_header: u8, out: &mut [u64]) -> u64
    ensures value { result ≡ status_of 6 (feed_map event.now post_header) out.old }
    ensures out_after { out.new ≡ numbers_left 6 (feed_map event.now post_header) out.old }
{
    feed_abi::feed_map(event, post_header, out)
}

// Checks a map and writes its record at the start of profile: the record's length, and how many columns it has.
#[unsafe(no_mangle)]
pub extern "C" fn feed_check(
    event: &[u8],
    post_header: u8,
    dialect: u8,
    profile: &mut [u8],
    out: &mut [u64],
) -> u64
    ensures value { result ≡ status_of 2 (answer_of (feed_check event.now post_header dialect profile.old))
        out.old }
    ensures out_after { out.new
        ≡ numbers_left 2 (answer_of (feed_check event.now post_header dialect profile.old)) out.old }
    ensures profile_after { profile.new
        ≡ bytes_left 2 (feed_check event.now post_header dialect profile.old) out.old
        profile.old }
{
    feed_abi::feed_check(event, post_header, dialect, profile, out)
}

// What a record says of a column: real type, flags, m0, m1, charset.
#[unsafe(no_mangle)]
pub extern "C" fn feed_column(profile: &[u8], column: usize, out: &mut [u64]) -> u64
    ensures value { result ≡ status_of 5 (feed_column profile.now column) out.old }
    ensures out_after { out.new ≡ numbers_left 5 (feed_column profile.now column) out.old }
{
    feed_abi::feed_column(profile, column, out)
}

// Where the names of a map stand in the event: 1, start and length, which may be 0; zeros where it has none. A map that is refused before
// its names is refused here.
#[unsafe(no_mangle)]
pub extern "C" fn feed_names(event: &[u8], post_header: u8, dialect: u8, out: &mut [u64]) -> u64
    ensures value { result ≡ status_of 3 (feed_names event.now post_header dialect) out.old }
    ensures out_after { out.new ≡ numbers_left 3 (feed_names event.now post_header dialect) out.old }
{
    feed_abi::feed_names(event, post_header, dialect, out)
}

// Where the name of a column stands, start and length, in the list that applies: the map's names if they are not empty, else the
// operator's.
#[unsafe(no_mangle)]
pub extern "C" fn feed_name<'a>(
    names: &'a [u8],
    operator: &'a [u8],
    column: usize,
    out: &mut [u64],
) -> u64
    ensures value { result ≡ status_of 2 (feed_name names.now operator.now column) out.old }
    ensures out_after { out.new ≡ numbers_left 2 (feed_name names.now operator.now column) out.old }
{
    feed_abi::feed_name(names, operator, column, out)
}
