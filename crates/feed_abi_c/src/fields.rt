ghost use Rattle.std.specs.Prelude.{◌≡◌};
ghost use Rattle.feed_abi.specs.Answers.{status_of, numbers_left};
ghost use Rattle.feed_abi.specs.Fields.{feed_parts, feed_fields};
ghost use Rattle.feed_abi.specs.Fields.{feed_field, feed_item};

// The parts of a map that are bytes for its columns, start and length each: types, metadata, nullable bits, optional fields.
#[unsafe(no_mangle)]
pub extern "C" fn feed_parts(event: &[u8], post_header: u8, out: &mut [u64]) -> u64
    ensures value { result ≡ status_of 8 (feed_parts event.now post_header) out.old }
    ensures out_after { out.new ≡ numbers_left 8 (feed_parts event.now post_header) out.old }
{
    feed_abi::feed_parts(event, post_header, out)
}

// The cursor that a walk over the optional fields begins with: where the first stands, how many columns have a signedness bit, and how many
// columns there are.
#[unsafe(no_mangle)]
pub extern "C" fn feed_fields(event: &[u8], post_header: u8, dialect: u8, out: &mut [u64]) -> u64
    ensures value { result ≡ status_of 3 (feed_fields event.now post_header dialect) out.old }
    ensures out_after { out.new ≡ numbers_left 3 (feed_fields event.now post_header dialect) out.old }
{
    feed_abi::feed_fields(event, post_header, dialect, out)
}

// One step over the optional fields, from any cursor: 1, the field's type, start and length of its value, and where the next stands; or
// zeros for the end. The counts of the next cursor are the same.
#[unsafe(no_mangle)]
pub extern "C" fn feed_field(
    event: &[u8],
    offset: usize,
    numeric: usize,
    columns: usize,
    out: &mut [u64],
) -> u64
    ensures value { result ≡ status_of 5 (feed_field event.now offset numeric columns) out.old }
    ensures out_after { out.new ≡ numbers_left 5 (feed_field event.now offset numeric columns) out.old }
{
    feed_abi::feed_field(event, offset, numeric, columns, out)
}

// One step over a list in the value of an optional field, from any offset: 1, two numbers for the item, and where the next stands; or zeros
// for the end. 13 for a list that there is not.
#[unsafe(no_mangle)]
pub extern "C" fn feed_item(list: u64, value: &[u8], offset: usize, out: &mut [u64]) -> u64
    ensures value { result ≡ status_of 4 (feed_item list value.now offset) out.old }
    ensures out_after { out.new ≡ numbers_left 4 (feed_item list value.now offset) out.old }
{
    feed_abi::feed_item(list, value, offset, out)
}
