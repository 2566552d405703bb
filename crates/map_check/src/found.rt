// The bytes of optional fields, where these stand.
ghost use Rattle.std.specs.Prelude.{◌≡◌};
ghost use Rattle.map_check.specs.Fields.{value_in};

use wire::Part;

// The bytes of a value that was found, none where the field does not stand.
pub(crate) fn value_in(event: &[u8], found: Option<Part>) -> &[u8]
    ensures { result.now ≡ value_in event.now found }
{
    match found {
        Some(part) => wire::part_of(event, part),
        None => &event[..0],
    }
}
