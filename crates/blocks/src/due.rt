// A value that is due in a call.
ghost use Rattle.std.specs.Prelude.{◌≡◌, ◌<◌, true};
ghost use Rattle.value.specs.Columns.{shape_of, is_taken};

use crate::call::Call;
use value::Column;

// It is that of a column that is present and not NULL, and its bytes stand behind those of the null bits.
#[derive(Clone, Copy)]
pub(crate) struct Due<'a> {
    pub call: Call<'a>,
    pub nulls: usize,
    pub column: usize,
    pub kind: Column,
    ghost low: { column < 65536 },
    ghost taken: { is_taken (shape_of kind) ≡ true },
}
