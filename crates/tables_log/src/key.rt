//! Keys of maps.

ghost use Rattle.std.specs.Prelude.{◌≡◌, true};
ghost use Rattle.tables_log.specs.KeyView.{key_view};
ghost use Rattle.tables_log.specs.NumberKeys.{number_of_key};

use filter_tree::{Row, Value};

/// A key: one number, which takes no memory, or the values of a row.
#[derive(Drop)]
pub(crate) enum Key {
    Number(i64),
    Values(Row),
}

/// The number that the key is, if it is one number.
pub(crate) fn only_number(key: &Row) -> Option<i64>
    ensures { result ≡ number_of_key key.now }
{
    match key.values() {
        [Value::Int(number)] => Some(*number),
        _ => None,
    }
}
