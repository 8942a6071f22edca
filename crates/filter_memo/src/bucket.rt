//! Buckets: positions of values among sorted values.

ghost use Rattle.std.specs.Prelude.{◌≡◌};
ghost use Rattle.filter_tree.specs.Values.{datum_view};
ghost use Rattle.filter_memo.specs.Buckets.{IsBucket, kind_of};

use filter_tree::Value;

/// The kind of a value: null, or one of three kinds of constants.
#[derive(Clone, Copy, Debug, PartialEq, Eq)]
pub enum Kind {
    Null,
    Int,
    Bool,
    Text,
}

/// The position of a value among bounds: its kind, and the index of the bound that is equal to it, or at which it would
/// be inserted.
#[derive(Clone, Copy, Debug, PartialEq, Eq)]
pub struct Bucket {
    pub kind: Kind,
    pub found: Result<usize, usize>,
}

impl Kind {
    /// The kind of a value.
    fn of(value: &Value) -> Kind
        ensures { result ≡ kind_of (datum_view value.now) }
    {
        match value {
            Value::Null => Kind::Null,
            Value::Int(_) => Kind::Int,
            Value::Bool(_) => Kind::Bool,
            Value::Text(_) => Kind::Text,
        }
    }
}

/// The bucket of a value among bounds.
pub fn bucket_of(bounds: &[Value], value: &Value) -> Bucket
    ensures { IsBucket bounds.now (datum_view value.now) result }
{
    Bucket {
        kind: Kind::of(value),
        found: bounds.binary_search(value),
    }
}

/// The number of a bucket. Buckets of the same kind have different numbers, and none of them has the number of null.
pub fn number_of(bucket: &Bucket) -> usize {
    match (bucket.kind, bucket.found) {
        (Kind::Null, _) => 0,
        (Kind::Int | Kind::Bool | Kind::Text, Err(index)) => index.wrapping_mul(2).wrapping_add(1),
        (Kind::Int | Kind::Bool | Kind::Text, Ok(index)) => index.wrapping_mul(2).wrapping_add(2),
    }
}
