//! The first rows of a table: its rows are fixed memory, with the number of used ones beside them.
ghost use Rattle.std.specs.Prelude.{◌≡◌, ◌≤◌, length, take};

/// The first `used` rows; all of them where there are fewer.
pub fn first_rows<T>(rows: &[T], used: usize) -> &[T]
    ensures rows { result.now ≡ take used rows.now }
    ensures within { length result.now ≤ length rows.now }
    ensures few { length result.now ≤ used }
{
    rows.get(..used).unwrap_or(rows)
}
