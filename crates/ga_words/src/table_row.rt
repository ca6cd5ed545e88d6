ghost use Rattle.std.specs.Prelude.{◌≡◌, map};
ghost use Rattle.std.specs.Map.{lookup};
ghost use Rattle.std.specs.Str.{bytes_eq};

/// A row of a table: a name of the command line, and its value.
#[derive(Clone, Copy)]
pub(crate) struct TableRow<T>(pub(crate) &'static str, pub(crate) T);

/// The value of a name, which is compared byte for byte.
pub(crate) fn lookup<T: Copy>(rows: &[TableRow<T>], name: &str) -> Option<T>
    ensures { result ≡ lookup (λ own. bytes_eq own name.now) (map (λ row. (row.0.now, row.1)) rows.now) }
{
    for row in rows {
        if row.0 == name {
            return Some(row.1);
        }
    }
    None
}
