//! The names of numbers.

ghost use Rattle.std.specs.Prelude.{◌≡◌};
ghost use Rattle.std.specs.Option.{option_map};
ghost use Rattle.packet_fields.specs.Names.{name_in, rows_of};

/// A number and its name.
pub type Row = (u16, &'static str);

/// The name of a number in rows; None where it has none.
pub fn name_in(rows: &[Row], number: u16) -> Option<&'static str>
    ensures { option_map (λ name. name.now) result ≡ name_in (rows_of rows.now) number }
{
    for row in rows {
        if row.0 == number {
            return Some(row.1);
        }
    }
    None
}
