// What a view's own numbers are asked by whoever reads one, a seat or a sheet: checks 8 and 10.
ghost use Rattle.std.specs.Prelude.{◌≡◌};
ghost use Rattle.desk.specs.Views.{view_above, view_stray};

use records::View;
use records::numbers::{LIMIT, above_limit, stray_number};

// Check 8: whether a view's number or one of its start numbers is above L.
pub fn view_above(v: View) -> bool
    ensures { result ≡ view_above v }
{
    (LIMIT < v.number) | above_limit(&v.starts)
}

// Check 10: whether a view's start number is not 0 for an office outside the members.
pub fn view_stray(v: View) -> bool
    ensures { result ≡ view_stray v }
{
    stray_number(v.members, &v.starts)
}
