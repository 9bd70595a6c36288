// The tests of a round, on the row of an office: the slow test, then the agreement test.
ghost use Rattle.rules.specs.Rules.{tests};
ghost use Rattle.row.specs.Held.{held_mut};
ghost use Rattle.event_parts.specs.Done.{Done, HasRoom};
ghost use Rattle.event_parts.specs.Bounds.{early, Bounded};

use agree::agreement::agreement_test;
use event_parts::Output;
use propose::slow_test::slow_test;
use row::RowMut;

pub fn tests(row: &mut RowMut, out: &mut Output)
    requires { Bounded early (held_mut row.old) × HasRoom tests row.old out.old }
    ensures { Done tests row.old out.old row.new out.new }
{
    slow_test(row, out);
    agreement_test(row, out);
}
