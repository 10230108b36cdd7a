//! The texts of events that are made.

ghost use Rattle.nt_types.specs.Rules.{AreFields};
ghost use Rattle.nt_draws.specs.Events.{event_fields};
ghost use Rattle.nt_draws.specs.declared.making.Making.{Making};
ghost use Rattle.nt_generate.specs.Made.{MadeAreRead};

use nt_draws::made_lines_are_read;

/// The texts of what is made have no bad line, and give just its events.
pub(crate) fn made_texts_are_read()
    ensures fields { AreFields event_fields }
    ensures read { (m : Making) → MadeAreRead m }
{
    made_lines_are_read();
}
