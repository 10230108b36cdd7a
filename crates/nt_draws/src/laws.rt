//! The line of each event is read back.

ghost use Rattle.std.specs.Prelude.{ℕ, ◌≡◌, ◌≤◌, false, length, Ok};
ghost use Rattle.nt_types.specs.ShapeData.{parts_of};
ghost use Rattle.nt_types.specs.Rules.{AreFields};
ghost use Rattle.nt_types.specs.Lines.{is_blank_line};
ghost use Rattle.nt_event.specs.Entry.{entry_of};
ghost use Rattle.nt_event.specs.Json.{line_of};
ghost use Rattle.nt_event.specs.Lines.{HasNoLf};
ghost use Rattle.nt_draws.specs.Events.{event_fields, event_behind};

use nt_event::lines_are_read_back;

/// The line of an event is one line, not a blank one and not a long one, and it is read as just this event.
pub fn made_lines_are_read()
    ensures fields { AreFields event_fields }
    ensures read { (number : ℕ) → entry_of (parts_of event_fields) (line_of (event_behind number)) ≡ Ok (event_behind number) }
    ensures one_line { (number : ℕ) → HasNoLf (line_of (event_behind number)) }
    ensures short { (number : ℕ) → length (line_of (event_behind number)) ≤ 40 }
    ensures some { (number : ℕ) → is_blank_line (line_of (event_behind number)) ≡ false }
{
    lines_are_read_back();
}
