// Printing a record in words, for people.
ghost use Rattle.std.specs.Prelude.{Some};
ghost use Rattle.records.specs.Held.{contents_of};
ghost use Rattle.records.specs.Printing.{in_words};

use crate::Record;
use std::fmt;

// The numbers of poses and actions, the end pose, and then each action behind a blank.
impl fmt::Display for Record<'_> {
    ghost output = { λ r. Some (in_words (contents_of r)) };

    fn fmt<W: fmt::Write>(&self, f: &mut fmt::Formatter<W>) -> fmt::Result {
        write!(
            f,
            "{} poses, {} actions, end pose {}, plan",
            self.poses, self.actions, self.end
        )?;
        for action in self.list {
            write!(f, " {action}")?;
        }
        Ok(())
    }
}
