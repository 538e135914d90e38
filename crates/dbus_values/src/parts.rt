// The parts of a body, one by one.
ghost use Rattle.std.specs.Prelude.{◌≡◌, ◌++◌, [], option_to_list, IfNone};
ghost use Rattle.std.specs.Option.{option_map};
ghost use Rattle.dbus_values.specs.Parts.{piece};
ghost use Rattle.dbus_values.specs.Walk.{state, parts, Lasts};

use crate::cursor::Cursor;
use crate::part::Part;
use crate::runs::next_run;
use crate::walk::Walk;
use std::marker::Model;

/// The parts of a message's body that have not been given yet. It takes no memory.
#[derive(Drop)]
pub struct Parts<'a> {
    big: bool,
    /// How many parts stand behind the place of the walk.
    left: usize,
    walk: Walk<'a>,
    /// A part that the walk went over several times at once.
    repeated: Part<'a>,
    /// How often that part is still to be given, before those behind the place.
    more: usize,
}

impl<'a> Model for Parts<'a> {
    ghost use Rattle.std.specs.Prelude.{List};
    ghost use Rattle.dbus_values.specs.Parts.{Piece, piece};
    ghost use Rattle.dbus_values.specs.Runs.{again};
    ghost use Rattle.dbus_values.specs.Walk.{parts, Lasts};
    ghost use Rattle.dbus_values.specs.Places.{place};

    ghost Value = { List Piece };

    ghost view = { λ p. again p.more (piece p.repeated) (parts p.left 64 p.big (place p.walk)) };

    ghost invariant = { λ p. Lasts p.left 64 p.big (place p.walk) };
}

impl<'a> Parts<'a> {
    /// So many parts of the values of a signature.
    pub(crate) fn at(big: bool, left: usize, signature: &'a [u8], from: Cursor<'a>) -> Parts<'a>
        requires { Lasts left 64 big (state [] signature.now from.at from.rest.now) }
        ensures parts { result ≡ parts left 64 big (state [] signature.now from.entry.at from.entry.rest.now) }
    {
        Parts {
            big,
            left,
            walk: Walk::new(signature, from),
            repeated: Part::Enter { kind: b'(' },
            more: 0,
        }
    }

    /// Gives the next part, and `None` exactly at the end.
    pub fn next(&mut self) -> Option<Part<'a>>
        ensures next { self.old ≡ option_to_list (option_map piece result) ++ self.new }
        ensures end { IfNone result (self.old ≡ []) }
    {
        if self.more > 0 {
            self.more -= 1;
            return Some(self.repeated);
        }
        if self.left == 0 {
            return None;
        }
        match next_run(64, self.big, &mut self.walk, self.left - 1) {
            Ok((part, 0)) => {
                self.left -= 1;
                Some(part)
            }
            Ok((part, more)) => {
                self.left -= more + 1;
                self.repeated = part;
                self.more = more;
                Some(part)
            }
            Err(_) => unreachable!(),
        }
    }
}
