// What stands between the elements of an element.
ghost use Rattle.std.specs.Prelude.{◌≡◌, length};
ghost use Rattle.xml_pieces.specs.Reading.{Gives, steps};
ghost use Rattle.xml_pieces.specs.Children.{next, next_step};
ghost use Rattle.xml_pieces.specs.Views.{next_of, next_on};

use crate::bytes::{behind_spaces, name};
use crate::fault::{Stop, cut_off, malformed};
use crate::markup::{declaration, end_tag};

/// What comes next in an element.
#[derive(Clone, Copy)]
pub enum Next<'a> {
    /// An element begins at the place; its name, and what follows that.
    Child {
        name: &'a [u8],
        place: &'a [u8],
        rest: &'a [u8],
    },
    /// The element ends; what follows its end tag.
    End(&'a [u8]),
}

/// What a step gives.
#[derive(Clone, Copy)]
enum NextStep<'a> {
    On(&'a [u8]),
    Done(Next<'a>),
}

#[tactic(auto, unfolding(crate::specs::Children::next_step))]
fn next_step<'a>(parent: &[u8], rest: &'a [u8]) -> Result<NextStep<'a>, Stop>
    ensures exact { Gives next_on result (next_step parent.now rest.now) }
{
    let here = behind_spaces(rest);
    let Some((first, after)) = here.split_first() else {
        return Err(cut_off());
    };
    if *first != b'<' {
        return Err(malformed(here));
    }
    let Some((second, _)) = after.split_first() else {
        return Err(cut_off());
    };
    if *second == b'!' {
        let behind = declaration(here)?;
        return Ok(NextStep::On(behind));
    }
    if *second == b'/' {
        let behind = end_tag(parent, here)?;
        return Ok(NextStep::Done(Next::End(behind)));
    }
    if *second == b'?' {
        return Err(malformed(here));
    }
    let (name, rest) = name(here, after)?;
    Ok(NextStep::Done(Next::Child {
        name,
        place: here,
        rest,
    }))
}

/// What comes next behind white space and comments.
#[tactic(auto, using(crate::proofs::Loops::steps_rules), unfolding(crate::specs::Children::next))]
pub fn next_child<'a>(parent: &[u8], bytes: &'a [u8]) -> Result<Next<'a>, Stop>
    ensures exact { Gives next_of result (next parent.now bytes.now) }
{
    let mut rest = bytes;
    for _i in 0..bytes.len() {
        match next_step(parent, rest)? {
            NextStep::On(behind) => rest = behind,
            NextStep::Done(next) => return Ok(next),
        }
    }
    Err(cut_off())
}
