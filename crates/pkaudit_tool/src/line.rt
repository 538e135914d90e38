// The line of what was found.
ghost use Rattle.std.specs.Prelude.{◌≡◌, ◌++◌, OnOk, IfOk, decimal};
ghost use Rattle.pkaudit_tool.specs.Audits.{clause_word, line_of};

use itoa::Buffer;
use journal_audit::{Clause, Finding};
use pk_types::NoMemory;
use std::alloc::Global;

/// The word of a clause.
fn clause_word(clause: Clause) -> &'static [u8]
    ensures word { result.now ≡ clause_word clause }
{
    match clause {
        Clause::Load => b"load",
        Clause::Moment => b"moment",
        Clause::Salt => b"salt",
        Clause::Outputs => b"outputs",
        Clause::Loads => b"loads",
    }
}

/// Adds a number in decimal digits.
fn push_number(text: &mut Vec<u8>, number: u64) -> Result<(), NoMemory>
    ensures added { OnOk result (text.new.items ≡ text.old.items ++ decimal number) }
{
    let mut buffer = Buffer::new();
    text.extend_from_slice(buffer.format(number).as_bytes())?;
    Ok(())
}

/// Adds the line of what was found.
fn push_line(text: &mut Vec<u8>, finding: Finding) -> Result<(), NoMemory>
    ensures added { OnOk result (text.new.items ≡ text.old.items ++ line_of finding) }
{
    match finding {
        Finding::Accepted { entries, yes } => {
            text.extend_from_slice(b"ok ")?;
            push_number(text, entries)?;
            text.push(b' ')?;
            push_number(text, yes)?;
        }
        Finding::Faulty { entry, clause } => {
            text.extend_from_slice(b"fault ")?;
            push_number(text, entry)?;
            text.push(b' ')?;
            text.extend_from_slice(clause_word(clause))?;
        }
    }
    text.push(b'\n')?;
    Ok(())
}

/// The line of what was found.
pub fn line_of(alloc: Global, finding: Finding) -> Result<Vec<u8>, NoMemory>
    ensures line { IfOk result (λ line. line.items ≡ line_of finding) }
{
    let mut line = Vec::new(alloc);
    push_line(&mut line, finding)?;
    Ok(line)
}
