// A rule file.
ghost use Rattle.std.specs.Prelude.{◌≡◌, find, map};
ghost use Rattle.std.specs.Option.{option_copied};
ghost use Rattle.glob_match.specs.Glob.{matches as globs};
ghost use Rattle.agent_rules.specs.Rules.{Reads, rules_in_lines};

use crate::line::{Handling, Rule, rule_of};
use glob_match::matches;
use pk_types::{List, NoMemory, Text, lines};
use std::alloc::Global;
use std::marker::Model;

/// The greatest number of bytes of a rule file: 1 MiB.
pub const MAX_RULE_FILE: usize = 1_048_576;

/// The greatest number of lines of a rule file.
pub const MAX_RULES: usize = 4_096;

/// Why bytes are not a rule file.
#[derive(Clone, Copy, Debug, PartialEq, Eq)]
pub enum RuleFault {
    /// They are too many, have too many lines, or have a line of another form.
    OutOfForm,
    /// Memory was refused.
    NoMemory,
}

impl From<NoMemory> for RuleFault {
    ghost use Rattle.std.specs.Prelude.{◌≡◌};
    ghost use Rattle.agent_rules.specs.declared.rules.RuleFault.TheVariants as fault;

    ghost from_gives = { λ _ given. given ≡ fault.NoMemory };

    fn from(_: NoMemory) -> Self {
        RuleFault::NoMemory
    }
}

/// The rules of a file, in the order of its lines.
#[derive(Drop)]
pub struct Rules {
    rules: List<Rule>,
}

impl Model for Rules {
    ghost use Rattle.std.specs.Prelude as prelude;
    ghost use Rattle.agent_rules.specs.declared.line.Rule.{Rule};

    ghost Value = { prelude.List Rule };

    ghost view = { λ r. r.rules };
}

/// The rules of lines.
fn rules_of_lines(alloc: Global, lines: &[&[u8]]) -> Result<List<Rule>, RuleFault>
    ensures rules { Reads result (rules_in_lines (map (λ line. line.now) lines.now)) }
{
    let mut rules = List::new(alloc);
    for line in lines {
        let rule = rule_of(alloc, line)?;
        rules.try_push(rule)?;
    }
    Ok(rules)
}

/// The first of the rules whose glob has the action.
fn first_rule<'a>(rules: &'a [Rule], action: &Text) -> Option<&'a Rule>
    ensures first { option_copied result ≡ find (λ rule. globs rule.glob action.now) rules.now }
{
    rules.iter().find(|rule| matches(&rule.glob, action))
}

impl Rules {
    ghost use Rattle.agent_rules.specs.Rules.{rules_in, handling_for};

    /// The rules of a rule file.
    ///
    /// A line is `GLOB user:UID`, `GLOB dismiss` or `GLOB fail`, with one space between its words. A
    /// glob is a text and has no space; a uid is a decimal number of 32 bits without a sign and
    /// without a zero in front. LF ends each line, and the end of the file may end the last one. An
    /// empty line is out of form.
    ///
    /// # Errors
    /// `OutOfForm` exactly where the file has more than 1 MiB, more than 4,096 lines or a line of
    /// another form; `NoMemory`.
    pub fn read(alloc: Global, bytes: &[u8]) -> Result<Rules, RuleFault>
        ensures rules { Reads result (rules_in bytes.now) }
    {
        if bytes.len() > MAX_RULE_FILE {
            return Err(RuleFault::OutOfForm);
        }
        let lines = lines(alloc, bytes)?;
        if lines.len() > MAX_RULES {
            return Err(RuleFault::OutOfForm);
        }
        let rules = rules_of_lines(alloc, &lines)?;
        Ok(Rules { rules })
    }

    /// How a challenge for this action is handled: as the first rule says whose glob has the action,
    /// and as a failure where there is none. It takes no memory.
    pub fn decide(&self, action: &Text) -> Handling
        ensures first { result ≡ handling_for self.now action.now }
    {
        match first_rule(self.rules.as_slice(), action) {
            Some(rule) => rule.handling,
            None => Handling::Fail,
        }
    }
}
