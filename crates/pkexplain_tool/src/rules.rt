// The rules by their places.
ghost use Rattle.std.specs.Prelude.{◌≡◌, ◌++◌, OnOk};
ghost use Rattle.pkexplain_tool.specs.Accounts.{AreFirsts};
ghost use Rattle.pkexplain_tool.specs.Lines.{rule_lines, text_of};

use crate::account::Firsts;
use crate::lines::push_rule;
use authority_model::Loaded;
use pk_types::NoMemory;

/// Adds the line of each rule, by the first case that it decides.
pub fn push_rules(text: &mut Vec<u8>, loaded: &Loaded, firsts: &Firsts) -> Result<(), NoMemory>
    requires firsts { AreFirsts loaded.now firsts.now }
    ensures added { OnOk result (text.new.items ≡ text.old.items ++ text_of (rule_lines loaded.now)) }
{
    for place in 0..loaded.policy.entries.len() {
        let Some(first) = firsts.get(place) else {
            unreachable!();
        };
        push_rule(text, place, first)?;
    }
    Ok(())
}
