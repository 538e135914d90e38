// Actions, rules and what was skipped.
ghost use Rattle.audit_values.specs.Policies.{localized, action, rule_entry, file_fault};

use crate::spell::Spell;
use audit_words::{LineBuffer, Stop, Words};
use authority_model::{Action, FileFault, Localized, RuleEntry};
use pk_types::{Implicit, List};

impl Spell for Localized {
    ghost codec = { localized };

    #[tactic(auto, using(audit_words::proofs::Putting::put_rules))]
    fn put_words(&self, line: &mut LineBuffer) {
        self.lang.put_words(line);
        self.text.put_words(line);
    }

    fn take_from(words: &mut Words) -> Result<Localized, Stop> {
        let lang = words.text()?;
        let text = words.text()?;
        Ok(Localized { lang, text })
    }
}

impl Spell for Action {
    ghost codec = { action };

    #[tactic(auto, using(audit_words::proofs::Putting::put_rules))]
    fn put_words(&self, line: &mut LineBuffer) {
        self.id.put_words(line);
        self.descriptions.put_words(line);
        self.messages.put_words(line);
        self.vendor.put_words(line);
        self.vendor_url.put_words(line);
        self.icon.put_words(line);
        self.any.put_words(line);
        self.inactive.put_words(line);
        self.active.put_words(line);
        self.annotations.put_words(line);
    }

    fn take_from(words: &mut Words) -> Result<Action, Stop> {
        let id = words.action_id()?;
        let descriptions = List::take_from(words)?;
        let messages = List::take_from(words)?;
        let vendor = words.text()?;
        let vendor_url = words.text()?;
        let icon = words.text()?;
        let any = Implicit::take_from(words)?;
        let inactive = Implicit::take_from(words)?;
        let active = Implicit::take_from(words)?;
        let annotations = List::take_from(words)?;
        Ok(Action {
            id,
            descriptions,
            messages,
            vendor,
            vendor_url,
            icon,
            any,
            inactive,
            active,
            annotations,
        })
    }
}

impl Spell for RuleEntry {
    ghost codec = { rule_entry };

    #[tactic(auto, using(audit_words::proofs::Putting::put_rules))]
    fn put_words(&self, line: &mut LineBuffer) {
        self.identities.put_words(line);
        self.actions.put_words(line);
        self.any.put_words(line);
        self.inactive.put_words(line);
        self.active.put_words(line);
        self.pairs.put_words(line);
    }

    fn take_from(words: &mut Words) -> Result<RuleEntry, Stop> {
        let identities = List::take_from(words)?;
        let actions = List::take_from(words)?;
        let any = Option::take_from(words)?;
        let inactive = Option::take_from(words)?;
        let active = Option::take_from(words)?;
        let pairs = List::take_from(words)?;
        Ok(RuleEntry {
            identities,
            actions,
            any,
            inactive,
            active,
            pairs,
        })
    }
}

impl Spell for FileFault {
    ghost codec = { file_fault };

    #[tactic(auto, using(audit_words::proofs::Putting::put_rules))]
    fn put_words(&self, line: &mut LineBuffer) {
        self.file.put_words(line);
        self.kind.put_words(line);
        self.at.put_words(line);
    }

    fn take_from(words: &mut Words) -> Result<FileFault, Stop> {
        let file = words.text()?;
        let kind = words.text()?;
        let at = words.u64()?;
        Ok(FileFault { file, kind, at })
    }
}
