// What is written is read again.
ghost use Rattle.std.specs.Prelude.{◌≡◌, List};
ghost use Rattle.authority_model.specs.declared.message.Output.{Output as Sent};
ghost use Rattle.audit_words.specs.Codecs.{list};
ghost use Rattle.audit_words.specs.Escapes.{text};
ghost use Rattle.audit_words.specs.Faults.{Lawful};
ghost use Rattle.audit_words.specs.Lines.{written};
ghost use Rattle.audit_values.specs.Policies.{action, rule_entry, file_fault};
ghost use Rattle.audit_values.specs.Worlds.{user, group, session, process};
ghost use Rattle.audit_values.specs.Entries.{entry, output};

/// Of each item of a load: what is spelled is read again, what is read is spelled so, and a fault is where the
/// words stop.
pub fn load_laws()
    ensures actions { Lawful action }
    ensures rules { Lawful rule_entry }
    ensures admins { Lawful text }
    ensures users { Lawful user }
    ensures groups { Lawful group }
    ensures sessions { Lawful session }
    ensures processes { Lawful process }
    ensures faults { Lawful file_fault }
{}

/// The same of an entry, and of what it sends.
pub fn entry_laws()
    ensures entries { Lawful entry }
    ensures outputs { Lawful (list output) }
{}

/// Outputs whose words are the same are the same.
pub fn equal_words()
    ensures outputs { (xs ys : List Sent) → (list output).fits xs → (list output).fits ys
        → written ((list output).spell xs) ≡ written ((list output).spell ys) → xs ≡ ys }
{}
