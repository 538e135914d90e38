// The access law.
ghost use Rattle.std.specs.Prelude.{List};
ghost use Rattle.authority_model.specs.declared.journal.Item.{Item};
ghost use Rattle.authority_model.specs.Legal.{Legal};
ghost use Rattle.authority_model.specs.Licensed.{AllLicensed};

/// In every legal history each yes is licensed: it answers a check that root, a default, a rule, a
/// temporary authorization or an implying action allows there, or the return of a dialogue that was
/// opened for that check and that an identity answered, one that was offered then and may still
/// answer.
pub fn every_yes_is_licensed()
    ensures access { (past : List Item) → Legal past → AllLicensed past }
{}
