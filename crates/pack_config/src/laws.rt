//! What holds of the definitions: calls that do nothing and whose clauses are the laws.
ghost use Rattle.std.specs.Prelude.{◌≡◌, ◌↔◌, ℕ, List, Result, Contains};
ghost use Rattle.graph_types.specs.declared.config.Config.{Config};
ghost use Rattle.pack_config.specs.Answer.{AreAlike, IsConfigAnswer};
ghost use Rattle.pack_config.specs.Faults.{IsLeast};
ghost use Rattle.pack_config.specs.declared.fault.ConfigFault.{ConfigFault};

/// A text has one configuration or one least fault, and never both.
pub fn one_configuration_or_one_fault()
    ensures { (text : List ℕ) (one other : Result Config ConfigFault) → IsConfigAnswer text one → IsConfigAnswer text other → AreAlike one other }
{}

/// The order in which faults are listed doesn't matter: lists with the same members have the same least fault.
pub fn the_least_whatever_the_order()
    ensures { (one other : List ConfigFault) → ((fault : ConfigFault) → Contains one fault ↔ Contains other fault)
        → (first second : ConfigFault) → IsLeast first one → IsLeast second other → first ≡ second }
{}
