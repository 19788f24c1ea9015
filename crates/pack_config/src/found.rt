ghost use Rattle.std.specs.Prelude.{◌≡◌, ◌∷◌, [], None, Some};
ghost use Rattle.pack_config.specs.Faults.{config_fault, precedes};
ghost use Rattle.pack_config.specs.Values.{wrong_type, out_of_range};
ghost use Rattle.pack_config.specs.inner.Found.{after, sooner};
ghost use Rattle.pack_config.specs.declared.fault.ConfigKind.TheVariants.{WrongType, OutOfRange};

use crate::{ConfigFault, ConfigKind};
use json_order::JsonTree;
use std::marker::Model;

/// The least of the faults that were noted.
#[derive(Drop)]
pub(crate) struct Found {
    least: Option<ConfigFault>,
}

impl Model for Found {
    ghost use Rattle.std.specs.Prelude.{Option};
    ghost use Rattle.pack_config.specs.declared.fault.ConfigFault.{ConfigFault};

    ghost Value = { Option ConfigFault };

    ghost view = { λ found. found.least };
}

impl Found {
    pub(crate) fn new() -> Found
        ensures { result ≡ None }
    {
        Found { least: None }
    }

    pub(crate) fn least(&self) -> Option<ConfigFault>
        ensures { result ≡ self.now }
    {
        self.least
    }

    pub(crate) fn note(&mut self, offset: u64, kind: ConfigKind)
        ensures { self.new ≡ after self.old (config_fault kind offset ∷ []) }
    {
        self.least = Some(sooner(self.least, ConfigFault { offset, kind }));
    }

    pub(crate) fn wrong_type(&mut self, tree: &JsonTree)
        ensures { self.new ≡ after self.old (wrong_type tree.now) }
    {
        self.note(tree.at, ConfigKind::WrongType);
    }

    pub(crate) fn out_of_range(&mut self, tree: &JsonTree)
        ensures { self.new ≡ after self.old (out_of_range tree.now) }
    {
        self.note(tree.at, ConfigKind::OutOfRange);
    }
}

fn sooner(least: Option<ConfigFault>, fault: ConfigFault) -> ConfigFault
    ensures { Some result ≡ sooner least fault }
{
    match least {
        Some(least) if !precedes(&fault, &least) => least,
        _ => fault,
    }
}

fn precedes(one: &ConfigFault, other: &ConfigFault) -> bool
    ensures { result ≡ precedes one.now other.now }
{
    one.offset < other.offset || (one.offset == other.offset && one.kind.rank() < other.kind.rank())
}
