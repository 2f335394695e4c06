//! The values that were fed, and what is kept beside them.
ghost use Rattle.std.specs.Prelude.{◌≡◌, ◌+◌, ◌<◌, [], ◌∷◌, ◌++◌, length, Some, OnOk, OnErr};
ghost use Rattle.std.specs.BTreeMap.{Updates};
ghost use Rattle.site_ids.specs.declared.TheConstants.{MAX_INSTANCE};
ghost use Rattle.release.specs.Keeping.{ticket_cmp, listed};

use site_ids::{Instance, Ticket, Value};
use std::alloc::AllocError;
use std::collections::BTreeMap;

/// The values, and beside them sites, of any type, and the receipts.
#[derive(Drop)]
pub(crate) struct Kept<S> {
    pub fed: Vec<Value>,
    /// The site of all values.
    pub live: S,
    /// The site of release n at place n - 1.
    pub sites: Vec<S>,
    pub receipts: BTreeMap<Ticket, Instance>,
}

/// A command that has an effect: its value, its ticket, the site that it leaves, and the site of the release
/// if it makes one.
#[derive(Drop)]
pub(crate) struct Effect<S> {
    pub value: Value,
    pub ticket: Ticket,
    pub site: S,
    pub release: Option<S>,
}

impl<S: Drop> Kept<S> {
    /// Adds the next value. All room is reserved before the first change.
    pub(crate) fn take(&mut self, effect: Effect<S>) -> Result<(), AllocError>
        requires { length self.old.fed.items < MAX_INSTANCE }
        ensures fed { OnOk result (self.new.fed.items ≡ self.old.fed.items ++ (effect.value ∷ [])) }
        ensures live { OnOk result (self.new.live ≡ effect.site) }
        ensures sites { OnOk result (self.new.sites.items ≡ self.old.sites.items ++ listed effect.release) }
        ensures receipts { OnOk result (Updates ticket_cmp self.old.receipts self.new.receipts effect.ticket
            (Some (length self.old.fed.items + 1))) }
        ensures err { OnErr result ((self.new.fed.items ≡ self.old.fed.items)
            × (self.new.live ≡ self.old.live)
            × (self.new.sites.items ≡ self.old.sites.items)
            × (self.new.receipts.entries ≡ self.old.receipts.entries)) }
    {
        let Some(instance) = Instance::new(self.fed.len() as u32 + 1) else {
            unreachable!()
        };
        self.fed.reserve(1)?;
        self.sites.reserve(1)?;
        self.receipts.insert(effect.ticket, instance)?;
        self.fed.push_reserved(effect.value);
        self.live = effect.site;
        if let Some(site) = effect.release {
            self.sites.push_reserved(site);
        }
        Ok(())
    }
}
