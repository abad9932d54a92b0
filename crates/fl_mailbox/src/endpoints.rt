//! The open endpoints of a process.
ghost use Rattle.std.specs.Option.{option_copied};
ghost use Rattle.std.specs.Prelude.{◌≡◌, true, false, None, Some, is_some, OnOk, OnErr};
ghost use Rattle.std.specs.FinMap as map;
ghost use Rattle.fl_rules.specs.Pair as pairs;
ghost use Rattle.fl_mailbox.specs.Endpoints.{end_of, IsOpen, IsLeastFree};

use fl_labels::endpoint::{Endpoint, LAST_ENDPOINT};
use fl_rules::endpoint::Mode;
use fl_rules::labels::Labels;
use fl_rules::pair::EndRef;
use std::alloc::{AllocError, Global};
use std::collections::BTreeMap;
use std::collections::btree_map::Iter;
use std::marker::Model;

/// An open endpoint.
#[derive(Debug, Drop)]
pub struct OpenEndpoint {
    pub mode: Mode,
    pub labels: Labels,
}

impl OpenEndpoint {
    /// The endpoint, with its labels on loan.
    pub fn lend(&self) -> EndRef<'_>
        ensures { pairs.end_of result ≡ end_of self.now }
    {
        EndRef {
            mode: self.mode,
            labels: self.labels.lend(),
        }
    }
}

/// The open endpoints of a process, by number.
#[derive(Debug, Drop)]
pub struct Endpoints {
    all: BTreeMap<Endpoint, OpenEndpoint>,
}

impl Model for Endpoints {
    ghost use Rattle.std.specs.FinMap as map;
    ghost use Rattle.fl_labels.specs.Endpoint.{coded_endpoint};
    ghost use Rattle.fl_mailbox.specs.Endpoints.{Table};
    ghost use Rattle.fl_mailbox.specs.contracts.endpoints.OpenEndpoint as opened_row;

    ghost Value = { Table };

    ghost coded = { map.code coded_endpoint (opened_row.the_row).coded };

    ghost view = { λ a. map.from_entries a.all.entries };
}

impl Endpoints {
    /// None. Takes no memory.
    pub fn new(alloc: Global) -> Self
        ensures { result ≡ map.empty }
    {
        Endpoints {
            all: BTreeMap::new(alloc),
        }
    }

    /// The open endpoint that is called so, or none.
    pub fn get(&self, endpoint: Endpoint) -> Option<&OpenEndpoint>
        ensures { option_copied result ≡ map.get self.now endpoint }
    {
        self.all.get(&endpoint)
    }

    /// Whether no endpoint is open.
    pub fn is_empty(&self) -> bool
        ensures none { result ≡ true → (e : Endpoint) → map.get self.now e ≡ None }
        ensures some { result ≡ false → (e : Endpoint) × IsOpen self.now e }
    {
        self.all.is_empty()
    }

    /// The open endpoints, in order.
    pub fn iter(&self) -> Iter<'_, Endpoint, OpenEndpoint>
        ensures { result ≡ map.entries self.now }
    {
        self.all.iter()
    }

    /// The least endpoint that is not open, or none where each is. At most 64 searches by order.
    pub fn least_free(&self) -> Option<Endpoint>
        ensures { IsLeastFree self.now result }
    {
        for number in 1..=LAST_ENDPOINT {
            let endpoint = Endpoint { number };
            if !self.all.contains_key(&endpoint) {
                return Some(endpoint);
            }
        }
        None
    }

    /// Opens an endpoint, in the place of an open one that is called so. Fails only where there is
    /// not enough memory, and leaves all as it was then.
    pub fn insert(&mut self, endpoint: Endpoint, opened: OpenEndpoint) -> Result<(), AllocError>
        ensures ok { OnOk result (self.new ≡ map.insert self.old endpoint opened) }
        ensures err { OnErr result (self.new ≡ self.old) }
    {
        self.all.insert(endpoint, opened)?;
        Ok(())
    }

    /// Gives an open endpoint these labels in the place of its own. Leaves all as it was where it
    /// is not open. Takes no memory.
    pub fn set_labels(&mut self, endpoint: Endpoint, labels: Labels)
        ensures there { (opened : OpenEndpoint) → map.get self.old endpoint ≡ Some opened →
            self.new ≡ map.insert self.old endpoint (record opened { labels = labels }) }
        ensures absent { map.get self.old endpoint ≡ None → self.new ≡ self.old }
    {
        let Some(opened) = self.all.get_mut(&endpoint) else {
            return;
        };
        opened.labels = labels;
    }

    /// Closes an endpoint, and answers whether it was open. Takes no memory.
    pub fn remove(&mut self, endpoint: Endpoint) -> bool
        ensures after { self.new ≡ map.remove self.old endpoint }
        ensures was { result ≡ is_some (map.get self.old endpoint) }
    {
        self.all.remove(&endpoint).is_some()
    }
}
