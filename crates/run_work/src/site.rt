//! The nodes of a run and the inboxes of their replicas.
ghost use Rattle.std.specs.Prelude.{◌≡◌, ◌<◌, ◌≤◌, slice_get, Some};
ghost use Rattle.tact_base.specs.Setup.{IsSetup};
ghost use Rattle.tact_base.specs.declared.limits.TheConstants.{REPLICAS_MAX};
ghost use Rattle.run_work.specs.Sites.{IsInboxAt, IsNodeAt};

use postbox::Postbox;
use replica_lock::Node;
use run_history::Desk;
use std::marker::Model;
use tact_io::{Gate, Journal};

/// The node and the inbox of each replica of a desk, by number.
#[derive(Drop)]
pub(crate) struct Sites<'d, 'g, J: Journal, G: Gate> {
    pub(crate) desk: &'d Desk,
    pub(crate) conits: u32,
    pub(crate) nodes: Vec<Node<'d, J, &'g G>>,
    pub(crate) inboxes: Vec<Postbox>,
}

impl<'d, 'g, J: Journal, G: Gate> Model for Sites<'d, 'g, J, G> {
    ghost use Rattle.std.specs.Prelude.{◌≡◌};
    ghost use Rattle.run_work.specs.Sites.{AreSites, SitesView};

    ghost Value = { SitesView };

    ghost view = { λ s. record { desk = s.desk.now; nodes = s.nodes.items; inboxes = s.inboxes.items } };

    ghost invariant = { λ s. (s.conits ≡ s.desk.now.setup.conits) × AreSites (record { desk = s.desk.now; nodes = s.nodes.items; inboxes = s.inboxes.items }) };
}

impl<'d, 'g, J: Journal, G: Gate> Sites<'d, 'g, J, G> {
    /// The desk of the run.
    pub(crate) fn desk(&self) -> &'d Desk
        ensures { result.now ≡ self.now.desk }
    {
        self.desk
    }

    /// How many replicas there are.
    pub(crate) fn count(&self) -> u32
        ensures count { result ≡ self.now.desk.setup.replicas }
        ensures few { result ≤ REPLICAS_MAX }
    {
        self.nodes.len() as u32
    }

    /// How many conits there are.
    pub(crate) fn conits(&self) -> u32
        ensures count { result ≡ self.now.desk.setup.conits }
        ensures sound { IsSetup self.now.desk.setup }
    {
        self.conits
    }

    /// The node of a replica.
    pub(crate) fn node(&self, replica: u32) -> &Node<'d, J, &'g G>
        requires { replica < self.now.desk.setup.replicas }
        ensures node { slice_get self.now.nodes replica ≡ Some result.now }
        ensures at { IsNodeAt self.now.desk replica result.now }
    {
        &self.nodes[replica as usize]
    }

    /// The inbox of a replica.
    pub(crate) fn inbox(&self, replica: u32) -> &Postbox
        requires { replica < self.now.desk.setup.replicas }
        ensures at { IsInboxAt self.now.desk replica result.now }
    {
        &self.inboxes[replica as usize]
    }
}
