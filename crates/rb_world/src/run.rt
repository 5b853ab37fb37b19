//! A run under way.
use crate::Site;
use crate::bus::Bus;
use crate::scene::Scene;
use rb_base::{Biu, NodeName, Rmu};
use rb_port::Apps;

/// The nodes of a run, and what surrounds them.
#[derive(Drop)]
pub struct Run {
    pub bius: Vec<Site<Biu>>,
    pub rmus: Vec<Site<Rmu>>,
    pub scene: Scene,
}

/// What stays while a run goes on to its next record: the bus, the applications, and which node is
/// observed, if one is.
#[derive(Clone, Copy)]
pub struct Setup<'a> {
    pub bus: &'a Bus,
    pub apps: &'a Apps,
    pub observed: Option<NodeName>,
}
