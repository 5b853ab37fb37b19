//! What a run says of a group, told turn by turn.
ghost use Rattle.std.specs.Prelude.{◌≡◌, []};
ghost use Rattle.rb_rules.specs.Goodness.{Scenario};
ghost use Rattle.rb_group_run.specs.Holding.{HasTold, IsScopeOf};

use crate::Query;
use crate::ports::{Ports, advance, first_ports};
use crate::report::write_turn;
use rb_outside::{Failed, Sink};
use rb_run::Teller;
use rb_world_book::Turn;

/// Tells what the good BIUs of a run find for a group of replicas. Once a frame is complete, that
/// is with the first turn of a later one, there is a line for each BIU that is good in the frame's
/// last data slot: the value that the voter finds among the first values that this BIU delivered in
/// the frame of each member. The last line is `end` or `breach`; a breach leaves the values of its
/// frame out.
#[derive(Drop)]
pub struct GroupReport<'a> {
    pub query: Query<'a>,
    pub ports: Ports,
}

impl<'a> GroupReport<'a> {
    /// Nothing was delivered anywhere. The scope must be that of the scenario whose run is told.
    pub fn new(query: Query<'a>) -> GroupReport<'a>
        ensures query { result.query ≡ query.entry }
        ensures fresh { (sc : Scenario) → IsScopeOf sc query.entry.scope.now
            → HasTold sc [] query.entry.scope.now query.entry.asked.now result.ports }
    {
        GroupReport {
            query,
            ports: first_ports(query.asked),
        }
    }
}

impl Teller for GroupReport<'_> {
    ghost use Rattle.std.specs.Prelude.{refl};
    ghost use Rattle.rb_group_run.specs.Holding.{HasTold};
    ghost use Rattle.rb_group_run.specs.Replies.{groups_text};

    ghost says = { λ report sc records. groups_text sc report.query.asked.now records };

    ghost has_told = { λ report sc records.
        HasTold sc records report.query.scope.now report.query.asked.now report.ports };

    ghost says_nothing = { λ _ _. refl };

    fn tell<K: Sink>(&mut self, turn: &Turn, output: &mut K) -> Result<(), Failed> {
        let Query { scope, asked, .. } = self.query;
        write_turn(turn, &self.ports, &self.query, output)?;
        advance(&mut self.ports, asked, scope.frames, turn);
        Ok(())
    }
}
