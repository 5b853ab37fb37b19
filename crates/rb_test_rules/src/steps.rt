//! Single steps of a core and of a world, at the edges of the rules.
#![tactic(auto, unfolding(rb_base::specs::Nodes::set_of, rb_base::specs::Nodes::set_below, rb_rules::specs::Spelling::message_in, rb_rules::specs::ExactStage::close_exact, rb_rules::specs::ExactStage::outcome_of, rb_rules::specs::SyncStage::close_sync, rb_rules::specs::SyncStage::sync_outcome_of, rb_rules::specs::Conviction::convicted_by, rb_rules::specs::Conviction::turn, rb_rules::specs::Links::delay_of, rb_rules::specs::Hearing::sending, rb_rules::specs::Hearing::row_of, rb_rules::specs::Core::arrive, rb_rules::specs::Core::state_at, rb_rules::specs::Core::said_at, rb_rules::specs::Core::act_on, rb_rules::specs::Core::act_at, rb_rules::specs::Core::tick, rb_rules::specs::Core::wants, rb_rules::specs::Core::is_busy, rb_rules::specs::WorldStep::ready_at, rb_rules::specs::WorldStep::due_of, rb_rules::specs::WorldStep::says_in, rb_rules::specs::WorldStep::proceed, rb_rules::specs::WorldStep::hand, rb_rules::specs::WorldStep::event_at, rb_rules::specs::WorldStep::first_world))]

ghost use Rattle.std.specs.Prelude.{◌≡◌, ◌∷◌, [], length, true, false, map, Some, None};
ghost use Rattle.rb_base.specs.Nodes.Side.{Biu, Rmu};
ghost use Rattle.rb_base.specs.declared.event.EventKind.TheVariants as kind;
ghost use Rattle.rb_base.specs.declared.node.NodeName.TheVariants as node;
ghost use Rattle.rb_base.specs.declared.values.Heard.TheVariants.{Word};
ghost use Rattle.rb_base.specs.declared.values.See.TheVariants.{Nothing, Value, Time};
ghost use Rattle.rb_rules.specs.declared.message.Tag.TheVariants as tag;
ghost use Rattle.rb_rules.specs.Conviction.{turn};
ghost use Rattle.rb_rules.specs.Core.{arrive, is_spent, next_tick, slot_wanted, tick};
ghost use Rattle.rb_rules.specs.Entries.{is_said};
ghost use Rattle.rb_rules.specs.Hearing.{judged_see, sole_time};
ghost use Rattle.rb_rules.specs.WorldStep.{due_of, event_at, event_of, hand, ready_at};
ghost use Rattle.rb_rules.specs.WorldStep.{stop, with_close, with_message};
ghost use Rattle.rb_rules.specs.WorldStep.Pending.{Arrival, Tick};
ghost use Rattle.rb_test_rules.specs.Buses.{plan};
ghost use Rattle.rb_test_rules.specs.Cores.{usual_sizes};
ghost use Rattle.rb_test_rules.specs.Ordinary.{ordinary_use, smallest_bus};
ghost use Rattle.rb_test_rules.specs.Parts.{biu, rmu};
ghost use Rattle.rb_test_rules.specs.Steps.{after_both_told, all_but_one_run, at_frame, at_slot, at_the_last_tick, broken_world, call_in_tail, core_after, empty_at, faulty_bus, in_time, own_slot, own_slot_by_last_ticks, row_of_stage_3, short_tail, small_world, tail_closed, tick_of_nobody, too_late, vector_at_the_last_tick, waiting, word_in_stage};

/// A core remembers what it sent in its own slot until stage 2 is closed, also if it sends in the
/// window's last tick: the one RMU that relays another value is accused by mismatch.
pub fn own_slot_of_a_core()
    ensures accused { own_slot.state.far.mismatch ≡ 4 }
    ensures nobody_directly { own_slot.state.far.direct ≡ 0 }
    ensures by_last_ticks { own_slot_by_last_ticks.state.far.mismatch ≡ 4 }
{}

/// A node says its message before it closes the window that ends with the same tick: its vector
/// does not name the RMU that it then accuses.
pub fn message_before_the_close()
    ensures said { vector_at_the_last_tick.message
        ≡ Some (record { tag = tag.Word; frame = 0; slot = 12; stage = 1; value = 0 }) }
    ensures accused_at_the_close { vector_at_the_last_tick.core.state.far.direct ≡ 1 }
{}

/// A request with the stamp of the window's last tick is in time. One tick later it is too late,
/// and counts to the next window.
pub fn requests_at_the_last_tick()
    ensures in_time_taken { in_time.state.got ≡ Some (Word 2) }
    ensures in_time_accused { in_time.state.far.direct ≡ 0 }
    ensures late_taken { too_late.state.got ≡ None }
    ensures late_accused { too_late.state.far.direct ≡ 1 }
    ensures late_gone { length too_late.inbox ≡ 0 }
{}

/// After 2^31 ticks nothing changes a core any more.
pub fn spent_cores()
    ensures spent { map (λ n. is_spent (core_after n)) (2147483647 ∷ 2147483648 ∷ [])
        ≡ (false ∷ true ∷ []) }
    ensures arrivals { map (λ n. length (arrive usual_sizes Biu (core_after n) 0 []).inbox)
        (2147483647 ∷ 2147483648 ∷ []) ≡ (1 ∷ 0 ∷ []) }
    ensures ticks { (tick usual_sizes plan Biu 0 (core_after 2147483648) 0).core.had ≡ 2147483648 }
{}

/// Nothing arrives from a node that there is not.
pub fn arrival_from_nobody()
    ensures { length (arrive usual_sizes Biu (core_after 0) 3 []).inbox ≡ 0 }
{}

/// A word is wanted for stage 1 of schedule and data slots alone.
pub fn words_wanted()
    ensures by_stage { map (λ stage. slot_wanted usual_sizes (word_in_stage 5 stage))
        (1 ∷ 2 ∷ 3 ∷ []) ≡ (Some 5 ∷ None ∷ None ∷ []) }
    ensures by_slot { map (λ slot. slot_wanted usual_sizes (word_in_stage slot 1))
        (0 ∷ 11 ∷ 12 ∷ 16 ∷ 19 ∷ [])
        ≡ (Some 0 ∷ Some 11 ∷ None ∷ None ∷ None ∷ []) }
{}

/// A faulty node is heard up to the last tick of a tail, and not past it.
pub fn calls_in_a_tail()
    ensures { map (λ offset. is_said Rmu 0 1 short_tail (call_in_tail offset))
        (0 ∷ 2 ∷ 3 ∷ [])
        ≡ (true ∷ true ∷ false ∷ []) }
{}

/// No state is handed in but at the start of a frame, and none to a BIU that is not good there.
pub fn states_not_handed_in()
    ensures at_first { map (λ p. p.state) (hand smallest_bus small_world 0 77).ports ≡ (7 ∷ []) }
    ensures after_a_slot { map (λ p. p.state) (hand smallest_bus at_slot 0 77).ports ≡ (7 ∷ []) }
    ensures to_a_faulty_biu { map (λ p. p.state) (hand faulty_bus at_frame 0 77).ports ≡ (7 ∷ []) }
{}

/// A state is handed in at the start of a frame.
pub fn states_handed_in()
    ensures after_the_frame { map (λ p. p.state) (hand smallest_bus at_frame 0 77).ports
        ≡ (77 ∷ []) }
    ensures told { length (hand smallest_bus at_frame 0 77).hands ≡ 1 }
{}

/// A message goes to the nodes of the other kind that still run.
pub fn receivers_of_a_message()
    ensures rmus { map (λ s. length s.coming)
        (with_message ordinary_use Biu 0 0 6 (word_in_stage 0 1) all_but_one_run).rmus
        ≡ (1 ∷ 0 ∷ 1 ∷ []) }
    ensures bius { map (λ s. length s.coming)
        (with_message ordinary_use Biu 0 0 6 (word_in_stage 0 1) all_but_one_run).bius
        ≡ (0 ∷ []) }
{}

/// A tick waits for all arrivals of its time, which are taken by sender.
pub fn ticks_after_arrivals()
    ensures arrivals { map (λ d. d.pending) (ready_at usual_sizes 30 Rmu 0 waiting)
        ≡ (Arrival 1 (empty_at 30 0) ∷ Arrival 0 (empty_at 30 1) ∷ []) }
    ensures its_tick { map (λ d. d.pending)
        (ready_at usual_sizes 30 Rmu 0 (record waiting { coming = empty_at 31 0 ∷ [] }))
        ≡ (Tick 3 ∷ []) }
{}

/// What happens first, as it is shown: a tick at each node, and no more.
pub fn ticks_as_shown()
    ensures first_tick { event_at smallest_bus small_world 0
        ≡ Some (record { node = node.Biu 0; quiet = 0; kind = kind.Tick 0 false }) }
    ensures last_of_them { event_at smallest_bus small_world 1
        ≡ Some (record { node = node.Rmu 0; quiet = 0; kind = kind.Tick 0 false }) }
    ensures no_more { event_at smallest_bus small_world 2 ≡ None }
{}

/// A tick is shown with the request that is wanted, and an arrival with its bytes. Before both are
/// the quiet ticks that pass.
pub fn events_as_shown()
    ensures request { event_of smallest_bus small_world.ports Biu 0 (core_after 1) (Tick 6)
        ≡ record { node = node.Biu 0; quiet = 5; kind = kind.Tick 1 true } }
    ensures arrival { event_of smallest_bus small_world.ports Biu 0 (core_after 1)
        (Arrival 0 (empty_at 30000 0))
        ≡ record { node = node.Biu 0; quiet = 2; kind = kind.Arrive 0 (record { items = [] }) } }
{}

/// What a node shows of a source: nothing, a value, or for a stamp the reference time of its sole
/// message.
pub fn sights_as_shown()
    ensures sights { map (judged_see 95000) (Nothing ∷ Value (Word 2) ∷ Time 10 ∷ [])
        ≡ (Nothing ∷ Value (Word 2) ∷ Time 95000 ∷ []) }
    ensures times { map sole_time
        ([] ∷ (empty_at 95000 0 ∷ []) ∷ (empty_at 95000 0 ∷ empty_at 95001 0 ∷ []) ∷ [])
        ≡ (0 ∷ 95000 ∷ 0 ∷ []) }
{}

/// A core that has had 2^31 ticks has no next one. A node counts its frames past 65535, though
/// messages do not.
pub fn numbers_of_a_core()
    ensures last_tick { next_tick usual_sizes plan Biu 0 at_the_last_tick ≡ None }
    ensures frame_65536 { (turn usual_sizes 0 Biu 917 (record biu { frame = 65535 })).frame
        ≡ 65536 }
{}

/// What is dropped in a world, and what stays.
pub fn what_is_dropped()
    // After a breach nothing is due, and what was on its way to a node that stops does not come.
    ensures after_a_breach { due_of smallest_bus broken_world ≡ [] }
    ensures stopped { length (stop waiting).coming ≡ 0 }
    // The close of the tail leaves what the node told of a stage.
    ensures in_the_tail { (with_close Rmu 0 rmu (Some tail_closed)
        (record waiting { row = row_of_stage_3 })).row
        ≡ row_of_stage_3 }
{}

/// One event settles a stage and the frame after it, if all nodes have told of both. A state that
/// is handed in at a frame's record is for this frame.
pub fn settled_and_handed()
    ensures stage_and_frame { length (after_both_told tick_of_nobody).book.given ≡ 1 }
    ensures handed { map (λ h. h.frame) (hand smallest_bus at_frame 0 77).hands ≡ (0 ∷ []) }
{}
