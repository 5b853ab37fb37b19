//! The parts of a node, on small cases.
#![tactic(auto, unfolding(rb_base::specs::Nodes::set_of, rb_base::specs::Nodes::set_below, rb_rules::specs::Spelling::message_in, rb_rules::specs::ExactStage::close_exact, rb_rules::specs::ExactStage::outcome_of, rb_rules::specs::SyncStage::close_sync, rb_rules::specs::SyncStage::sync_outcome_of, rb_rules::specs::Conviction::convicted_by))]

ghost use Rattle.std.specs.Prelude.{◌≡◌, ◌∷◌, [], true, false, map, take, is_some, Some, None};
ghost use Rattle.rb_base.specs.Nodes.{set_of};
ghost use Rattle.rb_base.specs.Nodes.Side.{Biu, Rmu};
ghost use Rattle.rb_base.specs.declared.values.Heard.TheVariants.{Word, Fault};
ghost use Rattle.rb_rules.specs.declared.message.Tag.TheVariants as tag;
ghost use Rattle.rb_rules.specs.declared.message.Version.TheVariants as version;
ghost use Rattle.rb_rules.specs.declared.role.Role.TheVariants.{Schedule, Data, DiagBiu, DiagRmu, Sync};
ghost use Rattle.rb_rules.specs.declared.sense.Sense.TheVariants.{Silent, One, Bad};
ghost use Rattle.rb_rules.specs.ExactStage.{says, keep_sent, close_exact};
ghost use Rattle.rb_rules.specs.Middle.{middle_of};
ghost use Rattle.rb_rules.specs.Owners.{owners_of};
ghost use Rattle.rb_rules.specs.Sense.{sense_of};
ghost use Rattle.rb_rules.specs.Slots.{role_of, sender_in, expects, expected_by};
ghost use Rattle.rb_rules.specs.Slots.Sender.{Nobody, Node, EachTrusted};
ghost use Rattle.rb_rules.specs.Standing.{is_eligible, vector_of, standing_at_end};
ghost use Rattle.rb_rules.specs.Spelling.{spelling_of};
ghost use Rattle.rb_rules.specs.SyncStage.{calls, close_sync, send_tick_of, new_epoch_of};
ghost use Rattle.rb_test_rules.specs.Parts.{sizes, plan, biu, rmu, expected, word_10, accused, two_frames_later, accused_anew, comes, that_heard, that_heard_nothing, relayed_by, relays, sender, bystander, that_voted, that_scheduled, in_data_slot, in_idle_slot, called, rmu_after, biu_after, convicted};

/// A word as bytes, in both versions of messages.
pub fn words_as_bytes()
    ensures a_word { spelling_of version.One
        (record { tag = tag.Word; frame = 1; slot = 4; stage = 1; value = 10 })
        ≡ (1 ∷ 0 ∷ 1 ∷ 0 ∷ 4 ∷ 1 ∷ 0 ∷ 0 ∷ 0 ∷ 10 ∷ 15 ∷ []) }
    ensures on_bus_5 { spelling_of (version.Two 5)
        (record { tag = tag.Word; frame = 1; slot = 4; stage = 1; value = 10 })
        ≡ (1 ∷ 0 ∷ 1 ∷ 0 ∷ 4 ∷ 1 ∷ 0 ∷ 0 ∷ 0 ∷ 10 ∷ 5 ∷ 10 ∷ []) }
{}

/// A call and a Fault as bytes.
pub fn calls_and_faults_as_bytes()
    ensures a_call { spelling_of version.One
        (record { tag = tag.Sync; frame = 0; slot = 19; stage = 2; value = 0 })
        ≡ (3 ∷ 0 ∷ 0 ∷ 0 ∷ 19 ∷ 2 ∷ 0 ∷ 0 ∷ 0 ∷ 0 ∷ 18 ∷ []) }
    ensures a_fault { spelling_of version.One
        (record { tag = tag.Fault; frame = 65535; slot = 5; stage = 3; value = 0 })
        ≡ (2 ∷ 255 ∷ 255 ∷ 0 ∷ 5 ∷ 3 ∷ 0 ∷ 0 ∷ 0 ∷ 0 ∷ 4 ∷ []) }
{}

/// What the arrivals of one source are worth: none, one, and more.
pub fn arrivals_of_a_source()
    ensures no_arrival { sense_of expected [] ≡ Silent }
    ensures one_arrival { sense_of expected (word_10 70 5 10 ∷ [])
        ≡ One 70 (record { tag = tag.Word; frame = 1; slot = 4; stage = 1; value = 10 }) }
    ensures two_arrivals { sense_of expected (word_10 70 5 10 ∷ word_10 71 5 10 ∷ []) ≡ Bad }
{}

/// What comes from another bus, for another stage, or as a word in the sync slot is Bad.
pub fn arrivals_out_of_place()
    ensures of_another_bus { sense_of expected (word_10 70 6 9 ∷ []) ≡ Bad }
    ensures of_another_stage { sense_of (record expected { stage = 2 }) (word_10 70 5 10 ∷ [])
        ≡ Bad }
    ensures word_in_the_sync_slot { sense_of (record expected { sync = true })
        (word_10 70 5 10 ∷ []) ≡ Bad }
{}

/// Whom a node trusts and accuses, and from whom it accepts messages.
pub fn accused_nodes()
    ensures sets { (accused.trusted ∷ accused.direct ∷ accused.mismatch ∷ accused.fresh ∷ [])
        ≡ (7 ∷ 2 ∷ 4 ∷ 2 ∷ []) }
    ensures vector { vector_of accused ≡ 6 }
    ensures eligible { map (is_eligible accused) (0 ∷ 1 ∷ 2 ∷ 3 ∷ [])
        ≡ (true ∷ false ∷ true ∷ false ∷ []) }
{}

/// With a probation of one frame an accusation is there at the end of its own frame and lapses at
/// the end of the next. One by mismatch stays.
pub fn probation_of_one_frame()
    ensures own_frame { (standing_at_end 1 accused).direct ≡ 2 }
    ensures next_frame { (standing_at_end 1 (standing_at_end 1 accused)).direct ≡ 0 }
    ensures mismatch_stays { (standing_at_end 1 (standing_at_end 1 accused)).mismatch ≡ 4 }
{}

/// With a probation of two frames an accusation lapses a frame later, and new evidence starts the
/// count anew.
pub fn probation_of_two_frames()
    ensures after_two { (two_frames_later accused).direct ≡ 2 }
    ensures after_three { (standing_at_end 2 (two_frames_later accused)).direct ≡ 0 }
    ensures counted_anew { (two_frames_later (accused_anew (two_frames_later accused))).direct ≡ 2 }
{}

/// Of four senders three must name a node: a tie convicts nobody. A vector of a convicted sender,
/// one that names a node that there is not, and a Fault count for nothing.
pub fn convicted_nodes()
    ensures most { convicted 15 (Word 2 ∷ Word 2 ∷ Word 0 ∷ Word 2 ∷ []) ≡ 2 }
    ensures tie { convicted 15 (Word 2 ∷ Word 2 ∷ Word 0 ∷ Word 0 ∷ []) ≡ 0 }
    ensures only_valid { convicted 14 (Word 0 ∷ Word 8 ∷ Word 2 ∷ Fault ∷ []) ≡ 2 }
{}

/// What slots are for, and who sends in them. BIU 1 is convicted, and the data slots 0 and 1 are
/// those of BIUs 0 and 3.
pub fn slots_and_senders()
    ensures roles { map (role_of sizes) (0 ∷ 3 ∷ 4 ∷ 11 ∷ 12 ∷ 15 ∷ 16 ∷ 18 ∷ 19 ∷ [])
        ≡ (Schedule 0 ∷ Schedule 3 ∷ Data 0 ∷ Data 7 ∷ DiagBiu 0 ∷ DiagBiu 3 ∷ DiagRmu 0
        ∷ DiagRmu 2 ∷ Sync ∷ []) }
    ensures senders { map (sender_in 13 3 (0 ∷ 3 ∷ []))
        (Schedule 0 ∷ Schedule 1 ∷ Data 1 ∷ Data 2 ∷ Sync ∷ [])
        ≡ (Node 0 ∷ Nobody ∷ Node 3 ∷ Nobody ∷ EachTrusted ∷ []) }
{}

/// A diagnosis slot depends on the trust in its own sender. BIU 1 and RMU 2 are convicted: RMU 1
/// and BIU 2 have theirs.
pub fn senders_of_diagnosis_slots()
    ensures { map (sender_in 13 3 []) (DiagBiu 1 ∷ DiagBiu 2 ∷ DiagRmu 1 ∷ DiagRmu 2 ∷ [])
        ≡ (Nobody ∷ Node 2 ∷ Node 1 ∷ Nobody ∷ []) }
{}

/// Which nodes the nodes of each kind expect in the stages of a schedule slot, if BIU 1 is
/// convicted.
pub fn expected_in_a_schedule_slot()
    ensures schedule_slot_at_rmus { map
        (λ stage. set_of (expects Rmu (Schedule 2) (Node 2) 13 stage)) (1 ∷ 2 ∷ 3 ∷ [])
        ≡ (4 ∷ 0 ∷ 13 ∷ []) }
    ensures schedule_slot_at_bius { map
        (λ stage. set_of (expects Biu (Schedule 2) (Node 2) 7 stage)) (1 ∷ 2 ∷ 3 ∷ [])
        ≡ (0 ∷ 7 ∷ 0 ∷ []) }
{}

/// Which nodes the RMUs expect in the stages of a data slot, and in stage 1 of several slots.
pub fn expected_by_rmus()
    ensures data_slot_at_rmus { map (λ stage. set_of (expects Rmu (Data 0) (Node 2) 13 stage))
        (1 ∷ 2 ∷ 3 ∷ []) ≡ (4 ∷ 0 ∷ 0 ∷ []) }
    ensures stage_1_by_slot { map (λ slot. expected_by sizes Rmu slot 1 (0 ∷ 3 ∷ 2 ∷ []) 13 7)
        (1 ∷ 5 ∷ 6 ∷ 19 ∷ []) ≡ (0 ∷ 8 ∷ 4 ∷ 13 ∷ []) }
{}

/// Which nodes the nodes of each kind expect in the stages of the sync slot, if BIU 1 is convicted.
pub fn expected_in_the_sync_slot()
    ensures sync_slot_at_rmus { map (λ stage. set_of (expects Rmu Sync EachTrusted 13 stage))
        (1 ∷ 2 ∷ 3 ∷ 4 ∷ []) ≡ (13 ∷ 0 ∷ 13 ∷ 0 ∷ []) }
    ensures sync_slot_at_bius { map (λ stage. set_of (expects Biu Sync EachTrusted 7 stage))
        (1 ∷ 2 ∷ 3 ∷ 4 ∷ []) ≡ (0 ∷ 7 ∷ 0 ∷ 0 ∷ []) }
{}

/// Owners of eight data slots: two are left over; one BIU asks for more than there are; BIU 0 is
/// convicted and the request of BIU 3 is not known.
pub fn owners_of_data_slots()
    ensures few { owners_of sizes 15 (Word 3 ∷ Word 1 ∷ Word 0 ∷ Word 2 ∷ [])
        ≡ (0 ∷ 1 ∷ 3 ∷ 0 ∷ 3 ∷ 0 ∷ []) }
    ensures greedy { owners_of sizes 15 (Word 1 ∷ Word 1 ∷ Word 4294967295 ∷ Word 1 ∷ [])
        ≡ (0 ∷ 1 ∷ 2 ∷ 3 ∷ 2 ∷ 2 ∷ 2 ∷ 2 ∷ []) }
    ensures convicted { owners_of sizes 14 (Word 2 ∷ Word 2 ∷ Word 1 ∷ Fault ∷ [])
        ≡ (1 ∷ 2 ∷ 1 ∷ []) }
{}

/// Stage 1: the sender alone says its request, and keeps it.
pub fn first_stage_of_a_slot()
    ensures request_is_said { says sizes Biu 0 biu 0 1 2 ≡ Some (Word 2) }
    ensures kept { (keep_sent sizes Biu 0 biu 0 1 2).sent ≡ Some (Word 2) }
    ensures others { (says sizes Biu 1 biu 0 1 2 ∷ says sizes Rmu 0 rmu 0 1 2 ∷ [])
        ≡ (None ∷ None ∷ []) }
{}

/// Stage 2: an RMU relays what it took. One that took nothing accuses the sender and relays Fault.
pub fn relays_of_a_request()
    ensures request_is_relayed { map (λ st. says sizes Rmu 0 st 0 2 0)
        (that_heard ∷ that_heard_nothing ∷ [])
        ≡ (Some (Word 2) ∷ Some Fault ∷ []) }
    ensures silence_is_accused { map (λ st. st.far.direct) (that_heard ∷ that_heard_nothing ∷ [])
        ≡ (0 ∷ 1 ∷ []) }
{}

/// A sender that is accused by mismatch alone is relayed as ever, one that is accused directly is
/// not.
pub fn relays_of_an_accused_sender()
    ensures after_mismatch { relayed_by (record rmu { far = record rmu.far { mismatch = 1 } })
        ≡ Some (Word 2) }
    ensures after_direct { relayed_by (record rmu { far = record rmu.far { direct = 1 } })
        ≡ Some Fault }
{}

/// At the close of stage 2 BIUs vote, and they repeat the vote in stage 3. The sender accuses by
/// mismatch who differs from what it sent. Fault counts as a value.
pub fn votes_of_bius()
    ensures repeated { map (λ st. says sizes Biu 3 st 0 3 0) (sender ∷ bystander ∷ [])
        ≡ (Some (Word 2) ∷ Some (Word 2) ∷ []) }
    ensures accused_by_the_sender { map (λ st. st.far.mismatch) (sender ∷ bystander ∷ [])
        ≡ (4 ∷ 0 ∷ []) }
    ensures fault_counts { (close_exact sizes Biu 3 biu 0 2
        (comes 0 2 (Some Fault ∷ Some Fault ∷ Some (Word 2) ∷ []))).state.votes
        ≡ biu.votes }
{}

/// At the close of stage 3 RMUs vote, and accuse by mismatch who differs from the vote. After the
/// last schedule slot the schedule is there.
pub fn votes_of_rmus()
    ensures voted_by_rmus { take 2 that_voted.votes ≡ (Word 2 ∷ Fault ∷ []) }
    ensures accused_by_rmus { that_voted.far.mismatch ≡ 4 }
    ensures schedule_stands { that_scheduled.owners ≡ (0 ∷ 1 ∷ 3 ∷ 0 ∷ 3 ∷ 0 ∷ []) }
{}

/// In a data slot the vote is delivered, and who was silent is accused. In an idle slot nothing is
/// delivered, and who spoke is accused.
pub fn deliveries_of_data_slots()
    ensures delivered { in_data_slot.closed.delivered
        ≡ Some (record { frame = 0; slot = 5; sender = 1; value = Word 20 }) }
    ensures silent_relay_is_accused { in_data_slot.state.far.direct ≡ 4 }
    ensures idle { in_idle_slot.closed.delivered ≡ None }
    ensures speaking_is_accused { in_idle_slot.state.far.direct ≡ 3 }
{}

/// Who calls in which stage of the sync slot.
pub fn callers_in_the_sync_slot()
    ensures of_bius { map (λ stage. is_some (calls sizes Biu biu stage)) (1 ∷ 2 ∷ 3 ∷ 4 ∷ [])
        ≡ (true ∷ false ∷ true ∷ false ∷ []) }
    ensures of_rmus { map (λ stage. is_some (calls sizes Rmu rmu stage)) (1 ∷ 2 ∷ 3 ∷ 4 ∷ [])
        ≡ (false ∷ true ∷ false ∷ false ∷ []) }
{}

/// The ticks at which an RMU calls in the sync slot, and at which it sends below it.
pub fn ticks_of_calls()
    ensures ticks { map (send_tick_of sizes plan (record rmu { k1 = Some 862 }) 19) (1 ∷ 2 ∷ 3 ∷ [])
        ≡ (Some 861 ∷ Some 877 ∷ None ∷ []) }
    ensures below_the_sync_slot { send_tick_of sizes plan rmu 5 2 ≡ Some 246 }
{}

/// Middles of stamps: a BIU that calls early, an RMU that calls at the first or the last tick of
/// the window, four stamps, and none.
pub fn middles_of_stamps()
    ensures early_first { middle_of (861 ∷ 862 ∷ 862 ∷ 862 ∷ []) ≡ Some 862 }
    ensures early_last { middle_of (894 ∷ 897 ∷ 897 ∷ 897 ∷ []) ≡ Some 897 }
    ensures at_the_first_tick { middle_of (870 ∷ 878 ∷ 878 ∷ []) ≡ Some 878 }
    ensures at_the_last_tick { middle_of (878 ∷ 887 ∷ 878 ∷ []) ≡ Some 878 }
    ensures of_four_stamps { middle_of (4 ∷ 1 ∷ 3 ∷ 2 ∷ []) ≡ Some 2 }
    ensures of_no_stamp { middle_of [] ≡ None }
{}

/// Middles that nodes keep: of four stamps the second least; if nothing is taken the window's first
/// tick; who does not listen takes none. Who is silent, or speaks where nobody listens, is accused.
pub fn middles_of_nodes()
    ensures of_four { (rmu_after (864 ∷ 861 ∷ 870 ∷ 862 ∷ [])).k1 ≡ Some 862 }
    ensures silence_is_accused { (rmu_after (864 ∷ 861 ∷ 870 ∷ [])).far.direct ≡ 8 }
    ensures of_none { (close_sync sizes Biu biu 2 870 (called 2 [])).state.k2 ≡ Some 870 }
    ensures not_listening { (biu_after (864 ∷ [])).k1 ≡ None }
    ensures speaking_is_accused { (biu_after (864 ∷ [])).far.direct ≡ 1 }
{}

/// If each call is stamped one tick after it is sent, the middles are 862, 878 and 897, and the
/// next epochs are one.
pub fn next_epochs()
    ensures at_a_biu { new_epoch_of plan Biu (record biu { k2 = Some 878 }) ≡ Some 917 }
    ensures at_an_rmu { new_epoch_of plan Rmu (record rmu { k3 = Some 897 }) ≡ Some 917 }
{}
