//! Nodes that are silent or lie, and one that says more than any document lists.
#![tactic(auto, unfolding(rb_base::specs::Nodes::set_of, rb_base::specs::Nodes::set_below, rb_base::specs::Nodes::size, rb_rules::specs::Spelling::message_in, rb_rules::specs::ExactStage::close_exact, rb_rules::specs::ExactStage::outcome_of, rb_rules::specs::SyncStage::close_sync, rb_rules::specs::SyncStage::sync_outcome_of, rb_rules::specs::Conviction::convicted_by, rb_rules::specs::Conviction::turn, rb_rules::specs::Links::delay_of, rb_rules::specs::Judging::classes_of, rb_rules::specs::Judging::verdict_of, rb_rules::specs::Hearing::sending, rb_rules::specs::Hearing::heard_from, rb_rules::specs::Hearing::row_of, rb_rules::specs::Book::with_stage, rb_rules::specs::Book::with_frame, rb_rules::specs::Rounds::sent_in, rb_rules::specs::Rounds::close_on, rb_rules::specs::Rounds::go_through, rb_rules::specs::Rounds::results_of, rb_rules::specs::Rounds::after_window, rb_rules::specs::Rounds::begin_frame, rb_rules::specs::Rounds::step))]

ghost use Rattle.std.specs.Prelude.{◌≡◌, []};
ghost use Rattle.rb_rules.specs.Rounds.{records_of};
ghost use Rattle.rb_test_rules.specs.Floods.{flooding_rmu};
ghost use Rattle.rb_test_rules.specs.Lies.{silent_rmu, silent_rmu_records, symmetric_rmu, symmetric_rmu_records, asymmetric_sender, asymmetric_sender_records, no_majority, no_majority_records, two_sided, two_sided_records, too_few_good, too_few_good_records, message_in_time, message_in_time_records, message_too_late, message_too_late_records, ill_formed_messages, ill_formed_messages_records, greedy_biu, greedy_biu_records, nobody_good, nobody_good_records};

/// One RMU is silent or lies.
pub fn one_faulty_rmu()
    // It is silent: the words come all the same, and all convict it.
    ensures silent_rmu { records_of silent_rmu [] ≡ silent_rmu_records }
    // It relays a wrong word alike to all: the words come all the same, each sender accuses it, and
    // all convict it.
    ensures symmetric_rmu { records_of symmetric_rmu [] ≡ symmetric_rmu_records }
{}

/// One RMU, of which all else is right, relays a request in the last tick of the window.
pub fn one_rmu_at_the_last_tick()
    // Nobody accuses it.
    ensures message_in_time { records_of message_in_time [] ≡ message_in_time_records }
    // The relay comes in that tick at one BIU, and one tick later at the three others: these accuse
    // the RMU, and all convict it.
    ensures message_too_late { records_of message_too_late [] ≡ message_too_late_records }
{}

/// One BIU lies, or asks for too much.
pub fn one_faulty_biu()
    // It says another word to one RMU in its data slot: all good BIUs deliver what the other RMUs
    // relay, and all convict it.
    ensures asymmetric_sender { records_of asymmetric_sender [] ≡ asymmetric_sender_records }
    // It says three different words: all good BIUs deliver none.
    ensures no_majority { records_of no_majority [] ≡ no_majority_records }
    // It asks for more slots than there are, and falls silent: the others have their slots, and
    // deliver none in those of the greedy one.
    ensures greedy_biu { records_of greedy_biu [] ≡ greedy_biu_records }
{}

/// Several nodes are silent or lie.
pub fn several_faulty_nodes()
    // A BIU and then an RMU lie unlike: the run ends with the breach of the fault premise.
    ensures two_sided { records_of two_sided [] ≡ two_sided_records }
    // Two of three RMUs lie: the run ends with the breach, in the stage in which something is
    // accepted from them.
    ensures too_few_good { records_of too_few_good [] ≡ too_few_good_records }
    // One of two faulty RMUs is silent, and the other sends two messages, too few bytes, a wrong
    // check and a Fault with a value: if one BIU took any of it, the good RMU would not outnumber
    // it, and the run would end there. All convict both.
    ensures ill_formed_messages { records_of ill_formed_messages [] ≡ ill_formed_messages_records }
    // No node is good: the run ends at once.
    ensures nobody_good { records_of nobody_good [] ≡ nobody_good_records }
{}

/// A node says more than any document lists.
pub fn more_than_a_document_lists()
    // An RMU says a word of its own to each node in each window, and 1,025 times to one of them:
    // the words come all the same, and all convict it.
    ensures flooding_rmu { records_of flooding_rmu [] ≡ silent_rmu_records }
{}
