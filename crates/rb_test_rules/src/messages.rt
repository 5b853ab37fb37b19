//! Bytes that spell no message, and messages that are meant for another window.
#![tactic(auto, unfolding(rb_rules::specs::Spelling::message_in))]

ghost use Rattle.std.specs.Prelude.{◌≡◌, ◌∷◌, [], None, true};
ghost use Rattle.rb_base.specs.declared.values.Heard.TheVariants.{Fault, Word};
ghost use Rattle.rb_rules.specs.declared.message.Tag.TheVariants as tag;
ghost use Rattle.rb_rules.specs.declared.message.Version.TheVariants as version;
ghost use Rattle.rb_rules.specs.declared.sense.Sense.TheVariants.{Bad};
ghost use Rattle.rb_rules.specs.Entries.{message_at};
ghost use Rattle.rb_rules.specs.ExactStage.{message_of};
ghost use Rattle.rb_rules.specs.NodeSteps.{expect_of};
ghost use Rattle.rb_rules.specs.Sense.{sense_of};
ghost use Rattle.rb_rules.specs.Spelling.{message_in};
ghost use Rattle.rb_rules.specs.SyncStage.{call_of};
ghost use Rattle.rb_test_rules.specs.Parts.{expected, in_frame_65537, sizes, word_10};
ghost use Rattle.rb_test_rules.specs.Told.{at};

/// Bytes that are no message of version One: a Fault with a value, and a call with one.
pub fn bytes_with_a_value()
    ensures fault_with_a_value { message_in version.One
        (2 ∷ 0 ∷ 0 ∷ 0 ∷ 0 ∷ 2 ∷ 0 ∷ 0 ∷ 0 ∷ 1 ∷ 1 ∷ []) ≡ None }
    ensures call_with_a_value { message_in version.One
        (3 ∷ 0 ∷ 0 ∷ 0 ∷ 19 ∷ 2 ∷ 0 ∷ 0 ∷ 0 ∷ 1 ∷ 19 ∷ [])
        ≡ None }
{}

/// Bytes that are no message of version One: their tag is below the first, or past the last.
pub fn bytes_without_a_tag()
    ensures no_tag { message_in version.One (0 ∷ 0 ∷ 0 ∷ 0 ∷ 4 ∷ 1 ∷ 0 ∷ 0 ∷ 0 ∷ 0 ∷ 5 ∷ [])
        ≡ None }
    ensures tag_past_the_last { message_in version.One
        (4 ∷ 0 ∷ 0 ∷ 0 ∷ 4 ∷ 1 ∷ 0 ∷ 0 ∷ 0 ∷ 0 ∷ 1 ∷ []) ≡ None }
{}

/// Bytes that are no message of version One: their stage is below the first, or past the last.
pub fn bytes_without_a_stage()
    ensures stage_0 { message_in version.One (1 ∷ 0 ∷ 0 ∷ 0 ∷ 4 ∷ 0 ∷ 0 ∷ 0 ∷ 0 ∷ 10 ∷ 15 ∷ [])
        ≡ None }
    ensures stage_4 { message_in version.One (1 ∷ 0 ∷ 0 ∷ 0 ∷ 4 ∷ 4 ∷ 0 ∷ 0 ∷ 0 ∷ 10 ∷ 11 ∷ [])
        ≡ None }
{}

/// Bytes that are no message of version One: their check is wrong, or a byte comes after it.
pub fn bytes_with_a_wrong_end()
    ensures wrong_check { message_in version.One (1 ∷ 0 ∷ 0 ∷ 0 ∷ 4 ∷ 1 ∷ 0 ∷ 0 ∷ 0 ∷ 10 ∷ 15 ∷ [])
        ≡ None }
    ensures too_long { message_in version.One (1 ∷ 0 ∷ 0 ∷ 0 ∷ 4 ∷ 1 ∷ 0 ∷ 0 ∷ 0 ∷ 10 ∷ 14 ∷ 0 ∷ [])
        ≡ None }
{}

/// Messages for another frame or another slot, and a message whose check leaves out the bus.
pub fn messages_for_others()
    ensures of_another_frame { sense_of (record expected { frame = 2 }) (word_10 70 5 10 ∷ [])
        ≡ Bad }
    ensures of_another_slot { sense_of (record expected { slot = 5 }) (word_10 70 5 10 ∷ []) ≡ Bad }
    ensures check_without_the_bus { sense_of expected (word_10 70 5 15 ∷ []) ≡ Bad }
{}

/// A call below the sync slot, and a Fault in it.
pub fn messages_out_of_place()
    ensures call_below_the_sync_slot { sense_of (record expected { version = version.One })
        (record { stamp = 70; bytes = 3 ∷ 0 ∷ 1 ∷ 0 ∷ 4 ∷ 1 ∷ 0 ∷ 0 ∷ 0 ∷ 0 ∷ 7 ∷ [] } ∷ [])
        ≡ Bad }
    ensures fault_in_the_sync_slot { sense_of
        (record expected { sync = true; version = version.One })
        (record { stamp = 70; bytes = 2 ∷ 0 ∷ 1 ∷ 0 ∷ 4 ∷ 1 ∷ 0 ∷ 0 ∷ 0 ∷ 0 ∷ 6 ∷ [] } ∷ [])
        ≡ Bad }
{}

/// A message has the frame's number modulo 65536, whether it is a word, a fault or a call.
pub fn frames_past_the_last_number()
    ensures word { message_of in_frame_65537 4 1 (Word 10)
        ≡ record { tag = tag.Word; frame = 1; slot = 4; stage = 1; value = 10 } }
    ensures fault { message_of in_frame_65537 4 2 Fault
        ≡ record { tag = tag.Fault; frame = 1; slot = 4; stage = 2; value = 0 } }
    ensures call { call_of sizes in_frame_65537 1
        ≡ record { tag = tag.Sync; frame = 1; slot = 19; stage = 1; value = 0 } }
{}

/// A node expects messages with the frame's number modulo 65536.
pub fn expected_past_the_last_number()
    ensures { expect_of sizes (version.Two 5) in_frame_65537 4 1 ≡ expected }
{}

/// Twelve bytes spell a message of version Two, and thirteen spell none. What is said in the tail
/// has stage 3.
pub fn lengths_and_stages()
    ensures thirteen_bytes { message_in (version.Two 5)
        (1 ∷ 0 ∷ 1 ∷ 0 ∷ 4 ∷ 1 ∷ 0 ∷ 0 ∷ 0 ∷ 10 ∷ 5 ∷ 10 ∷ 0 ∷ [])
        ≡ None }
    ensures in_the_tail { message_at (at 0 19 4) tag.Sync 0
        ≡ record { tag = tag.Sync; frame = 0; slot = 19; stage = 3; value = 0 } }
{}
