//! Votes, applications, ports and the book, at the edges of the rules.
#![tactic(auto, unfolding(rb_base::specs::Nodes::set_of, rb_base::specs::Nodes::set_below, rb_base::specs::Nodes::size, rb_rules::specs::Judging::classes_of, rb_rules::specs::Judging::verdict_of, rb_rules::specs::Book::with_stage, rb_rules::specs::Book::with_frame))]

ghost use Rattle.std.specs.Prelude.{◌≡◌, ◌∷◌, ◌++◌, ◌+◌, [], length, map, replicate};
ghost use Rattle.std.specs.Prelude.{false, None, Some, true};
ghost use Rattle.rb_base.specs.declared.values.Heard.TheVariants.{Word, Fault};
ghost use Rattle.rb_rules.specs.Book.{after_stage, fresh_book, slot_records};
ghost use Rattle.rb_rules.specs.Book.{with_end, with_frame, with_stage};
ghost use Rattle.rb_rules.specs.Book.Milestone.{Begin, End, Stage};
ghost use Rattle.rb_rules.specs.Book.Record.{Slot};
ghost use Rattle.rb_rules.specs.Majority.{IsMajority, majority_of};
ghost use Rattle.rb_rules.specs.Middle.{IsMiddle};
ghost use Rattle.rb_rules.specs.NodeSteps.{owner_at};
ghost use Rattle.rb_rules.specs.Owners.{owners_in_passes};
ghost use Rattle.rb_rules.specs.Ports.{delivered_to, hand_over, learned_by, losses_of, offered_at, offered_by};
ghost use Rattle.rb_test_rules.specs.Books.{begun, ended_book, nothing_told};
ghost use Rattle.rb_test_rules.specs.Judged.{silence};
ghost use Rattle.rb_test_rules.specs.Ordinary.{ordinary_use};
ghost use Rattle.rb_test_rules.specs.Parts.{biu, sizes};
ghost use Rattle.rb_test_rules.specs.Told.{at};

/// A majority is more than half, and Fault counts as a value.
pub fn majorities()
    ensures half { majority_of (Word 1 ∷ Word 1 ∷ Word 2 ∷ Word 2 ∷ []) ≡ Fault }
    ensures more_than_half { majority_of (Word 2 ∷ Word 1 ∷ Word 1 ∷ Word 2 ∷ Word 1 ∷ [])
        ≡ Word 1 }
    ensures against_faults { majority_of (Fault ∷ Word 1 ∷ Fault ∷ Word 1 ∷ []) ≡ Fault }
    ensures of_most { majority_of (Word 1 ∷ Word 1 ∷ Word 2 ∷ Word 3 ∷ []) ≡ Fault }
    ensures of_none { majority_of [] ≡ Fault }
{}

/// Who owns a slot: data slots have owners, once the schedule is known.
pub fn owners_of_slots()
    ensures before_the_schedule { owner_at sizes biu 4 ≡ None }
    ensures with_the_schedule { map (owner_at sizes (record biu { owners = 0 ∷ 3 ∷ [] }))
        (0 ∷ 4 ∷ 5 ∷ 6 ∷ 12 ∷ 16 ∷ 19 ∷ [])
        ≡ (None ∷ Some 0 ∷ Some 3 ∷ None ∷ None ∷ None ∷ None ∷ []) }
{}

/// What the applications offer.
pub fn offers_of_applications()
    ensures { map (λ app. offered_by app 4294967303 5) (0 ∷ 1 ∷ 2 ∷ [])
        ≡ (7 ∷ 7 ∷ 12 ∷ []) }
{}

/// The states of the applications after a delivery. None is Fault.
pub fn states_of_applications()
    ensures learned { map (λ app. learned_by app 5 (Some 9)) (0 ∷ 1 ∷ 2 ∷ []) ≡ (5 ∷ 6 ∷ 164 ∷ []) }
    ensures learned_of_a_fault { map (λ app. learned_by app 5 None) (0 ∷ 1 ∷ 2 ∷ [])
        ≡ (5 ∷ 6 ∷ 155 ∷ []) }
    ensures past_the_greatest { map (λ app. learned_by app 18446744073709551615 (Some 30))
        (1 ∷ 2 ∷ []) ≡ (0 ∷ 18446744073709551615 ∷ []) }
{}

/// Losses are counted among the last 64 deliveries.
pub fn losses_of_ports()
    ensures all_lost { losses_of (record { app = 0; state = 1; faults = replicate 64 true }) ≡ 64 }
    ensures older { losses_of
        (record { app = 0; state = 1; faults = replicate 63 false ++ true ∷ true ∷ true ∷ [] })
        ≡ 1 }
    ensures delivered { losses_of
        (delivered_to (record { app = 0; state = 1; faults = true ∷ false ∷ [] }) Fault)
        ≡ 2 }
{}

/// A state is handed to its own port, in its own frame, and the later one counts.
pub fn states_handed_over()
    ensures { map (λ p. p.state) (hand_over 1
        (record { frame = 1; biu = 1; state = 6 } ∷ record { frame = 2; biu = 0; state = 7 }
        ∷ record { frame = 1; biu = 1; state = 8 } ∷ [])
        (record { app = 0; state = 1; faults = [] } ∷ record { app = 0; state = 2; faults = [] }
        ∷ []))
        ≡ (1 ∷ 8 ∷ []) }
{}

/// A state that is handed over leaves the losses as they are.
pub fn losses_after_a_state()
    ensures { map losses_of (hand_over 1 (record { frame = 1; biu = 0; state = 6 } ∷ [])
        (record { app = 0; state = 1; faults = true ∷ [] } ∷ []))
        ≡ (1 ∷ []) }
{}

/// Three stages a slot. The frame's record comes after stage 3 of the sync slot.
pub fn stages_of_a_book()
    ensures within_a_slot { after_stage sizes (at 0 5 1) ≡ Stage (at 0 5 2) }
    ensures next_slot { after_stage sizes (at 0 18 3) ≡ Stage (at 0 19 1) }
    ensures within_the_sync_slot { after_stage sizes (at 0 19 2) ≡ Stage (at 0 19 3) }
    ensures next_frame { after_stage sizes (at 0 19 3) ≡ Begin 1 }
{}

/// A slot's record comes after its stage 3, and the sync slot has none of its own.
pub fn records_of_slots()
    ensures of_a_slot { slot_records sizes (at 0 5 3) [] ≡ (Slot 0 5 [] ∷ []) }
    ensures before_its_end { slot_records sizes (at 0 5 2) [] ≡ [] }
    ensures of_the_sync_slot { slot_records sizes (at 0 19 3) [] ≡ [] }
{}

/// In a book that has ended no stage is settled any more.
pub fn stage_after_the_end()
    ensures stage { (with_stage ordinary_use (at 0 18 3) nothing_told ended_book).given
        ≡ ended_book.given }
    ensures upcoming { (with_stage ordinary_use (at 0 18 3) nothing_told ended_book).upcoming
        ≡ End }
    ensures still_ended { (with_stage ordinary_use (at 0 18 3) nothing_told ended_book).ended
        ≡ true }
{}

/// In a book that has ended no frame is settled any more, and no end.
pub fn frame_after_the_end()
    ensures frame { (with_frame ordinary_use 0 (begun ∷ []) ended_book).given ≡ ended_book.given }
    ensures end { (with_end ended_book).given ≡ ended_book.given }
{}

/// Half is no majority, the upper of two middles is no middle, and passes give no more slots than
/// there are.
pub fn counts_of_votes_and_owners()
    ensures half { ¬ IsMajority (Word 1) (Word 1 ∷ Word 2 ∷ []) }
    ensures upper_middle { ¬ IsMiddle 3 (1 ∷ 2 ∷ 3 ∷ 4 ∷ []) }
    ensures passes { map (λ n. length (owners_in_passes sizes 15 (replicate 4 (Word 9)) n))
        (2 ∷ 9 ∷ [])
        ≡ (8 ∷ 8 ∷ []) }
{}

/// Of 65 deliveries the first one counts no more among the losses. What is handed in for frame 1 is
/// not handed over again in frame 2.
pub fn what_is_past()
    ensures losses { losses_of (delivered_to
        (record { app = 0; state = 1; faults = replicate 64 true }) (Word 1))
        ≡ 63 }
    ensures handed_before { map (λ p. p.state)
        (hand_over 2 (record { frame = 1; biu = 0; state = 6 } ∷ [])
        (record { app = 0; state = 1; faults = [] } ∷ []))
        ≡ (1 ∷ []) }
{}

/// With a new frame the stages before it are judged no more.
pub fn with_a_new_frame()
    ensures { length (with_frame ordinary_use 0 (begun ∷ [])
        (record fresh_book { stages = silence ∷ [] })).stages
        ≡ 0 }
{}
