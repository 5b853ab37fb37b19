//! How the fault premise is judged, at the edges of the rule.
#![tactic(auto, unfolding(rb_base::specs::Nodes::set_of, rb_base::specs::Nodes::set_below, rb_base::specs::Nodes::size, rb_rules::specs::Judging::classes_of, rb_rules::specs::Judging::verdict_of))]

ghost use Rattle.std.specs.Prelude.{◌≡◌, ◌∷◌, [], true, false, map, Some, None};
ghost use Rattle.rb_base.specs.Nodes.Side.{Biu, Rmu};
ghost use Rattle.rb_rules.specs.declared.cause.Cause.TheVariants.{FewGoodBiu, FewGoodRmu, TwoSided};
ghost use Rattle.rb_rules.specs.Judging.{are_few_good, cause_of, classes_of, verdict_of};
ghost use Rattle.rb_test_rules.specs.Judged.{call_at_one, calls_at, fault_at_all, silence};
ghost use Rattle.rb_test_rules.specs.Judged.{word_of, word_of_for_one};

/// Symmetric and asymmetric nodes both count against the good, and a tie is too few.
pub fn few_good_nodes()
    ensures against_asymmetric { are_few_good
        (record { good = 1; benign = 0; symmetric = 0; asymmetric = 6 })
        ≡ true }
    ensures against_symmetric { are_few_good
        (record { good = 1; benign = 0; symmetric = 6; asymmetric = 0 })
        ≡ true }
    ensures against_both { are_few_good
        (record { good = 7; benign = 0; symmetric = 24; asymmetric = 32 })
        ≡ true }
{}

/// One good node more is enough, and benign nodes do not count.
pub fn enough_good_nodes()
    ensures more_good { are_few_good
        (record { good = 15; benign = 0; symmetric = 48; asymmetric = 64 })
        ≡ false }
    ensures against_benign { are_few_good
        (record { good = 1; benign = 6; symmetric = 0; asymmetric = 0 })
        ≡ false }
{}

/// Too few good nodes of a kind are a cause: that of the BIUs comes first, then that of the RMUs.
pub fn few_good_of_a_kind()
    ensures bius { cause_of (record { good = 0; benign = 0; symmetric = 0; asymmetric = 1 })
        (record { good = 0; benign = 0; symmetric = 0; asymmetric = 1 })
        ≡ Some FewGoodBiu }
    ensures rmus { cause_of (record { good = 6; benign = 0; symmetric = 0; asymmetric = 1 })
        (record { good = 0; benign = 0; symmetric = 0; asymmetric = 1 })
        ≡ Some FewGoodRmu }
{}

/// Asymmetric nodes of both kinds are a cause, which comes last. Those of one kind alone are none.
pub fn asymmetric_of_both_kinds()
    ensures both { cause_of (record { good = 6; benign = 0; symmetric = 0; asymmetric = 1 })
        (record { good = 6; benign = 0; symmetric = 0; asymmetric = 1 })
        ≡ Some TwoSided }
    ensures one_kind { cause_of (record { good = 6; benign = 0; symmetric = 0; asymmetric = 1 })
        (record { good = 6; benign = 0; symmetric = 1; asymmetric = 0 })
        ≡ None }
{}

/// What was taken and what was seen unlike in any stage of the frame counts: two BIUs lie, each in
/// a stage of its own.
pub fn verdicts()
    ensures one_lies { verdict_of (word_of 2 ∷ []) ≡ None }
    ensures both_lie { verdict_of (word_of 2 ∷ word_of 3 ∷ []) ≡ Some FewGoodBiu }
    ensures long_ago { verdict_of (silence ∷ word_of 2 ∷ silence ∷ word_of 3 ∷ [])
        ≡ Some FewGoodBiu }
{}

/// The class of a node, by what others saw and accepted from it in any stage of the frame.
pub fn classes()
    ensures symmetric { (classes_of Biu (silence ∷ word_of 2 ∷ [])).symmetric ≡ 4 }
    ensures asymmetric { (classes_of Biu (word_of 2 ∷ word_of_for_one 2 ∷ [])).asymmetric ≡ 4 }
    ensures benign { (classes_of Biu (word_of 2 ∷ [])).benign ≡ 8 }
{}

/// Times of one message may lie as far apart as the delays of a link, and no further, whichever
/// comes first.
pub fn classes_by_times()
    ensures as_far { map (λ s. (classes_of Biu (s ∷ [])).asymmetric)
        (calls_at 100 110 ∷ calls_at 110 100 ∷ [])
        ≡ (0 ∷ 0 ∷ []) }
    ensures further { map (λ s. (classes_of Biu (s ∷ [])).asymmetric)
        (calls_at 100 111 ∷ calls_at 111 100 ∷ [])
        ≡ (4 ∷ 4 ∷ []) }
{}

/// Who calls at one of several receivers was seen unlike. Of a node that says only Faults something
/// was taken.
pub fn sights()
    ensures call_at_one { (classes_of Biu (call_at_one ∷ [])).asymmetric ≡ 4 }
    ensures fault_at_all { (classes_of Biu (fault_at_all ∷ [])).symmetric ≡ 4 }
{}
