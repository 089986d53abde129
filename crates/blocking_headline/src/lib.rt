//! The pool's headline, on one page: `specs/Headline.antt` says it in five sentences, with one on copiers.
//!
//! `specs/Alone.antt` says the same with nothing imported but the client of a job. [`headline`] proves all of it from the laws of
//! `blocking_world_laws`, and [`independence`] that an owner sees of others nothing. [`traces`] shows what the page accepts and refuses.
#![tactic(auto)]

pub mod traces;

ghost use Rattle.std.specs.Prelude.{◌≡◌, ◌↔◌, ℕ, ◌+◌, ◌<◌, ◌≤◌, List, [], ◌∷◌, ◌++◌, length, min, filter, Bool, true, Some, None, get_or};
ghost use Rattle.blocking_world_laws.specs.Legal.{Legal};
ghost use Rattle.blocking_headline.specs.Headline.{line, in_one_line, ends, IsAll, calls, IsNotLost, polls, Headline};
ghost use Rattle.blocking_headline.specs.Alone.{Alone};
ghost use Rattle.blocking_headline.specs.Independence.{IsIndependent};
ghost use Rattle.blocking_headline.specs.Words.{IsEnding, all_got, all_accepted, all_taken, greatest, Link, Linked, Copy, Copied, Flush, Okay, outcome, HasReplied};
ghost use Rattle.blocking_headline.specs.Words.{Moment, Owner, Task, Worker, Took, IsBeginning, taken_by, hand, hand_of, workers, limit};
ghost use Rattle.blocking_headline.specs.Words.{events, cut, acts_of_owner, acts_of_task, last_job, call, session, IsSessionOf, got, gave, accepted, taken};

/// Each clause of the page holds at each moment of a legal past, and so the page does. It is the same with nothing imported.
pub fn headline()
    ensures in_order { (setting : ℕ) (plan : List Bool) (past : List Moment) (now : Moment) → Legal setting plan (now ∷ past) →
        (s : ℕ) → now.event.act ≡ Took s → IsBeginning (s ∷ []) (filter (in_one_line past s) (line past)) }
    ensures take { (setting : ℕ) (plan : List Bool) (past : List Moment) (now : Moment) → Legal setting plan (now ∷ past) →
        (w s : ℕ) → now.event.party ≡ Worker w → taken_by now.event.act ≡ s ∷ [] →
        (hand past w ≡ None) × ((v : ℕ) → hand past v ≡ Some s → ⊥) }
    ensures held { (setting : ℕ) (plan : List Bool) (past : List Moment) (now : Moment) → Legal setting plan (now ∷ past) →
        (s : ℕ) → taken_by now.event.act ≡ [] → now.event.job ≡ Some s → hand_of past now.event.party ≡ Some s }
    ensures turn { (setting : ℕ) (plan : List Bool) (past : List Moment) (now : Moment) → Legal setting plan (now ∷ past) →
        (s : ℕ) → ends now.event.act s ≡ true → hand_of past now.event.party ≡ Some s }
    ensures within { (setting : ℕ) (plan : List Bool) (past : List Moment) (now : Moment) → Legal setting plan (now ∷ past) →
        0 < now.event.started → workers past + now.event.started ≤ limit setting past }
    ensures reads { (setting : ℕ) (plan : List Bool) (past : List Moment) → Legal setting plan past → (h : ℕ) →
        IsBeginning (got (acts_of_owner h (events past))) (gave (last_job (cut h (events past)))) }
    ensures writes { (setting : ℕ) (plan : List Bool) (past : List Moment) → Legal setting plan past → (h : ℕ) →
        IsBeginning (taken (last_job (cut h (events past)))) (accepted (acts_of_owner h (events past))) }
    ensures all { (setting : ℕ) (plan : List Bool) (past : List Moment) (now : Moment) → Legal setting plan (now ∷ past) →
        (h : ℕ) → now.event.party ≡ Owner h → IsAll (acts_of_owner h (events past)) (last_job (cut h (events past)))
        (call (acts_of_owner h (events past))) now.event.act }
    ensures owners { (setting : ℕ) (plan : List Bool) (seen : List Moment) → Legal setting plan seen → (h s : ℕ) →
        IsSessionOf (session (acts_of_owner h (events seen))) s → IsNotLost (Owner h) s (acts_of_owner h (events seen)) seen }
    ensures tasks { (setting : ℕ) (plan : List Bool) (seen : List Moment) → Legal setting plan seen → (k s : ℕ) →
        get_or (calls seen) k 0 ≡ s → IsNotLost (Task k) s (acts_of_task k (events seen)) seen }
    ensures copies { (setting : ℕ) (plan : List Bool) (past : List Moment) (now : Moment) → Legal setting plan (now ∷ past) →
        (later before : List Moment) (link : Moment) (a b m k n : ℕ) → past ≡ later ++ link ∷ before → link.step ≡ Link a b m →
        link.event.act ≡ Linked k → now.step ≡ Copy k → now.event.act ≡ Copied n →
        (all_accepted (acts_of_owner b (events later)) ≡ all_got (acts_of_owner a (events later))) ×
        IsEnding (all_got (acts_of_owner a (events later))) (all_taken (cut b (events past))) ×
        (n ≡ min (length (all_got (acts_of_owner a (events later)))) greatest) ×
        (call (polls a b later) ≡ Some Flush) × (outcome (polls a b later) ≡ HasReplied Okay) }
    ensures page { (setting : ℕ) (plan : List Bool) (seen : List Moment) → Legal setting plan seen → Headline setting seen }
    ensures alone { (setting : ℕ) (seen : List Moment) → Headline setting seen ↔ Alone setting seen }
{}

/// What is kept of an owner in a legal past keeps the fourth and the fifth sentence by itself.
pub fn independence()
    ensures of_each { (setting : ℕ) (plan : List Bool) (seen : List Moment) → Legal setting plan seen → (h : ℕ) → IsIndependent h seen }
{}
