//! The laws of the live run, each the contract of a function that does nothing.
ghost use Rattle.std.specs.Prelude.{◌≡◌, [], ℕ, List as Items, filter};
ghost use Rattle.hq_live.specs.Steps.{is_by};
ghost use Rattle.hq_live.specs.LiveRun.{Moment, live_run, is_to, moments_of, AlikeFor};
ghost use Rattle.hq_live.specs.declared.event.Subscription.{Subscription as Begun};

/// What a subscriber is sent is the run from which the events of others are left out.
pub fn others_change_nothing()
    ensures { (who : ℕ) (moments : Items Moment) (subs : Items Begun)
        → filter (is_to who) (live_run moments subs) ≡ live_run (moments_of who moments) (filter (is_by who) subs) }
{}

/// What a subscriber is sent is the same over any two lists of databases over which, event by event, the same replies are due to
/// each of his sessions.
pub fn what_he_cannot_tell_apart_changes_nothing()
    ensures { (who : ℕ) (ms ns : Items Moment) → AlikeFor who ms ns → filter (is_to who) (live_run ms []) ≡ filter (is_to who) (live_run ns []) }
{}
