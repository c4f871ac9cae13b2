//! Whether a site is asked once more, and the wait for that.

ghost use Rattle.std.specs.Prelude.{◌≡◌, ◌↔◌, ℕ, [], ◌∷◌, Option, IsTrue, true};
ghost use Rattle.std.specs.List.{All};
ghost use Rattle.catch_up.specs.Rounds.{open_of};
ghost use Rattle.catch_up.specs.Times.{Read, Beats, is_over, pause_after, WaitsForRound};
ghost use Rattle.catch_up.specs.inner.Progress.{IsNext};

use crate::timer::Timer;
use known_bags::KnownBag;

/// How many milliseconds are between two rounds of questions at first, and at most.
const FIRST_PAUSE: u64 = 2;

const LONGEST_PAUSE: u64 = 1000;

/// Whether there is another round after so many: there is a first one, and another as long as
/// versions are left and the time isn't over. It waits for any but the first.
pub(crate) fn awaits_round<T: Timer>(
    timer: &mut T,
    versions: &[KnownBag],
    seconds: u32,
    rounds: u32,
) -> bool
    ensures { IsNext seconds (open_of versions.now) rounds (T.beats timer.old)
        (T.beats timer.new) result }
{
    if rounds == 0 {
        return true;
    }
    if are_all_known(versions) {
        return false;
    }
    waits_for_round(timer, u64::from(seconds), rounds - 1)
}

/// Whether so many seconds haven't passed yet. Then it waits for another round, if there were so
/// many pauses before.
pub fn waits_for_round<T: Timer>(timer: &mut T, seconds: u64, pauses: u32) -> bool
    ensures { WaitsForRound seconds pauses (T.beats timer.old) (T.beats timer.new) result }
{
    if is_over(timer, seconds) {
        return false;
    }
    timer.pause(pause_after(pauses));
    true
}

// Whether the site knows each of these versions.
fn are_all_known(versions: &[KnownBag]) -> bool
    ensures { IsTrue result ↔ All (λ v. v.is_found ≡ true) versions.now }
{
    versions.iter().all(|version| version.is_found)
}

// Whether so many seconds have passed.
fn is_over<T: Timer>(timer: &mut T, seconds: u64) -> bool
    ensures { (time : Option ℕ)
        × Beats (T.beats timer.old) (T.beats timer.new) (Read time ∷ [])
        × (result ≡ is_over seconds time) }
{
    match timer.seconds() {
        Some(passed) => seconds <= passed,
        None => true,
    }
}

// How many milliseconds a pause has, if there were so many before.
fn pause_after(pauses: u32) -> u64
    ensures { result ≡ pause_after pauses }
{
    let factor = 2u64.saturating_pow(pauses);
    FIRST_PAUSE.saturating_mul(factor).min(LONGEST_PAUSE)
}
