// Where the hand goes: towards the middle of the longest run, and to the next time that may be.
ghost use Rattle.std.specs.Prelude.{◌≡◌, find, nat_le};
ghost use Rattle.hand.specs.Hand.{length_of, longest, next, onward, step, towards, wanted};

use choice::runs::Run;
use span::CEILING;
use span::rate::Drift;

// From its least to its greatest time.
fn length(run: Run) -> u64
    ensures value { result ≡ length_of run }
{
    run.hi.saturating_sub(run.lo)
}

// The longest of the first run and the rest, the earlier of equal ones. `max_by_key` takes the later of them, so that it would have to go through the runs from behind.
#[tactic(auto, unfolding(crate::specs::Hand::longest))]
fn longest(first: Run, rest: &[Run]) -> Run
    ensures value { result ≡ longest first rest.now }
{
    rest.iter().copied().fold(first, |best, run| {
        if length(run) > length(best) {
            run
        } else {
            best
        }
    })
}

// The middle, rounded down, of the longest run; 0 where there is none.
#[tactic(auto, unfolding(crate::specs::Hand::wanted))]
fn wanted(runs: &[Run]) -> u64
    ensures value { result ≡ wanted runs.now }
{
    let [first, rest @ ..] = runs else {
        return 0;
    };
    let run = longest(*first, rest);
    ((run.lo as u128 + run.hi as u128) / 2) as u64
}

// From `time` towards the goal if that is ahead, as far as it can go in so many ticks.
fn towards(time: u64, goal: u64, ticks: u64) -> u64
    ensures value { result ≡ towards ticks goal time }
{
    let faster = Drift::FIVE_HUNDRED.share(ticks);
    let reach = time.saturating_add(ticks).saturating_add(faster);
    time.max(goal.min(reach))
}

// The first run that does not lie behind `time`.
fn first_ahead(runs: &[Run], time: u64) -> Option<Run>
    ensures value { result ≡ find (λ r. nat_le time r.hi) runs.now }
{
    runs.iter().copied().find(|run| time <= run.hi)
}

// The next time that may be, from `time` on; `time` itself where none is left.
fn next(runs: &[Run], time: u64) -> u64
    ensures value { result ≡ next time runs.now }
{
    match first_ahead(runs, time) {
        Some(run) => time.max(run.lo),
        None => time,
    }
}

// An ordinary step from `time`, in so many ticks.
pub fn step(runs: &[Run], time: u64, ticks: u64) -> u64
    ensures value { result ≡ step runs.now ticks time }
{
    next(runs, towards(time, wanted(runs), ticks))
}

// Freely on from `time` by so many ticks, no further than the ceiling.
pub fn onward(time: u64, ticks: u64) -> u64
    ensures value { result ≡ onward ticks time }
{
    time.max(time.saturating_add(ticks).min(CEILING))
}
