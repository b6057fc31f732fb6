// The choices of faulty servers: each a number whose bit `v` says that server `v` is assumed to be faulty.
ghost use Rattle.std.specs.Prelude.{◌≡◌, ℕ, ◌^◌, ◌<◌, ◌≤◌, List, count_ones, filter, IfOk, vec_len, ◌==◌};
ghost use Rattle.std.specs.List.{range_with_len};
ghost use Rattle.choice.specs.Choice.{chosen};
ghost use Rattle.choice.specs.Cases.{Worked};
ghost use Rattle.choice.specs.Promise.{ExactOverAll, FullSayAll, NoRuleSaysLess, SaysNoLess};
ghost use Rattle.span.specs.Known.{BoundsLoseNothing, KnownExact, MoreFaultyWider};
ghost use Rattle.choice.specs.Stands.{AllChosen};
ghost use Rattle.span.specs.World.{Event};

use crate::servers::Servers;
use std::alloc::{AllocError, Global};

// The numbers below an end that have so many bits set.
fn with_ones(alloc: Global, end: u16, ones: u32) -> Result<Vec<u16>, AllocError>
    ensures items { IfOk result (λ v. v.items ≡ filter (λ c. count_ones c == ones) (range_with_len 0 end)) }
{
    (0..end)
        .filter(|choice| choice.count_ones() == ones)
        .collect(alloc)
}

// All choices of just as many of the servers as may be faulty. A choice of fewer has a narrower span than one of these, so that nothing is lost without them.
pub fn choices(alloc: Global, servers: Servers) -> Result<Vec<u16>, AllocError>
    ensures items { IfOk result (λ v. v.items ≡ chosen servers.faulty (2 ^ servers.many)) }
    ensures all { IfOk result (λ v. AllChosen servers.many servers.faulty v.items) }
    ensures bounds { BoundsLoseNothing }
    ensures known { KnownExact }
    ensures whole { ExactOverAll }
    ensures least { NoRuleSaysLess }
    ensures wider { MoreFaultyWider }
    ensures full { FullSayAll }
    ensures worked { Worked }
    ensures few { IfOk result (λ v. servers.faulty < servers.many → vec_len v ≤ 252) }
{
    with_ones(alloc, 1 << servers.many(), u32::from(servers.faulty()))
}

// Any rule whatever by which somebody might say times of a run of events, and blame servers.
pub trait Rule {
    ghost says: { List Event → ℕ → Type 0 };

    ghost blames: { List Event → ℕ → Type 0 };
}

// No rule that is never wrong says less than what may be, or blames a server that is not named: there is nothing to run.
pub fn no_rule_says_less<R: Rule>()
    ensures least { SaysNoLess R.Rule.says R.Rule.blames }
{}
