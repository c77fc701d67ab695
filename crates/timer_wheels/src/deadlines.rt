//! The first deadline of a wheel, exactly.
//!
//! A bucket is in order of starting and maybe not of deadlines, so that its first deadline takes a walk along it.
//! In a hierarchy every deadline of a bucket comes before those of the buckets after it: the first one with a
//! timer is enough.
ghost use Rattle.std.specs.Prelude.{◌≡◌, ◌<◌, length};
ghost use Rattle.timer_base.specs.WakeUps.{next_deadline};
ghost use Rattle.timer_links.specs.Lists.{list_at};
ghost use Rattle.timer_wheels.specs.BucketLists.{rows_below, row_timers};
ghost use Rattle.timer_wheels.specs.Buckets.{state_of};
ghost use Rattle.timer_wheels.specs.FirstDeadline.{IsLeastDeadline};

use crate::buckets::Buckets;
use timer_base::earlier;
use timer_links::{Kept, Links};

/// The first pending deadline, found by a walk along every bucket. Does not allocate.
#[tactic(auto, using(crate::proofs::bucket_lemmas::DeadlineLemmas::least_is_next))]
pub fn first_deadline_by_walk<N: Kept>(buckets: &Buckets<N>) -> Option<u64>
    ensures { result ≡ next_deadline (state_of buckets.now).pending }
{
    least_below(&buckets.links, buckets.slots)
}

/// The least deadline of the timers in the first `count` lists. It walks all of them.
fn least_below<N: Kept>(links: &Links<N>, count: usize) -> Option<u64>
    requires { count < length links.now.lists }
    ensures { IsLeastDeadline result (row_timers (rows_below count links.now.lists)) }
{
    let mut least = None;
    for list in 0..count {
        least = earlier(least, least_in(links, list));
    }
    least
}

/// The least deadline of the timers in one list. It walks the whole list.
pub fn least_in<N: Kept>(links: &Links<N>, list: usize) -> Option<u64>
    requires { list < length links.now.lists }
    ensures { IsLeastDeadline result (row_timers (list_at list links.now.lists)) }
{
    links.lemma_keys_unique();
    let mut least = None;
    let mut at = links.front(list);
    for step in 0..links.len() {
        let Some(key) = at else {
            break;
        };
        let Some(node) = links.get(key) else {
            break;
        };
        least = earlier(least, Some(node.timer.deadline));
        at = links.next(key);
    }
    least
}
