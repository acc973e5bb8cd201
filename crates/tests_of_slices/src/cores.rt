//! A walk of the core.

ghost use Rattle.std.specs.Prelude.{◌≡◌, length};
ghost use Rattle.slice_core.specs.Machine.{state_of};

use audit_slices::{Core, Event};
use std::test::*;

// Whether the core does the event.
fn goes(core: &mut Core, event: Event) -> bool
    ensures hands { length (state_of core.new).hands ≡ length (state_of core.old).hands }
    ensures lanes { length (state_of core.new).lanes ≡ length (state_of core.old).lanes }
{
    core.step(event).is_ok()
}

// How many of the walk's events go as they have to, and leave these slices in the hands of both workers.
fn walk(core: &mut Core) -> usize
    requires { length (state_of core.old).hands ≡ 2 }
    ensures { length (state_of core.new).lanes ≡ length (state_of core.old).lanes }
{
    let mut steps = 0usize;
    for (event, enabled, hands) in [
        (Event::Take(0), true, [Some(0usize), None]),
        (Event::Steal(1, 0), true, [Some(0), Some(1)]),
        (Event::Take(0), false, [Some(0), Some(1)]),
        (Event::Fail(1), true, [Some(0), None]),
        (Event::Finish(0), true, [None, None]),
        (Event::Steal(0, 0), false, [None, None]),
        (Event::Steal(1, 0), true, [None, Some(2)]),
        (Event::Finish(1), true, [None, None]),
    ] {
        if goes(core, event) != enabled || [core.hand(0), core.hand(1)] != hands {
            break;
        }
        steps = steps.wrapping_add(1);
    }
    steps
}

#[test]
fn core_walks(rt: HostRuntime) {
    let Ok(mut core) = Core::start(rt.alloc(), 3, 1, 2) else {
        panic!(rt; "refused")
    };
    assert_eq!(rt; walk(&mut core), 8);
    assert!(rt; core.done() == [0usize, 2].as_slice());
    assert!(rt; core.lost() == [1usize].as_slice());
    assert!(rt; core.lane(0).is_empty());
}
