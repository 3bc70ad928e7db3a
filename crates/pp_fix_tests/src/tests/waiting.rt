//! The wake list.
use pp_wake::Wake;

#[test]
fn goals_wait_in_turn(rt: HostRuntime) {
    let mut wake = Wake::new(rt.alloc(), 2).expect(&rt, "memory");
    assert_eq!(rt; wake.take(), Some(1));
    assert!(rt; wake.waits(2) && !wake.waits(1));
    assert!(rt; !wake.wake(2) && wake.wake(1));
    assert_eq!(rt; wake.first(1), Some(1));
}

#[test]
fn the_list_becomes_empty(rt: HostRuntime) {
    let mut wake = Wake::new(rt.alloc(), 2).expect(&rt, "memory");
    assert_eq!(rt;
        (wake.take(), wake.take(), wake.take()),
        (Some(1), Some(2), None)
    );
    assert_eq!(rt; wake.first(0), None);
}
