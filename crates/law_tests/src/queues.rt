// Queues of distinct numbers.
use link_queue::LinkQueue;
use std::test::Fail;

// Over 3 numbers: 2 and 0 go in, 2 isn't put in again, and 2 goes out from the front, so that 0 alone is left.
#[test]
fn held_number_keeps_its_place(rt: HostRuntime) -> Result<(), Fail> {
    let mut queue = LinkQueue::new(rt.alloc(), 3)?;
    assert!(rt; queue.push_back(2));
    assert!(rt; queue.push_back(0));
    assert!(rt; !queue.push_back(2));
    assert!(rt; queue.take_out(2));
    assert_eq!(rt; queue.pop_front(), Some(0));
    assert_eq!(rt; queue.pop_front(), None);
    Ok(())
}

// 1, 3, 0, 2 without 3, which then goes in at the back.
#[test]
fn number_taken_out_goes_in_at_the_back(rt: HostRuntime) -> Result<(), Fail> {
    let mut queue = LinkQueue::new(rt.alloc(), 4)?;
    assert!(rt;
        queue.push_back(1) && queue.push_back(3) && queue.push_back(0) && queue.push_back(2)
    );
    assert!(rt; queue.holds(3) && queue.take_out(3) && !queue.holds(3) && !queue.take_out(3));
    assert!(rt; queue.push_back(3));
    assert_eq!(rt; queue.pop_front(), Some(1));
    assert_eq!(rt; queue.pop_front(), Some(0));
    assert_eq!(rt; queue.pop_front(), Some(2));
    assert_eq!(rt; queue.pop_front(), Some(3));
    assert_eq!(rt; queue.pop_front(), None);
    Ok(())
}

#[test]
fn queue_over_no_numbers_is_empty(rt: HostRuntime) -> Result<(), Fail> {
    let mut queue = LinkQueue::new(rt.alloc(), 0)?;
    assert_eq!(rt; queue.pop_front(), None);
    Ok(())
}
