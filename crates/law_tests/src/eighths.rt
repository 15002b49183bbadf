// Ends and bounds worked by hand.
use gas_model::Ends;
use tight_steps::{best_to, cut, loosest};

// An eighth of 80 is 10, of 81 it is more than 10, and of nothing it is the least step.
#[test]
fn eighth_of_the_width_is_enough(rt: HostRuntime) {
    let wide = Ends { lo: 0, hi: 80 };
    assert_eq!(rt; loosest(true, wide), Some(10));
    assert_eq!(rt; loosest(false, Ends { lo: -1, hi: 80 }), Some(69));
    assert_eq!(rt; loosest(true, Ends { lo: 5, hi: 5 }), Some(6));
    assert_eq!(rt; loosest(true, Ends { lo: 6, hi: 5 }), None);
    assert_eq!(rt; best_to(true, wide, 9), None);
    assert_eq!(rt; best_to(true, wide, 10), Some(10));
    assert_eq!(rt; best_to(true, wide, 200), Some(81));
    assert_eq!(rt; best_to(false, wide, 71), None);
    assert_eq!(rt; best_to(false, wide, 70), Some(70));
    assert_eq!(rt; best_to(false, wide, -200), Some(-1));
    assert_eq!(rt; cut(false, wide, 3), 3);
}
