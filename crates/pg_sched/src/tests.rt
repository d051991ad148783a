use super::*;
use std::test::*;

#[test]
fn the_first_three_picks_of_seed_one(rt: HostRuntime) {
    let mut pick = Pick::new(1);
    for want in [908_834_774, 1_093_944_153, 1_392_341_196] {
        assert_eq!(rt; pick.next(), want);
    }
}
