//! Holders that lie in an array, each over places of its own.
use crate::Holder;

fn push_second(holders: &mut [Holder<'_, u32>; 2], value: u32) -> bool {
    holders[1].push(value).is_ok()
}

#[test]
fn holders_in_an_array(rt: HostRuntime) {
    let mut one = [0u32; 2];
    let mut other = [0u32; 1];
    let mut holders = [Holder::new(&mut one), Holder::new(&mut other)];
    assert_eq!(rt; push_second(&mut holders, 7), true);
    assert_eq!(rt; push_second(&mut holders, 8), false);
    assert_eq!(rt; holders[0].count(), 0);
    assert_eq!(rt; holders[1].pop(), Some(7));
}
